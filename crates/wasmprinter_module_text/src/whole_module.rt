//! Modules (section 6.6 of the WebAssembly Core Specification, "Modules"): the fields of each section, followed by
//! the custom sections at that position.
ghost use Rattle.std.specs.Prelude.{◌≡◌, ◌++◌, List, None, length};
ghost use Rattle.wasmprinter_spec.specs.Options.{Answers};
ghost use Rattle.wasmprinter_spec.specs.Layout.{section_order};
ghost use Rattle.wasmprinter_spec.specs.Layout.Customs.{parts_at};
ghost use Rattle.wasmprinter_flat.specs.OpenLabels.LabelState.{names_of};
ghost use Rattle.wasmprinter_module_text.specs.Scopes.{scope_view};
ghost use Rattle.wasmprinter_module_text.specs.Sections.{sections_parts, whole_parts, Folds};

use crate::printing_scope::{ModuleTypes, Scope};
use crate::section_fields::write_fields_of;
use crate::write_customs;
use wasmprinter_decoder::{ExternKind, Fields, Module, SectionKind};
use wasmprinter_flat::open_labels::OpenLabels;
use wasmprinter_fold::Folder;
use wasmprinter_print::FoldingOutput;
use wasmprinter_text::declarations_and_indices::write_leading_id_and_name;
use wasmprinter_text::lines::{close_group_at, end_last_line, start_first_line};
use wasmprinter_text::parens_and_words::open_group;

/// The kinds of sections, in the order in which they are printed.
const KINDS: [SectionKind; 12] = [
    SectionKind::Type,
    SectionKind::Import,
    SectionKind::Function,
    SectionKind::Table,
    SectionKind::Memory,
    SectionKind::Tag,
    SectionKind::Global,
    SectionKind::Export,
    SectionKind::Start,
    SectionKind::Element,
    SectionKind::Code,
    SectionKind::Data,
];

/// Writes the fields of all sections, with the custom sections before the first and after each.
fn write_sections<O: FoldingOutput>(out: &mut O, module: &Module<'_>, scope: &mut Scope<'_, '_>)
    ensures { (first : Answers) × (answers : List Answers) × (length answers ≡ length section_order)
        × O.laid out.old out.new (parts_at O.chosen.skeleton first None 0 module.now.customs
        ++ sections_parts O.chosen (scope_view O.chosen scope.old) module.now answers section_order) }
{
    write_customs(out, module.customs(), None);
    for kind in &KINDS {
        write_fields_of(out, module, scope, *kind);
        write_customs(out, module.customs(), Some(*kind));
    }
}

/// Writes a whole module, with the identifiers of the labels. If operators are folded, `folder` holds their nodes.
pub(crate) fn write_module<'s, 'a, O: FoldingOutput>(
    out: &mut O,
    module: &'s Module<'a>,
    labels: OpenLabels<'s, 'a>,
    folder: Option<Folder<'s, 'a>>,
)
    ensures { Folds O.chosen folder.entry module.now → (answers : Answers)
        × O.laid out.old out.new (whole_parts O.chosen answers (names_of labels.entry) module.now) }
{
    start_first_line(out, 0);
    open_group(out, "module");
    let outer_begun = out.enter_group();
    write_leading_id_and_name(out, labels.identifiers().module());
    let mut scope = Scope {
        types: ModuleTypes { module },
        labels,
        function: module.imported_count(ExternKind::Func),
        folder,
    };
    write_sections(out, module, &mut scope);
    close_group_at(out, module.size(), 0, outer_begun);
    end_last_line(out);
}
