//! Exports (section 6.6 of the WebAssembly Core Specification, "Exports").
ghost use Rattle.std.specs.Prelude.{◌≡◌, ℕ, codes};
ghost use Rattle.wasmprinter_spec.specs.Indexed.{space_of};
ghost use Rattle.wasmprinter_spec.specs.Layout.Exports.{kind_word, extern_index_pieces, export_parts};
ghost use Rattle.wasmprinter_spec.specs.Layout.Groups.{line_group_space};
ghost use Rattle.wasmprinter_decoder.specs.Externs.{kind_view};
ghost use Rattle.wasmprinter_flat.specs.OpenLabels.LabelState.{LabelState, names_of};
ghost use Rattle.wasmprinter_module_text.specs.Scopes.{scope_view, item_in};

use crate::field_trait::Field;
use crate::printing_scope::{Scope, write_index_in};
use wasmprinter_custom::Space;
use wasmprinter_decoder::{Export, ExternKind};
use wasmprinter_print::{FoldingOutput, Output};
use wasmprinter_text::integers::write_number_word;
use wasmprinter_text::parens_and_words::{open_group_space, write_close_paren, write_space};
use wasmprinter_text::strings::write_string;

/// Returns the keyword of a kind.
#[tactic(auto, unfolding(wasmprinter_spec::specs::Layout::Exports::kind_word))]
pub(crate) fn kind_word(kind: ExternKind) -> &'static str
    ensures { result.now ≡ kind_word (kind_view kind) }
{
    match kind {
        ExternKind::Func => "func",
        ExternKind::Table => "table",
        ExternKind::Memory => "memory",
        ExternKind::Global => "global",
        ExternKind::Tag => "tag",
    }
}

/// Returns the index space of the exported items of a kind.
fn space_of(kind: ExternKind) -> Space
    ensures { (l : LabelState) (n : ℕ) → item_in l result n ≡ (names_of l).items (space_of (kind_view kind)) n }
{
    match kind {
        ExternKind::Func => Space::Func,
        ExternKind::Table => Space::Table,
        ExternKind::Memory => Space::Memory,
        ExternKind::Global => Space::Global,
        ExternKind::Tag => Space::Tag,
    }
}

/// Writes the index of an exported item. The index of a tag is written as a number without a style.
#[tactic(auto, unfolding(wasmprinter_spec::specs::Layout::Exports::extern_index_pieces))]
fn write_extern_index<O: Output>(out: &mut O, scope: &Scope<'_, '_>, kind: ExternKind, index: u32)
    ensures { O.wrote out.old out.new
        (extern_index_pieces (scope_view O.chosen scope.now) (kind_view kind) index) }
{
    match kind {
        ExternKind::Tag => write_number_word(out, u64::from(index)),
        _ => write_index_in(out, scope, space_of(kind), index),
    }
}

/// Writes an exported item as a group.
#[tactic(auto, unfolding(wasmprinter_spec::specs::Layout::Groups::line_group_space))]
fn write_extern<O: Output>(out: &mut O, scope: &Scope<'_, '_>, kind: ExternKind, index: u32)
    ensures { O.wrote out.old out.new
        (line_group_space (kind_word (kind_view kind)) (extern_index_pieces (scope_view O.chosen scope.now) (kind_view kind) index)) }
{
    open_group_space(out, kind_word(kind));
    write_extern_index(out, scope, kind, index);
    write_close_paren(out);
}

impl<'a> Field for Export<'a> {
    ghost keyword = { codes "export" };

    ghost line_place = { λ e. e.place };

    ghost parts = { λ o s i e. export_parts s e.value };

    fn keyword(&self) -> &'static str {
        "export"
    }

    fn line_place(&self) -> u64 {
        self.place()
    }

    fn write_parts<O: FoldingOutput>(&self, out: &mut O, scope: &mut Scope<'_, '_>, _number: u64) {
        write_string(out, self.name());
        write_space(out);
        write_extern(out, scope, self.kind(), self.index());
    }
}
