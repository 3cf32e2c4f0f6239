//! The fields of the sections of each kind (section 6.6 of the WebAssembly Core Specification, "Modules").
ghost use Rattle.std.specs.Prelude.{◌≡◌, ◌+◌, ◌<◌, ◌^◌, length};
ghost use Rattle.wasmprinter_spec.specs.Types.{FuncKind};
ghost use Rattle.wasmprinter_spec.specs.Customs.Hints.{hints_of};
ghost use Rattle.wasmprinter_spec.specs.Layout.{section_pieces};
ghost use Rattle.wasmprinter_spec.specs.Layout.DataSegments.{data_pieces};
ghost use Rattle.wasmprinter_spec.specs.Layout.Functions.{functions_pieces};
ghost use Rattle.wasmprinter_spec.specs.Layout.Groups.{numbered_pieces};
ghost use Rattle.wasmprinter_decoder.specs.Externs.{kind_view, imported_count};
ghost use Rattle.wasmprinter_decoder.specs.Places.{section_kind_view};
ghost use Rattle.wasmprinter_module_text.specs.Scopes.{scope_view, function_scope_view};
ghost use Rattle.wasmprinter_module_text.specs.Parts.{field_line};

use crate::field_trait::{Field, write_each};
use crate::functions::write_function;
use crate::imports::write_imports;
use crate::printing_scope::Scope;
use crate::start::write_start;
use crate::types::write_type_groups;
use wasmprinter_decoder::find_branch_hints::hints_of;
use wasmprinter_decoder::{ExternKind, Fields, Module, SectionKind};
use wasmprinter_print::FoldingOutput;

/// Writes the functions that the module defines, with their branch hints. Their indices follow those of the
/// imported functions.
fn write_functions<O: FoldingOutput>(out: &mut O, module: &Module<'_>, scope: &mut Scope<'_, '_>)
    ensures pieces { O.wrote out.old out.new
        (functions_pieces O.chosen (scope_view O.chosen scope.old) (hints_of module.now.customs) (imported_count FuncKind module.now.imports)
        module.now.functions) }
    ensures scope { scope_view O.chosen scope.new ≡ scope_view O.chosen scope.old }
{
    let first = module.imported_count(ExternKind::Func);
    let mut hints = hints_of(module.customs());
    for index in 0..module.function_count() {
        let function = module.function(index);
        let number = first + u64::from(index);
        write_function(out, scope, number, hints.next_function(number), &function);
        if out.has_failed() {
            return;
        }
    }
}

/// Writes the data segments. Labels and locals in their expressions are those of the function with the next free
/// index.
fn write_data_segments<O: FoldingOutput>(
    out: &mut O,
    module: &Module<'_>,
    scope: &mut Scope<'_, '_>,
)
    ensures pieces { O.wrote out.old out.new
        (numbered_pieces (data_pieces O.chosen.skeleton
        (function_scope_view O.chosen scope.old (imported_count FuncKind module.now.imports + length module.now.functions))) 0 module.now.data_segments) }
    ensures scope { scope_view O.chosen scope.new ≡ scope_view O.chosen scope.old }
{
    let function = scope.function;
    scope.function = module.imported_count(ExternKind::Func) + u64::from(module.function_count());
    write_each(out, scope, 0, module.data_segments());
    scope.function = function;
}

/// Writes the items of a kind that the module defines. Their indices follow those of the imported items.
fn write_defined<O: FoldingOutput, F: Field>(
    out: &mut O,
    module: &Module<'_>,
    scope: &mut Scope<'_, '_>,
    kind: ExternKind,
    fields: &[F],
)
    requires { length fields.now < 2 ^ 32 }
    ensures pieces { O.wrote out.old out.new
        (numbered_pieces (field_line F.keyword F.line_place (F.parts O.chosen (scope_view O.chosen scope.old)))
        (imported_count (kind_view kind) module.now.imports) fields.now) }
    ensures scope { scope_view O.chosen scope.new ≡ scope_view O.chosen scope.old }
{
    write_each(out, scope, module.imported_count(kind), fields);
}

/// Writes the fields of the section of a kind.
pub(crate) fn write_fields_of<O: FoldingOutput>(
    out: &mut O,
    module: &Module<'_>,
    scope: &mut Scope<'_, '_>,
    kind: SectionKind,
)
    ensures pieces { O.wrote out.old out.new
        (section_pieces O.chosen (scope_view O.chosen scope.old) module.now (section_kind_view kind)) }
    ensures scope { scope_view O.chosen scope.new ≡ scope_view O.chosen scope.old }
{
    use ExternKind as Extern;
    use SectionKind as Kind;

    match kind {
        Kind::Type => write_type_groups(out, scope, module.types()),
        Kind::Import => write_imports(out, scope, module.imports()),
        Kind::Function => {}
        Kind::Table => write_defined(out, module, scope, Extern::Table, module.tables()),
        Kind::Memory => write_defined(out, module, scope, Extern::Memory, module.memories()),
        Kind::Tag => write_defined(out, module, scope, Extern::Tag, module.tags()),
        Kind::Global => write_defined(out, module, scope, Extern::Global, module.globals()),
        Kind::Export => write_each(out, scope, 0, module.exports()),
        Kind::Start => write_start(out, scope, module.start()),
        Kind::Element => write_each(out, scope, 0, module.elements()),
        Kind::Code => write_functions(out, module, scope),
        Kind::Data => write_data_segments(out, module, scope),
    }
}
