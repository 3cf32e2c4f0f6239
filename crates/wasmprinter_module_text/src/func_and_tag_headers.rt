//! The headers of functions and tags: the declaration and the type use (section 6.6 of the WebAssembly Core
//! Specification, "Type Uses").
ghost use Rattle.std.specs.Prelude.{Some, None};
ghost use Rattle.wasmprinter_spec.specs.Row as row;
ghost use Rattle.wasmprinter_spec.specs.Layout.Functions.{header_pieces};
ghost use Rattle.wasmprinter_module_text.specs.Scopes.{scope_view};

use crate::printing_scope::{Scope, write_declaration_in, write_type_use_in};
use wasmprinter_custom::Space;
use wasmprinter_print::Output;

/// Writes the header of a function, which follows `(func ` in the text. `number` is the index of the function; imported
/// functions are counted. The header consists of the declaration ([`write_declaration_in`]), a space, and the type: its
/// index and, if that is of a function type, parameters and results. The parameters have the identifiers of the locals
/// of the same function (`Some number`).
#[tactic(auto, unfolding(wasmprinter_spec::specs::Layout::Functions::header_pieces))]
pub fn write_function_header<O: Output>(
    out: &mut O,
    scope: &Scope<'_, '_>,
    number: u64,
    type_index: u32,
)
    ensures { O.wrote out.old out.new
        (header_pieces (scope_view O.chosen scope.now) row.Func (Some number) number type_index) }
{
    write_declaration_in(out, scope, Space::Func, number);
    write_type_use_in(out, scope, Some(number), type_index);
}

/// Writes the header of the tag with the index `number`: its declaration, a space and its type, as an index and, if
/// that is of a function type, with parameters and results. The parameters have no identifiers (`None`).
#[tactic(auto, unfolding(wasmprinter_spec::specs::Layout::Functions::header_pieces))]
pub fn write_tag_header<O: Output>(out: &mut O, scope: &Scope<'_, '_>, number: u64, type_index: u32)
    ensures { O.wrote out.old out.new
        (header_pieces (scope_view O.chosen scope.now) row.Tag None number type_index) }
{
    write_declaration_in(out, scope, Space::Tag, number);
    write_type_use_in(out, scope, None, type_index);
}
