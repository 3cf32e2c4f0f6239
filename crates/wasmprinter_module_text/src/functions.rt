//! Functions (section 6.6 of the WebAssembly Core Specification, "Functions").
ghost use Rattle.std.specs.Prelude.{◌≡◌, codes};
ghost use Rattle.wasmprinter_spec.specs.Folding.Arities.{types_of};
ghost use Rattle.wasmprinter_spec.specs.Layout.Functions.{function_pieces};
ghost use Rattle.wasmprinter_spec.specs.Layout.Groups.{line_group_space, group_space_at};
ghost use Rattle.wasmprinter_module_text.specs.Scopes.{scope_view, function_scope_view};
ghost use Rattle.wasmprinter_module_text.specs.Functions.{parameter_count_of, result_count_of, outline_parts, definition_parts};

use crate::func_and_tag_headers::write_function_header;
use crate::locals::write_locals;
use crate::operators::write_flat_or_folded;
use crate::printing_scope::{FIELD_NESTING, Scope};
use wasmprinter_custom::FunctionHints;
use wasmprinter_decoder::{BodyParts, Function};
use wasmprinter_flat::operators::{Form, Setting};
use wasmprinter_print::{FoldingOutput, Output};
use wasmprinter_text::lines::{close_group_at, write_break};
use wasmprinter_text::parens_and_words::{
    open_group_space, write_close_paren, write_space, write_word,
};
use wasmprinter_text::type_use::Signatures;

/// The nesting depth of the operators of a body.
const BODY_NESTING: u64 = 2;

/// Writes a function without its body, as a group: its header and `...`.
#[tactic(auto, unfolding(wasmprinter_spec::specs::Layout::Functions::header_pieces, wasmprinter_spec::specs::Layout::Groups::line_group_space))]
fn write_outline<O: Output>(
    out: &mut O,
    scope: &Scope<'_, '_>,
    number: u64,
    function: &Function<'_>,
)
    ensures { O.wrote out.old out.new
        (line_group_space (codes "func") (outline_parts (function_scope_view O.chosen scope.now number) function.now)) }
{
    open_group_space(out, "func");
    write_function_header(out, scope, number, function.type_index());
    write_space(out);
    write_word(out, "...");
    write_close_paren(out);
}

/// Returns the number of parameters of a function with the type, or 0 if it is not a function type.
fn parameter_count(scope: &Scope<'_, '_>, type_index: u32) -> u32
    ensures { result ≡ parameter_count_of (types_of scope.now.types.module.now) type_index }
{
    match scope.types.signature(type_index) {
        Some(signature) => signature.params().len(),
        None => 0,
    }
}

/// Returns the number of results of a function with the type, if it is a function type.
fn result_count(scope: &Scope<'_, '_>, type_index: u32) -> Option<u32>
    ensures { result ≡ result_count_of (types_of scope.now.types.module.now) type_index }
{
    match scope.types.signature(type_index) {
        Some(signature) => Some(signature.results().len()),
        None => None,
    }
}

/// Writes the content of a function's group: its header, its locals and its operators. Each operator follows its hint,
/// if it has one. Flat operators are on a line each.
#[tactic(auto, unfolding(wasmprinter_spec::specs::Layout::Functions::header_pieces, wasmprinter_spec::specs::Layout::Functions::inner_pieces, wasmprinter_spec::specs::Layout::Functions::body_pieces))]
fn write_definition<O: FoldingOutput>(
    out: &mut O,
    scope: &mut Scope<'_, '_>,
    number: u64,
    hints: FunctionHints<'_>,
    function: &Function<'_>,
)
    ensures pieces { O.wrote out.old out.new
        (definition_parts (function_scope_view O.chosen scope.old number) hints.entry function.now) }
    ensures scope { scope_view O.chosen scope.new ≡ scope_view O.chosen scope.old }
{
    let type_index = function.type_index();
    let body = function.body();
    write_function_header(out, scope, number, type_index);
    let parameters = parameter_count(scope, type_index);
    write_locals(out, scope, number, parameters, &body.locals());
    let results = result_count(scope, type_index);
    let setting = Setting {
        form: Form::OverLines,
        types: &scope.types,
        nesting: BODY_NESTING,
        function: number,
        body: body.place(),
    };
    write_flat_or_folded(
        out,
        &setting,
        &mut scope.labels,
        &mut scope.folder,
        results,
        hints,
        body.expression(),
    );
}

/// Writes the function with the index `number` (imports counted) as a group on a line of its own: its header, its
/// locals and, as [`write_flat_or_folded`] does, its operators with these hints. The group closes on a line of its own
/// if a line begins in it or if the options show the place of each line. A skeleton has `...` in place of locals and
/// operators, and closes on the same line. `scope` is working memory and means the same afterwards.
#[tactic(auto, unfolding(wasmprinter_spec::specs::Layout::Functions::function_pieces, wasmprinter_spec::specs::Layout::Functions::function_group, wasmprinter_spec::specs::Layout::Groups::group_space_at))]
pub fn write_function<O: FoldingOutput>(
    out: &mut O,
    scope: &mut Scope<'_, '_>,
    number: u64,
    hints: FunctionHints<'_>,
    function: &Function<'_>,
)
    ensures pieces { O.wrote out.old out.new
        (function_pieces O.chosen (scope_view O.chosen scope.old) number hints.entry function.now) }
    ensures scope { scope_view O.chosen scope.new ≡ scope_view O.chosen scope.old }
{
    let body = function.body();
    write_break(out, Some(body.place()), FIELD_NESTING);
    if out.skeleton() {
        write_outline(out, scope, number, function);
        return;
    }
    open_group_space(out, "func");
    let outer_begun = out.enter_group();
    write_definition(out, scope, number, hints, function);
    close_group_at(out, body.end(), FIELD_NESTING, outer_begun);
}
