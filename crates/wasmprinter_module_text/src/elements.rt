//! Element segments (section 6.6 of the WebAssembly Core Specification, "Element Segments").
ghost use Rattle.std.specs.Prelude.{◌≡◌, ◌∷◌, codes};
ghost use Rattle.wasmprinter_spec.specs.Row as row;
ghost use Rattle.wasmprinter_spec.specs.Piece.{OneSpace};
ghost use Rattle.wasmprinter_spec.specs.Layout.Declarations.{item_index};
ghost use Rattle.wasmprinter_spec.specs.Layout.Expressions.{constant_group};
ghost use Rattle.wasmprinter_spec.specs.Layout.Elements.{named_table, mode_pieces, function_items, expression_items};
ghost use Rattle.wasmprinter_spec.specs.Layout.Elements.{items_pieces, shown_items, element_parts};
ghost use Rattle.wasmprinter_decoder.specs.Segments.{element_mode_view, element_items_view, constants_of};
ghost use Rattle.wasmprinter_module_text.specs.Scopes.{scope_view};

use crate::expressions::write_constant_group;
use crate::field_trait::Field;
use crate::printing_scope::{
    Scope, write_declaration_in, write_index_group_in, write_index_in, write_ref_type_in,
};
use wasmprinter_bytes::lazy_items::Items;
use wasmprinter_custom::Space;
use wasmprinter_decoder::{Element, ElementItems, ElementMode};
use wasmprinter_ops::expression::Expression;
use wasmprinter_print::{FoldingOutput, Output};
use wasmprinter_text::parens_and_words::{write_space, write_word};

/// Writes a space and the table of a segment if the bytes name the table.
fn write_named_table<O: Output>(out: &mut O, scope: &Scope<'_, '_>, is_named: bool, table: u32)
    ensures { O.wrote out.old out.new (named_table (scope_view O.chosen scope.now) is_named table) }
{
    if !is_named {
        return;
    }
    write_space(out);
    write_index_group_in(out, scope, "table", Space::Table, table);
}

/// Writes the mode of a segment, after a space unless the segment is passive. `has_table_index` says whether the bytes
/// name its table.
#[tactic(auto, unfolding(wasmprinter_spec::specs::Layout::Elements::mode_pieces))]
fn write_element_mode<O: FoldingOutput>(
    out: &mut O,
    scope: &mut Scope<'_, '_>,
    has_table_index: bool,
    mode: &ElementMode<'_>,
)
    ensures pieces { O.wrote out.old out.new
        (mode_pieces (scope_view O.chosen scope.old) has_table_index (element_mode_view mode.now)) }
    ensures scope { scope_view O.chosen scope.new ≡ scope_view O.chosen scope.old }
{
    match mode {
        ElementMode::Passive => {}
        ElementMode::Declared => {
            write_space(out);
            write_word(out, "declare");
        }
        ElementMode::Active { table, offset } => {
            write_named_table(out, scope, has_table_index, *table);
            write_space(out);
            write_constant_group(out, scope, "offset", offset);
        }
    }
}

/// Writes a space and the index of a function.
fn write_function_item<O: Output>(out: &mut O, scope: &Scope<'_, '_>, function: u32)
    ensures { O.wrote out.old out.new
        (OneSpace ∷ item_index (scope_view O.chosen scope.now) row.Func function) }
{
    write_space(out);
    write_index_in(out, scope, Space::Func, function);
}

/// Writes the indices of functions, with a space before each.
fn write_function_items<O: Output>(out: &mut O, scope: &Scope<'_, '_>, functions: &Items<'_, u32>)
    ensures { O.wrote out.old out.new (function_items (scope_view O.chosen scope.now) functions.now) }
{
    for index in functions.iter() {
        if out.has_failed() {
            return;
        }
        write_function_item(out, scope, index);
    }
}

/// Writes a space and an expression as a group.
fn write_expression_item<O: FoldingOutput>(
    out: &mut O,
    scope: &mut Scope<'_, '_>,
    expression: &Expression<'_>,
)
    ensures pieces { O.wrote out.old out.new
        (OneSpace ∷ constant_group (scope_view O.chosen scope.old) 2 (codes "item") expression.now.items) }
    ensures scope { scope_view O.chosen scope.new ≡ scope_view O.chosen scope.old }
{
    write_space(out);
    write_constant_group(out, scope, "item", expression);
}

/// Writes expressions as groups, with a space before each.
fn write_expression_items<O: FoldingOutput>(
    out: &mut O,
    scope: &mut Scope<'_, '_>,
    expressions: &[Expression<'_>],
)
    ensures pieces { O.wrote out.old out.new
        (expression_items (scope_view O.chosen scope.old) (constants_of expressions.now)) }
    ensures scope { scope_view O.chosen scope.new ≡ scope_view O.chosen scope.old }
{
    for expression in expressions {
        if out.has_failed() {
            return;
        }
        write_expression_item(out, scope, expression);
    }
}

/// Writes the kind or type of a segment's items, and then the items.
#[tactic(auto, unfolding(wasmprinter_spec::specs::Layout::Elements::items_pieces))]
fn write_items<O: FoldingOutput>(out: &mut O, scope: &mut Scope<'_, '_>, items: &ElementItems<'_>)
    ensures pieces { O.wrote out.old out.new
        (items_pieces (scope_view O.chosen scope.old) (element_items_view items.now)) }
    ensures scope { scope_view O.chosen scope.new ≡ scope_view O.chosen scope.old }
{
    match items {
        ElementItems::Functions(functions) => {
            write_word(out, "func");
            write_function_items(out, scope, functions);
        }
        ElementItems::Expressions(ref_type, expressions) => {
            write_ref_type_in(out, scope, *ref_type);
            write_expression_items(out, scope, expressions);
        }
    }
}

/// Writes the items of a segment, or `...` in a skeleton.
fn write_shown_items<O: FoldingOutput>(
    out: &mut O,
    scope: &mut Scope<'_, '_>,
    items: &ElementItems<'_>,
)
    ensures pieces { O.wrote out.old out.new
        (shown_items O.chosen.skeleton (scope_view O.chosen scope.old) (element_items_view items.now)) }
    ensures scope { scope_view O.chosen scope.new ≡ scope_view O.chosen scope.old }
{
    if out.skeleton() {
        write_word(out, "...");
    } else {
        write_items(out, scope, items);
    }
}

impl<'a> Field for Element<'a> {
    ghost keyword = { codes "elem" };

    ghost line_place = { λ e. e.place };

    ghost parts = { λ o s i e. element_parts o.skeleton s i e.value };

    fn keyword(&self) -> &'static str {
        "elem"
    }

    fn line_place(&self) -> u64 {
        self.place()
    }

    fn write_parts<O: FoldingOutput>(&self, out: &mut O, scope: &mut Scope<'_, '_>, number: u64) {
        write_declaration_in(out, scope, Space::Elem, number);
        write_element_mode(out, scope, self.has_table_index(), self.mode());
        write_space(out);
        write_shown_items(out, scope, self.items());
    }
}
