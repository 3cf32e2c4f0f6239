//! Constant expressions in fields (section 6.6 of the WebAssembly Core Specification, "Expressions"). Each is in one
//! line, unless operators are folded and the text of one contains `;;`, as a name may.
ghost use Rattle.std.specs.Prelude.{◌≡◌};
ghost use Rattle.wasmprinter_spec.specs.Layout.Operators.{expression_pieces};
ghost use Rattle.wasmprinter_spec.specs.Layout.Expressions.{in_line, word_unless_one};
ghost use Rattle.wasmprinter_spec.specs.Layout.Expressions.{constant_pieces, grouped_pieces, group_parts, constant_group};
ghost use Rattle.wasmprinter_module_text.specs.Scopes.{scope_view, is_one};

use crate::operators::write_flat_or_folded;
use crate::printing_scope::Scope;
use wasmprinter_custom::FunctionHints;
use wasmprinter_flat::operators::{Form, Setting, write_operators};
use wasmprinter_ops::expression::Expression;
use wasmprinter_print::{FoldingOutput, Output};
use wasmprinter_text::lines::close_group;
use wasmprinter_text::parens_and_words::{open_without_keyword, write_space, write_word};

/// The nesting depth of an expression in a field, and of a group that contains an expression.
const EXPRESSION_NESTING: u64 = 2;

/// The nesting depth of an expression in a group of its own.
const GROUPED_NESTING: u64 = 3;

/// The number of results of the enclosing function of a constant expression: there is no function, so 0.
const NO_RESULTS: Option<u32> = Some(0);

/// Writes a single operator in a group of its own. It is never folded.
#[tactic(auto, unfolding(wasmprinter_spec::specs::Layout::Operators::expression_pieces))]
fn write_single<O: Output>(out: &mut O, scope: &mut Scope<'_, '_>, expression: &Expression<'_>)
    ensures pieces { O.wrote out.old out.new
        (expression_pieces (in_line (scope_view O.chosen scope.old) 3) expression.now.items) }
    ensures scope { scope_view O.chosen scope.new ≡ scope_view O.chosen scope.old }
{
    let setting = Setting {
        form: Form::InLine,
        types: &scope.types,
        nesting: GROUPED_NESTING,
        function: scope.function,
        body: 0,
    };
    let labels = &mut scope.labels;
    write_operators(out, &setting, labels, FunctionHints::none(), expression);
}

/// Writes an expression at nesting depth `nesting`, folded or with spaces between its operators.
fn write_nested<O: FoldingOutput>(
    out: &mut O,
    scope: &mut Scope<'_, '_>,
    nesting: u64,
    expression: &Expression<'_>,
)
    ensures pieces { O.wrote out.old out.new
        (constant_pieces (scope_view O.chosen scope.old) nesting expression.now.items) }
    ensures scope { scope_view O.chosen scope.new ≡ scope_view O.chosen scope.old }
{
    let setting = Setting {
        form: Form::InLine,
        types: &scope.types,
        nesting,
        function: scope.function,
        body: 0,
    };
    write_flat_or_folded(
        out,
        &setting,
        &mut scope.labels,
        &mut scope.folder,
        NO_RESULTS,
        FunctionHints::none(),
        expression,
    );
}

/// Writes a constant expression in a field, flat or folded, as [`write_flat_or_folded`] does. A line begins in it only
/// if the text of a node without children contains `;;`. Only then its nesting depth, 2, matters. `scope` is working
/// memory and means the same afterwards.
pub fn write_constant<O: FoldingOutput>(
    out: &mut O,
    scope: &mut Scope<'_, '_>,
    expression: &Expression<'_>,
)
    ensures pieces { O.wrote out.old out.new
        (constant_pieces (scope_view O.chosen scope.old) 2 expression.now.items) }
    ensures scope { scope_view O.chosen scope.new ≡ scope_view O.chosen scope.old }
{
    write_nested(out, scope, EXPRESSION_NESTING, expression);
}

/// Reports whether the expression has exactly one operator.
fn is_one(expression: &Expression<'_>) -> bool
    ensures { result ≡ is_one expression.now.items }
{
    let mut operators = expression.operators();
    operators.next().is_some() && operators.next().is_none()
}

/// Writes a keyword and a space. Writes nothing if the expression has exactly one operator.
fn write_word_unless_one<O: Output>(out: &mut O, keyword: &str, expression: &Expression<'_>)
    ensures { O.wrote out.old out.new (word_unless_one keyword.now expression.now.items) }
{
    if is_one(expression) {
        return;
    }
    write_word(out, keyword);
    write_space(out);
}

/// Writes an expression in a group of its own, where a single operator is never folded.
fn write_grouped_expr<O: FoldingOutput>(
    out: &mut O,
    scope: &mut Scope<'_, '_>,
    expression: &Expression<'_>,
)
    ensures pieces { O.wrote out.old out.new
        (grouped_pieces (scope_view O.chosen scope.old) 3 expression.now.items) }
    ensures scope { scope_view O.chosen scope.new ≡ scope_view O.chosen scope.old }
{
    if is_one(expression) {
        write_single(out, scope, expression);
    } else {
        write_nested(out, scope, GROUPED_NESTING, expression);
    }
}

/// Writes the content of the group of an expression: a single operator alone, any other expression after the
/// keyword.
fn write_group_parts<O: FoldingOutput>(
    out: &mut O,
    scope: &mut Scope<'_, '_>,
    keyword: &str,
    expression: &Expression<'_>,
)
    ensures pieces { O.wrote out.old out.new
        (group_parts (scope_view O.chosen scope.old) 3 keyword.now expression.now.items) }
    ensures scope { scope_view O.chosen scope.new ≡ scope_view O.chosen scope.old }
{
    write_word_unless_one(out, keyword, expression);
    write_grouped_expr(out, scope, expression);
}

/// Writes a constant expression as a group, at nesting depth 2. A single operator is alone in the group, without the
/// keyword, and flat even if operators are folded. Any other expression, also an empty one, comes after the keyword and a
/// space, as [`write_constant`] writes it, but at nesting depth 3. If a line begins in the group, the group closes on a
/// line of its own. `scope` is working memory and means the same afterwards.
#[tactic(auto, unfolding(wasmprinter_spec::specs::Layout::Expressions::constant_group))]
pub fn write_constant_group<O: FoldingOutput>(
    out: &mut O,
    scope: &mut Scope<'_, '_>,
    keyword: &str,
    expression: &Expression<'_>,
)
    ensures pieces { O.wrote out.old out.new
        (constant_group (scope_view O.chosen scope.old) 2 keyword.now expression.now.items) }
    ensures scope { scope_view O.chosen scope.new ≡ scope_view O.chosen scope.old }
{
    open_without_keyword(out);
    let outer_begun = out.enter_group();
    write_group_parts(out, scope, keyword, expression);
    close_group(out, EXPRESSION_NESTING, outer_begun);
}
