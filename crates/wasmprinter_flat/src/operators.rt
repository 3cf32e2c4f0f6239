//! Operators (section 6.5 of the WebAssembly Core Specification), each on a line of its own or all in one line.
ghost use Rattle.std.specs.Prelude.{◌≡◌, ◌+◌, ◌-◌, ◌<◌, ◌^◌, [], length, true, Some};
ghost use Rattle.wasmprinter_spec.specs.Customs.Hints.{next_hint, hints_after};
ghost use Rattle.wasmprinter_spec.specs.Layout.Operators.{level as level_of, before_word};
ghost use Rattle.wasmprinter_spec.specs.Layout.Operators.{hint_pieces, list_pieces};
ghost use Rattle.wasmprinter_ops.specs.Shapes.{role_view};
ghost use Rattle.wasmprinter_flat.specs.Settings.{form_view, setting_with_names, word_pieces_with_names};

use crate::immediate_context::Context;
use crate::immediates::write_immediates_by_shape;
use crate::open_labels::OpenLabels;
use wasmprinter_custom::{FunctionHints, Hint};
use wasmprinter_ops::expression::Expression;
use wasmprinter_ops::opcode_shapes_arities_and_roles::{Listed, Role, word_and_shape};
use wasmprinter_ops::operator::Operator;
use wasmprinter_print::Output;
use wasmprinter_text::hints::write_hint_annotation;
use wasmprinter_text::lines::write_break_inside;
use wasmprinter_text::parens_and_words::{write_space, write_word};
use wasmprinter_text::type_use::Signatures;

/// The arrangement of operators.
#[derive(Clone, Copy, Debug, PartialEq, Eq)]
pub enum Form {
    /// Each on a line of its own.
    OverLines,
    /// All in one line, separated by spaces.
    InLine,
}

/// The settings shared by all operators of a list.
#[derive(Drop)]
pub struct Setting<'s, S: Signatures> {
    /// The arrangement of the operators.
    pub form: Form,
    /// The types that block types may refer to.
    pub types: &'s S,
    /// The nesting depth of the list.
    pub nesting: u64,
    /// The function whose locals and labels the operators use.
    pub function: u64,
    /// The place of the body's first byte, from which the offsets of hints count.
    pub body: u64,
}

/// Returns the level of an operator at nesting depth `depth`. An operator that ends a block or a part of one is one
/// level further out.
fn level(role: Role, depth: u64) -> u64
    ensures { result ≡ level_of (role_view role) depth }
{
    match role {
        Role::Else | Role::Catches | Role::CatchesAll | Role::Delegates | Role::Ends => {
            depth.saturating_sub(1)
        }
        Role::Plain | Role::Opens | Role::OpensIf | Role::OpensTry => depth,
    }
}

/// Starts an operator. Over lines, starts a line, also for the first operator, as [`write_break_inside`] does: with the
/// place `place`, a byte offset from the start of the module, at nesting depth `nesting + depth`. In one line, writes a
/// space, or nothing if the operator is the first of its list (`first`).
pub fn start_operator<O: Output>(
    out: &mut O,
    form: Form,
    first: bool,
    place: u64,
    nesting: u64,
    depth: u64,
)
    ensures { O.wrote out.old out.new (before_word (form_view form) first place (nesting + depth)) }
{
    match form {
        Form::OverLines => write_break_inside(out, place, nesting, depth),
        Form::InLine => {
            if !first {
                write_space(out);
            }
        }
    }
}

/// Writes the word of an operator and its immediates, with a space before each immediate. `labels` are those that are
/// open before it, and have the identifiers of the module. They must be fewer than 2^64 - 1. An operator that opens a
/// block has first the identifier of [`OpenLabels::own`] or, if this is `None`, last a comment with the number of the
/// block, 1 for the outermost: a line comment over lines, a block comment in one line.
#[inline(never)]
pub fn write_operator_word<O: Output, S: Signatures>(
    out: &mut O,
    setting: &Setting<'_, S>,
    labels: &OpenLabels<'_, '_>,
    operator: &Operator<'_>,
)
    requires { length labels.now.labels + 1 < 2 ^ 64 }
    ensures { O.wrote out.old out.new (word_pieces_with_names S.signature_at setting.now labels.now operator.now) }
{
    let (word, shape) = word_and_shape(operator.opcode);
    write_word(out, word);
    if let Some(shape) = shape {
        let context = Context {
            setting,
            labels,
            opcode: operator.opcode,
        };
        write_immediates_by_shape(out, &context, shape, &operator.immediates);
    }
}

/// Writes a hint on a line of its own, indented like the operators of the block.
fn write_hint<O: Output, S: Signatures>(
    out: &mut O,
    setting: &Setting<'_, S>,
    blocks: u64,
    hint: &Hint,
)
    ensures { O.wrote out.old out.new (hint_pieces (setting.now.nesting + blocks) (Some hint.now)) }
{
    write_break_inside(out, hint.place(), setting.nesting, blocks);
    write_hint_annotation(out, hint.is_taken());
}

/// Writes the next hint and removes it from `hints` if it is for the operator at `place`. Otherwise writes nothing.
fn write_next_hint<O: Output, S: Signatures>(
    out: &mut O,
    setting: &Setting<'_, S>,
    blocks: u64,
    hints: &mut FunctionHints<'_>,
    place: u64,
)
    ensures pieces { O.wrote out.old out.new
        (hint_pieces (setting.now.nesting + blocks) (next_hint (place - setting.now.body) hints.old)) }
    ensures after { hints.new ≡ hints_after (place - setting.now.body) hints.old }
{
    if let Some(hint) = hints.next_at(place.saturating_sub(setting.body)) {
        write_hint(out, setting, blocks, &hint);
    }
}

/// Writes the operators of an expression, each after its hint if it has one. [`start_operator`] starts each, at nesting
/// depth `setting.nesting` plus the number of open blocks, or one less if it ends a block or a part of one. A hint is
/// on a line of its own in both forms. A hint whose offset is that of no operator after those of the earlier hints is
/// not written, and neither are the hints after it (`pieces`).
///
/// `labels` is first reset to the start of `setting.function`, so its earlier use does not matter. Its identifiers,
/// which were passed to `OpenLabels::new`, stay (`item_names`, `synthesizes`). Which blocks are open in it afterwards
/// is not part of the contract.
pub fn write_operators<O: Output, S: Signatures>(
    out: &mut O,
    setting: &Setting<'_, S>,
    labels: &mut OpenLabels<'_, '_>,
    hints: FunctionHints<'_>,
    expression: &Expression<'_>,
)
    ensures pieces { O.wrote out.old out.new
        (list_pieces (setting_with_names S.signature_at setting.now labels.old) hints.entry expression.now.items) }
    ensures item_names { labels.new.item_names ≡ labels.old.item_names }
    ensures synthesizes { labels.new.synthesizes ≡ labels.old.synthesizes }
{
    labels.begin(setting.function);
    let mut hints = hints;
    let mut first = true;
    // The operator is not moved out of the item, since copying its bytes would take a tenth of the loop.
    for item in expression.operators() {
        let place = item.0;
        let operator = &item.1;
        let depth = labels.depth();
        write_next_hint(out, setting, depth, &mut hints, place);
        let role = operator.opcode.role();
        let level = level(role, depth);
        start_operator(out, setting.form, first, place, setting.nesting, level);
        write_operator_word(out, setting, labels, operator);
        if out.has_failed() {
            return;
        }
        labels.advance(role);
        first = false;
    }
}
