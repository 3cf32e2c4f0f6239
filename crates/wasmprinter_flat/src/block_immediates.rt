//! The immediates of operators that open a block (section 6.5 of the WebAssembly Core Specification, "Control
//! Instructions"): the label, the block type, catch clauses, and the comment of the label.
ghost use Rattle.std.specs.Prelude.{suc, ◌+◌, ◌<◌, ◌^◌, ◌∷◌, ◌++◌, length, None, option_map};
ghost use Rattle.wasmprinter_spec.specs.Piece.{OneSpace};
ghost use Rattle.wasmprinter_spec.specs.Row as row;
ghost use Rattle.wasmprinter_spec.specs.Layout.Groups.{line_group};
ghost use Rattle.wasmprinter_spec.specs.Layout.Identifiers.{leading_id_and_name_pieces};
ghost use Rattle.wasmprinter_spec.specs.Layout.Operators.{named_index, label_pieces, ending_pieces, block_pieces};
ghost use Rattle.wasmprinter_custom.specs.Shown.{identifier_view};
ghost use Rattle.wasmprinter_ops.specs.Blocks.{block_type_view, catch_view, catches_view};
ghost use Rattle.wasmprinter_flat.specs.Contexts.{setting_in, labels_around, labels_within, own_in, catch_pieces_in, catches_pieces_in};
ghost use Rattle.wasmprinter_flat.specs.Settings.{form_view};

use crate::immediate_context::Context;
use crate::index_immediates::write_operand;
use crate::label_immediates::write_label;
use crate::operators::Form;
use crate::val_and_ref_type_immediates::write_result;
use wasmprinter_custom::Identifier;
use wasmprinter_ops::block_immediates::{BlockType, Catch, Catches};
use wasmprinter_ops::opcode_shapes_arities_and_roles::Space;
use wasmprinter_print::Output;
use wasmprinter_text::comments::{write_label_block_comment, write_label_line_comment};
use wasmprinter_text::declarations_and_indices::write_leading_id_and_name;
use wasmprinter_text::parens_and_words::{open_group, write_close_paren, write_space};
use wasmprinter_text::type_use::{Signatures, write_type_use};

/// Writes a space and the comment for the label of a block, by the block's number. Blocks are counted from 1.
#[tactic(auto, unfolding(wasmprinter_spec::specs::Layout::Operators::ending_pieces))]
fn write_label_comment<O: Output>(out: &mut O, form: Form, block: u64)
    ensures { O.wrote out.old out.new (ending_pieces (form_view form) None block) }
{
    match form {
        Form::OverLines => {
            write_space(out);
            write_label_line_comment(out, block);
        }
        Form::InLine => {
            write_space(out);
            write_label_block_comment(out, block);
        }
    }
}

/// Writes a space and the comment for the label of a block. Writes nothing if the label has an identifier.
#[tactic(auto, unfolding(wasmprinter_spec::specs::Layout::Operators::ending_pieces))]
pub(crate) fn write_ending<O: Output>(
    out: &mut O,
    form: Form,
    own: Option<Identifier<'_>>,
    block: u64,
)
    ensures { O.wrote out.old out.new
        (ending_pieces (form_view form) (option_map identifier_view own.entry) block) }
{
    match own {
        Some(_) => {}
        None => write_label_comment(out, form, block),
    }
}

/// Writes the type of a block with a space before it: nothing, one result, or a type use.
#[tactic(auto, unfolding(wasmprinter_spec::specs::Layout::Operators::block_pieces))]
pub(crate) fn write_block_type<O: Output, S: Signatures>(
    out: &mut O,
    context: &Context<'_, '_, '_, '_, S>,
    block_type: BlockType,
)
    ensures { O.wrote out.old out.new
        (block_pieces (setting_in S.signature_at context.now) (block_type_view block_type)) }
{
    let identifiers = context.identifiers();
    match block_type {
        BlockType::Empty => {}
        BlockType::Value(value_type) => write_result(out, &identifiers, value_type),
        BlockType::Func(index) => {
            write_type_use(out, &identifiers, None, context.setting.types, index);
        }
    }
}

/// Writes a tag and a label, with a space before each.
fn write_tag_and_label<O: Output, S: Signatures>(
    out: &mut O,
    context: &Context<'_, '_, '_, '_, S>,
    tag: u32,
    label: u32,
)
    ensures { O.wrote out.old out.new
        (OneSpace ∷ (named_index (setting_in S.signature_at context.now) row.Tag tag
        ++ label_pieces (labels_within context.now) (labels_around context.now) label)) }
{
    write_operand(out, context, Space::Tag, tag);
    write_label(out, context, label);
}

/// Writes a catch clause that names a tag.
#[tactic(auto, unfolding(wasmprinter_spec::specs::Layout::Groups::line_group))]
fn write_tagged<O: Output, S: Signatures>(
    out: &mut O,
    context: &Context<'_, '_, '_, '_, S>,
    keyword: &str,
    tag: u32,
    label: u32,
)
    ensures { O.wrote out.old out.new
        (line_group keyword.now (OneSpace ∷ (named_index (setting_in S.signature_at context.now) row.Tag tag
        ++ label_pieces (labels_within context.now) (labels_around context.now) label))) }
{
    open_group(out, keyword);
    write_tag_and_label(out, context, tag, label);
    write_close_paren(out);
}

/// Writes a catch clause for all exceptions.
#[tactic(auto, unfolding(wasmprinter_spec::specs::Layout::Groups::line_group))]
fn write_untagged<O: Output, S: Signatures>(
    out: &mut O,
    context: &Context<'_, '_, '_, '_, S>,
    keyword: &str,
    label: u32,
)
    ensures { O.wrote out.old out.new
        (line_group keyword.now (label_pieces (labels_within context.now) (labels_around context.now) label)) }
{
    open_group(out, keyword);
    write_label(out, context, label);
    write_close_paren(out);
}

/// Writes a catch clause. Its label cannot be that of the block that the `try_table` opens.
#[tactic(auto, unfolding(wasmprinter_spec::specs::Layout::Operators::catch_pieces))]
fn write_catch<O: Output, S: Signatures>(
    out: &mut O,
    context: &Context<'_, '_, '_, '_, S>,
    clause: Catch,
)
    ensures { O.wrote out.old out.new
        (catch_pieces_in S.signature_at context.now (catch_view clause)) }
{
    match clause {
        Catch::One(tag, label) => write_tagged(out, context, "catch", tag, label),
        Catch::OneRef(tag, label) => write_tagged(out, context, "catch_ref", tag, label),
        Catch::All(label) => write_untagged(out, context, "catch_all", label),
        Catch::AllRef(label) => write_untagged(out, context, "catch_all_ref", label),
    }
}

/// Writes a space and a catch clause.
fn write_clause<O: Output, S: Signatures>(
    out: &mut O,
    context: &Context<'_, '_, '_, '_, S>,
    clause: Catch,
)
    ensures { O.wrote out.old out.new
        (OneSpace ∷ catch_pieces_in S.signature_at context.now (catch_view clause)) }
{
    write_space(out);
    write_catch(out, context, clause);
}

/// Writes the catch clauses of a `try_table`, with a space before each.
pub(crate) fn write_catches<O: Output, S: Signatures>(
    out: &mut O,
    context: &Context<'_, '_, '_, '_, S>,
    clauses: &Catches<'_>,
)
    ensures { O.wrote out.old out.new
        (catches_pieces_in S.signature_at context.now (catches_view clauses.now)) }
{
    for clause in clauses.iter() {
        if out.has_failed() {
            return;
        }
        write_clause(out, context, clause);
    }
}

/// Writes the immediates of an operator that opens a block: its label, its type, and the label's comment, with a
/// space before each.
pub(crate) fn write_block<O: Output, S: Signatures>(
    out: &mut O,
    context: &Context<'_, '_, '_, '_, S>,
    block_type: BlockType,
)
    requires { length context.now.labels.now.labels + 1 < 2 ^ 64 }
    ensures { O.wrote out.old out.new
        (leading_id_and_name_pieces (own_in context.now)
        ++ (block_pieces (setting_in S.signature_at context.now) (block_type_view block_type)
        ++ ending_pieces (form_view context.now.setting.now.form) (own_in context.now) (suc (length (labels_around context.now))))) }
{
    let own = context.labels.own();
    write_leading_id_and_name(out, own);
    write_block_type(out, context, block_type);
    write_ending(out, context.setting.form, own, context.block());
}

/// Writes the immediates of a `try_table`: its label, its type, its catch clauses, and the label's comment, with a
/// space before each.
pub(crate) fn write_try_table<O: Output, S: Signatures>(
    out: &mut O,
    context: &Context<'_, '_, '_, '_, S>,
    block_type: BlockType,
    clauses: &Catches<'_>,
)
    requires { length context.now.labels.now.labels + 1 < 2 ^ 64 }
    ensures { O.wrote out.old out.new
        (leading_id_and_name_pieces (own_in context.now)
        ++ (block_pieces (setting_in S.signature_at context.now) (block_type_view block_type)
        ++ (catches_pieces_in S.signature_at context.now (catches_view clauses.now)
        ++ ending_pieces (form_view context.now.setting.now.form) (own_in context.now) (suc (length (labels_around context.now)))))) }
{
    let own = context.labels.own();
    write_leading_id_and_name(out, own);
    write_block_type(out, context, block_type);
    write_catches(out, context, clauses);
    write_ending(out, context.setting.form, own, context.block());
}
