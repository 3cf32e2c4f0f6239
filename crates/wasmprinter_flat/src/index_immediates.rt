//! Index immediates (section 6.5 of the WebAssembly Core Specification), each with a space before it.
ghost use Rattle.std.specs.Prelude.{[], ◌∷◌, ◌++◌, codes, cond, ◌&&◌, ◌==◌};
ghost use Rattle.wasmprinter_spec.specs.Piece.{OneSpace};
ghost use Rattle.wasmprinter_spec.specs.Row as row;
ghost use Rattle.wasmprinter_spec.specs.Layout.Groups.{line_group_space};
ghost use Rattle.wasmprinter_spec.specs.Layout.Identifiers.{index_pieces};
ghost use Rattle.wasmprinter_spec.specs.Layout.Operators.{named_index, default_index_pieces, two_index_pieces};
ghost use Rattle.wasmprinter_spec.specs.Layout.Operators.{type_and_field_pieces, lane_pieces};
ghost use Rattle.wasmprinter_spec.specs.Layout.ValTypes.{type_index_pieces};
ghost use Rattle.wasmprinter_ops.specs.Shapes.{space_view};
ghost use Rattle.wasmprinter_flat.specs.Contexts.{names_in, setting_in};

use crate::immediate_context::Context;
use wasmprinter_ops::opcode_shapes_arities_and_roles::Space;
use wasmprinter_print::Output;
use wasmprinter_text::declarations_and_indices::write_index;
use wasmprinter_text::integers::write_number_word;
use wasmprinter_text::parens_and_words::write_space;
use wasmprinter_text::type_use::{Signatures, write_type_index};

/// Writes a space and an index, by its identifier if it has one.
pub(crate) fn write_operand<O: Output, S: Signatures>(
    out: &mut O,
    context: &Context<'_, '_, '_, '_, S>,
    space: Space,
    index: u32,
)
    ensures { O.wrote out.old out.new
        (OneSpace ∷ named_index (setting_in S.signature_at context.now) (space_view space) index) }
{
    write_space(out);
    write_index(out, context.identifier(space, index), u64::from(index));
}

/// Writes a space and an index. Writes nothing for index 0.
#[tactic(auto, unfolding(wasmprinter_spec::specs::Layout::Operators::default_index_pieces))]
pub(crate) fn write_default_index<O: Output, S: Signatures>(
    out: &mut O,
    context: &Context<'_, '_, '_, '_, S>,
    space: Space,
    index: u32,
)
    ensures { O.wrote out.old out.new
        (default_index_pieces (setting_in S.signature_at context.now) (space_view space) index) }
{
    if index != 0 {
        write_operand(out, context, space, index);
    }
}

/// Writes two indices, one into each of two index spaces, with a space before each.
pub(crate) fn write_index_pair<O: Output, S: Signatures>(
    out: &mut O,
    context: &Context<'_, '_, '_, '_, S>,
    spaces: (Space, Space),
    first: u32,
    second: u32,
)
    ensures { O.wrote out.old out.new
        (two_index_pieces (setting_in S.signature_at context.now) (space_view spaces.0) (space_view spaces.1) first second) }
{
    write_operand(out, context, spaces.0, first);
    write_operand(out, context, spaces.1, second);
}

/// Writes a space and a field of a structure type, by its identifier if it has one.
fn write_field_index<O: Output, S: Signatures>(
    out: &mut O,
    context: &Context<'_, '_, '_, '_, S>,
    type_index: u32,
    field: u32,
)
    ensures { O.wrote out.old out.new
        (OneSpace ∷ index_pieces ((names_in context.now).fields type_index field) field) }
{
    write_space(out);
    write_index(out, context.field(type_index, field), u64::from(field));
}

/// Writes the index of a structure type and the index of one of its fields, with a space before each.
pub(crate) fn write_field<O: Output, S: Signatures>(
    out: &mut O,
    context: &Context<'_, '_, '_, '_, S>,
    type_index: u32,
    field: u32,
)
    ensures { O.wrote out.old out.new
        (type_and_field_pieces (setting_in S.signature_at context.now) type_index field) }
{
    write_operand(out, context, Space::Types, type_index);
    write_field_index(out, context, type_index, field);
}

/// Writes a space and a number that is not an index: in decimal, without a style.
#[tactic(auto, unfolding(wasmprinter_spec::specs::Layout::Operators::lane_pieces))]
pub(crate) fn write_count<O: Output>(out: &mut O, count: u32)
    ensures { O.wrote out.old out.new (lane_pieces count) }
{
    write_space(out);
    write_number_word(out, u64::from(count));
}

/// Writes the index of an array type and the number of elements of the array, with a space before each.
pub(crate) fn write_index_and_count<O: Output, S: Signatures>(
    out: &mut O,
    context: &Context<'_, '_, '_, '_, S>,
    index: u32,
    count: u32,
)
    ensures { O.wrote out.old out.new
        (OneSpace ∷ (named_index (setting_in S.signature_at context.now) row.Types index ++ lane_pieces count)) }
{
    write_operand(out, context, Space::Types, index);
    write_count(out, count);
}

/// Writes the immediates of an indirect call: its table, unless that is 0, and its type, with a space before each.
pub(crate) fn write_call<O: Output, S: Signatures>(
    out: &mut O,
    context: &Context<'_, '_, '_, '_, S>,
    type_index: u32,
    table: u32,
)
    ensures { O.wrote out.old out.new
        (default_index_pieces (setting_in S.signature_at context.now) row.Table table
        ++ (OneSpace ∷ line_group_space (codes "type") (type_index_pieces (names_in context.now) type_index))) }
{
    write_default_index(out, context, Space::Table, table);
    write_type_index(out, &context.identifiers(), type_index);
}

/// Writes the immediates of `memory.init` and `table.init`, with a space before each: the memory or table, left out if
/// its index is 0, and then the segment.
pub(crate) fn write_segment<O: Output, S: Signatures>(
    out: &mut O,
    context: &Context<'_, '_, '_, '_, S>,
    spaces: (Space, Space),
    segment: u32,
    target: u32,
)
    ensures { O.wrote out.old out.new
        (default_index_pieces (setting_in S.signature_at context.now) (space_view spaces.1) target
        ++ (OneSpace ∷ named_index (setting_in S.signature_at context.now) (space_view spaces.0) segment)) }
{
    write_default_index(out, context, spaces.1, target);
    write_operand(out, context, spaces.0, segment);
}

/// Writes the tables or memories that are copied to and from, with a space before each, unless both are 0.
pub(crate) fn write_copy<O: Output, S: Signatures>(
    out: &mut O,
    context: &Context<'_, '_, '_, '_, S>,
    space: Space,
    target: u32,
    source: u32,
)
    ensures { O.wrote out.old out.new
        (cond ((target == 0) && (source == 0)) []
        (two_index_pieces (setting_in S.signature_at context.now) (space_view space) (space_view space) target source)) }
{
    if target != 0 || source != 0 {
        write_index_pair(out, context, (space, space), target, source);
    }
}
