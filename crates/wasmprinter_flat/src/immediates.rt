//! Immediates of operators, by their shape (section 6.5 of the WebAssembly Core Specification).
ghost use Rattle.std.specs.Prelude.{◌+◌, ◌<◌, ◌^◌, length};
ghost use Rattle.wasmprinter_ops.specs.Immediates.{immediates_view, HasShape};
ghost use Rattle.wasmprinter_ops.specs.Shapes.{shape_view};
ghost use Rattle.wasmprinter_flat.specs.Contexts.{pieces_in};

use crate::block_immediates::{write_block, write_try_table};
use crate::float_immediates::{write_f32, write_f64};
use crate::immediate_context::Context;
use crate::index_immediates::{
    write_call, write_copy, write_default_index, write_field, write_index_and_count,
    write_index_pair, write_operand, write_segment,
};
use crate::label_immediates::{write_label, write_labels};
use crate::memory_immediates::write_mem_arg;
use crate::val_and_ref_type_immediates::{write_cast, write_heap, write_ref, write_select};
use crate::vector_immediates::{write_lane, write_lanes, write_vector};
use wasmprinter_ops::RefType;
use wasmprinter_ops::opcode_shapes_arities_and_roles::{Shape, Space};
use wasmprinter_ops::operator::Immediates;
use wasmprinter_print::Output;
use wasmprinter_text::integers::write_signed;
use wasmprinter_text::type_use::Signatures;

/// Writes immediates by their shape, with a space before each.
#[tactic(auto, unfolding(wasmprinter_spec::specs::Layout::Operators::immediate_pieces, wasmprinter_spec::specs::Layout::Operators::operand_pieces))]
pub(crate) fn write_immediates_by_shape<O: Output, S: Signatures>(
    out: &mut O,
    context: &Context<'_, '_, '_, '_, S>,
    shape: Shape,
    immediates: &Immediates<'_>,
)
    requires depth { length context.now.labels.now.labels + 1 < 2 ^ 64 }
    requires shape { HasShape (shape_view shape) (immediates_view immediates.now) }
    ensures { O.wrote out.old out.new
        (pieces_in S.signature_at context.now (shape_view shape) (immediates_view immediates.now)) }
{
    match (immediates, shape) {
        (Immediates::None, Shape::None | Shape::Fence) => {}
        (Immediates::Block(block_type), Shape::Block) => write_block(out, context, *block_type),
        (Immediates::TryTable(block_type, clauses), Shape::TryTable) => {
            write_try_table(out, context, *block_type, clauses)
        }
        (Immediates::Index(label), Shape::Index(Space::Label)) => write_label(out, context, *label),
        (Immediates::Index(index), Shape::Index(space)) => {
            write_operand(out, context, space, *index)
        }
        (Immediates::Index(index), Shape::DefaultIndex(space)) => {
            write_default_index(out, context, space, *index)
        }
        (Immediates::Indices(first, second), Shape::Pair(left, right)) => {
            write_index_pair(out, context, (left, right), *first, *second)
        }
        (Immediates::Indices(structure, field), Shape::Field) => {
            write_field(out, context, *structure, *field)
        }
        (Immediates::Indices(index, count), Shape::Count) => {
            write_index_and_count(out, context, *index, *count)
        }
        (Immediates::Indices(function_type, table), Shape::Call) => {
            write_call(out, context, *function_type, *table)
        }
        (Immediates::Indices(segment, target), Shape::Segment(segments, space)) => {
            write_segment(out, context, (segments, space), *segment, *target)
        }
        (Immediates::Indices(target, source), Shape::Copy(space)) => {
            write_copy(out, context, space, *target, *source)
        }
        (Immediates::BrTable(targets, default), Shape::BranchTable) => {
            write_labels(out, context, targets, *default)
        }
        (Immediates::Types(types), Shape::Select) => {
            write_select(out, &context.identifiers(), types)
        }
        (Immediates::Heap(heap), Shape::Heap) => write_heap(out, &context.identifiers(), *heap),
        (Immediates::Heap(heap), Shape::Ref(nullable)) => {
            let heap = *heap;
            write_ref(out, &context.identifiers(), RefType { nullable, heap })
        }
        (Immediates::Cast(flags, label, source, target), Shape::Cast) => {
            write_cast(out, context, *flags, *label, *source, *target)
        }
        (Immediates::Memory(operand), Shape::Memory(natural)) => {
            write_mem_arg(out, context, natural, *operand)
        }
        (Immediates::MemoryLane(operand, lane), Shape::MemoryLane(natural)) => {
            write_mem_arg(out, context, natural, *operand);
            write_lane(out, *lane);
        }
        (Immediates::Lane(lane), Shape::Lane) => write_lane(out, *lane),
        (Immediates::I32(n), Shape::I32) => write_signed(out, i64::from(*n)),
        (Immediates::I64(n), Shape::I64) => write_signed(out, *n),
        (Immediates::F32(bits), Shape::F32) => write_f32(out, *bits),
        (Immediates::F64(bits), Shape::F64) => write_f64(out, *bits),
        (Immediates::Bytes(bytes), Shape::Vector) => write_vector(out, bytes),
        (Immediates::Bytes(bytes), Shape::Lanes) => write_lanes(out, bytes),
        _ => unreachable!(),
    }
}
