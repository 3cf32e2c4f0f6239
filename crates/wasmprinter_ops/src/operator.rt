//! Operators: opcodes with their immediates.
ghost use Rattle.std.specs.Prelude.{◌≡◌, ◌≤◌, IfOk};
ghost use Rattle.wasmprinter_spec.specs.Grammar.{value_with_place};
ghost use Rattle.wasmprinter_spec.specs.Row.{FenceShape, TryTableShape, FieldShape, BranchTableShape, CastShape, MemoryLaneShape};
ghost use Rattle.wasmprinter_spec.specs.Instructions.{operator, immediates as immediates_grammar, indices, cast};
ghost use Rattle.wasmprinter_bytes.specs.Reads.{Decodes, Reads, IsWithin, IsWithinFrom, end_of};
ghost use Rattle.wasmprinter_ops.specs.Immediates.{immediates_view, HasShape, HasCastFlags};
ghost use Rattle.wasmprinter_ops.specs.Operators.{placed_view, AfterOpcode, Passes, PassesOperator};
ghost use Rattle.wasmprinter_ops.specs.Shapes.{shape_view};

use crate::block_immediates::{BlockType, Catches, Targets, read_block_type, read_catches};
use crate::cast_flags::MOST_FLAGS;
use crate::fixed_bytes::{read_bytes, read_f32_bits, read_f64_bits};
use crate::mem_arg::MemArg;
use crate::opcode_shapes_arities_and_roles::{Listed, Opcode, Role, Shape, is_prefix};
use crate::{HeapType, ValTypes, read_heap_type, read_types};
use std::alloc::AllocError;
use std::marker::Model;
use wasmprinter_bytes::Malformed;
use wasmprinter_bytes::cursor::Cursor;
use wasmprinter_bytes::lazy_items::read_items;

/// The immediates after an opcode, in the order of the bytes (section 5.4).
#[derive(Debug, PartialEq, Drop)]
pub enum Immediates<'a> {
    /// No immediates, or a reserved byte 00.
    None,
    /// A block type.
    Block(BlockType),
    /// A block type and catch clauses.
    TryTable(BlockType, Catches<'a>),
    /// An index.
    Index(u32),
    /// Two indices, or an index and a number.
    Indices(u32, u32),
    /// The labels of a `br_table` for the numbers from 0 on, and its default label.
    BrTable(Targets<'a>, u32),
    /// Value types.
    Types(ValTypes<'a>),
    /// A heap type.
    Heap(HeapType),
    /// Flags 0 to 3, a label, and the heap types of two reference types. The first may be null if bit 0 of the flags
    /// is set, the second if bit 1 is set.
    Cast(u8, u32, HeapType, HeapType),
    /// A memory operand.
    Memory(MemArg),
    /// A memory operand and a lane.
    MemoryLane(MemArg, u8),
    /// A lane.
    Lane(u8),
    /// A 32-bit integer.
    I32(i32),
    /// A 64-bit integer.
    I64(i64),
    /// The bits of a 32-bit floating-point number.
    F32(u32),
    /// The bits of a 64-bit floating-point number.
    F64(u64),
    /// A vector or sixteen lanes, the lowest byte first.
    Bytes([u8; 16]),
}

/// An opcode of the table, with immediates of the shape that the table lists for it.
#[derive(Clone, Debug, Drop)]
pub struct Operator<'a> {
    /// The opcode.
    pub opcode: Opcode,
    /// The immediates after the opcode.
    pub immediates: Immediates<'a>,
}

impl<'a> Model for Operator<'a> {
    ghost use Rattle.wasmprinter_spec.specs.Operator.{Operator as OperatorValue};
    ghost use Rattle.wasmprinter_ops.specs.Immediates.{immediates_view, IsListedAs, HasCastFlags};

    ghost Value = { OperatorValue };

    ghost view = { λ o. record { opcode = o.opcode; immediates = immediates_view o.immediates } };

    ghost invariant = { λ o. IsListedAs o.opcode (immediates_view o.immediates) × HasCastFlags o.immediates };
}

// The lists of a clone are second views of the same bytes, so cloning allocates nothing. A derived
// `Clone` would promise only equal values, and so lose that the flags of a cast are below 4, which the
// invariant of `Operator` needs.
impl Clone for Immediates<'_> {
    ghost use Rattle.std.specs.Prelude.{⊤};

    ghost is_clone = { λ s r. r ≡ s };

    ghost is_infallible = { λ _. ⊤ };

    fn clone(&self) -> Result<Self, AllocError> {
        Ok(match self {
            Immediates::None => Immediates::None,
            Immediates::Block(block_type) => Immediates::Block(*block_type),
            Immediates::TryTable(block_type, catches) => {
                Immediates::TryTable(*block_type, catches.iter())
            }
            Immediates::Index(index) => Immediates::Index(*index),
            Immediates::Indices(first, second) => Immediates::Indices(*first, *second),
            Immediates::BrTable(targets, otherwise) => {
                Immediates::BrTable(targets.iter(), *otherwise)
            }
            Immediates::Types(types) => Immediates::Types(types.iter()),
            Immediates::Heap(heap) => Immediates::Heap(*heap),
            Immediates::Cast(flags, label, source, target) => {
                Immediates::Cast(*flags, *label, *source, *target)
            }
            Immediates::Memory(operand) => Immediates::Memory(*operand),
            Immediates::MemoryLane(operand, lane) => Immediates::MemoryLane(*operand, *lane),
            Immediates::Lane(lane) => Immediates::Lane(*lane),
            Immediates::I32(number) => Immediates::I32(*number),
            Immediates::I64(number) => Immediates::I64(*number),
            Immediates::F32(bits) => Immediates::F32(*bits),
            Immediates::F64(bits) => Immediates::F64(*bits),
            Immediates::Bytes(bytes) => Immediates::Bytes(*bytes),
        })
    }
}

// Two operators are equal if their opcodes and immediates are. A derived `PartialEq`
// would need a model of `Immediates`.
impl PartialEq for Operator<'_> {
    ghost use Rattle.std.specs.Cmp.{and_per, on_per};
    ghost use Rattle.wasmprinter_ops.specs.contracts.opcode_shapes_arities_and_roles.OpcodePartialEq.TheImpl.Laws.{laws-law as opcodes_compare};
    ghost use Rattle.wasmprinter_ops.specs.contracts.operator.ImmediatesPartialEq.TheImpl.Laws.{laws-law as immediates_compare};
    ghost use Rattle.std.specs.Ordering.{eq_of_both, on};
    ghost use Rattle.wasmprinter_ops.specs.OfViews.{immediates_of_view};

    ghost eq = { eq_of_both (on (λ o. o.opcode) ⟦<Opcode as PartialEq>⟧.eq)
        (on (λ o. immediates_of_view o.immediates) ⟦<Immediates<'static> as PartialEq>⟧.eq) };

    ghost laws = { and_per (on_per (λ o. o.opcode) opcodes_compare)
        (on_per (λ o. immediates_of_view o.immediates) immediates_compare) };

    fn eq(&self, other: &Self) -> bool {
        self.opcode == other.opcode && self.immediates == other.immediates
    }
}

impl<'a> Immediates<'a> {
    /// Reads immediates of the shape.
    fn read(cursor: &mut Cursor<'a>, shape: Shape) -> Result<Self, Malformed>
        ensures decodes { Decodes immediates_view (immediates_grammar (shape_view shape)).parse cursor.old result cursor.new }
        ensures shape { IfOk result (λ i. HasShape (shape_view shape) (immediates_view i)) }
        ensures flags { IfOk result (λ i. HasCastFlags i) }
    {
        match shape {
            Shape::None => Ok(Immediates::None),
            Shape::Fence => read_fence(cursor),
            Shape::Block => Ok(Immediates::Block(read_block_type(cursor)?)),
            Shape::TryTable => read_try_table(cursor),
            Shape::Index(_) | Shape::DefaultIndex(_) => Ok(Immediates::Index(cursor.u32()?)),
            Shape::Pair(_, _) | Shape::Segment(_, _) | Shape::Copy(_) => read_indices(cursor),
            Shape::Field | Shape::Count | Shape::Call => read_indices(cursor),
            Shape::BranchTable => read_branch_table(cursor),
            Shape::Select => Ok(Immediates::Types(read_types(cursor)?)),
            Shape::Heap | Shape::Ref(_) => Ok(Immediates::Heap(read_heap_type(cursor)?)),
            Shape::Cast => read_cast(cursor),
            Shape::Memory(_) => Ok(Immediates::Memory(MemArg::read(cursor)?)),
            Shape::MemoryLane(_) => read_memory_lane(cursor),
            Shape::Lane => Ok(Immediates::Lane(cursor.u8()?)),
            Shape::I32 => Ok(Immediates::I32(cursor.s32()?)),
            Shape::I64 => Ok(Immediates::I64(cursor.s64()?)),
            Shape::F32 => Ok(Immediates::F32(read_f32_bits(cursor)?)),
            Shape::F64 => Ok(Immediates::F64(read_f64_bits(cursor)?)),
            Shape::Vector | Shape::Lanes => Ok(Immediates::Bytes(read_bytes(cursor)?)),
        }
    }
}

/// Skips immediates of the shape. The most frequent shapes have their own arms, so that no value is built for them.
#[inline(always)]
fn pass_immediates(cursor: &mut Cursor, shape: Shape) -> Result<(), Malformed>
    ensures reads { Passes (immediates_grammar (shape_view shape)).parse cursor.old result cursor.new }
    ensures within { IsWithin cursor.old result }
    ensures end { end_of cursor.new ≡ end_of cursor.old }
    ensures forward { cursor.old.place ≤ cursor.new.place }
{
    match shape {
        Shape::None => Ok(()),
        Shape::Index(_) | Shape::DefaultIndex(_) => {
            cursor.u32()?;
            Ok(())
        }
        Shape::Memory(_) => {
            MemArg::read(cursor)?;
            Ok(())
        }
        Shape::I32 => {
            cursor.s32()?;
            Ok(())
        }
        _ => {
            Immediates::read(cursor, shape)?;
            Ok(())
        }
    }
}

/// Skips the immediates of the opcode at `place`, and returns the operator's role.
#[inline(always)]
fn pass_after(cursor: &mut Cursor, place: u64, opcode: Opcode) -> Result<Role, Malformed>
    requires { place ≤ cursor.now.place }
    ensures reads { AfterOpcode opcode cursor.old (λ at. PassesOperator at result cursor.new) }
    ensures within { IsWithinFrom place cursor.old result }
    ensures end { end_of cursor.new ≡ end_of cursor.old }
    ensures forward { cursor.old.place ≤ cursor.new.place }
{
    let Some(shape) = opcode.shape() else {
        return Err(Malformed { place });
    };
    pass_immediates(cursor, shape)?;
    Ok(opcode.role())
}

/// Skips an opcode that the table lists, with its immediates, and returns its role. As in [`read_operator`], the test
/// for a prefix comes first, since most opcodes are one byte.
#[inline]
pub(crate) fn pass_operator(cursor: &mut Cursor) -> Result<Role, Malformed>
    ensures reads { PassesOperator cursor.old result cursor.new }
    ensures within { IsWithin cursor.old result }
    ensures end { end_of cursor.new ≡ end_of cursor.old }
    ensures forward { cursor.old.place ≤ cursor.new.place }
{
    let place = cursor.place();
    let byte = cursor.u8()?;
    if is_prefix(byte) {
        let number = cursor.u32()?;
        pass_after(cursor, place, Opcode::after(byte, number))
    } else {
        pass_after(cursor, place, Opcode::of_byte(byte))
    }
}

/// Reads the reserved byte 00 of `atomic.fence`.
fn read_fence<'a>(cursor: &mut Cursor<'a>) -> Result<Immediates<'a>, Malformed>
    ensures decodes { Decodes immediates_view (immediates_grammar FenceShape).parse cursor.old result cursor.new }
    ensures shape { IfOk result (λ i. HasShape FenceShape (immediates_view i)) }
    ensures flags { IfOk result (λ i. HasCastFlags i) }
{
    let place = cursor.place();
    match cursor.u8()? {
        0x00 => Ok(Immediates::None),
        _ => Err(Malformed { place }),
    }
}

/// Reads a block type and catch clauses.
fn read_try_table<'a>(cursor: &mut Cursor<'a>) -> Result<Immediates<'a>, Malformed>
    ensures decodes { Decodes immediates_view (immediates_grammar TryTableShape).parse cursor.old result cursor.new }
    ensures shape { IfOk result (λ i. HasShape TryTableShape (immediates_view i)) }
    ensures flags { IfOk result (λ i. HasCastFlags i) }
{
    let block_type = read_block_type(cursor)?;
    Ok(Immediates::TryTable(block_type, read_catches(cursor)?))
}

/// Reads two indices, or an index and a number.
fn read_indices<'a>(cursor: &mut Cursor<'a>) -> Result<Immediates<'a>, Malformed>
    ensures decodes { Decodes immediates_view indices.parse cursor.old result cursor.new }
    ensures shape { IfOk result (λ i. HasShape FieldShape (immediates_view i)) }
    ensures flags { IfOk result (λ i. HasCastFlags i) }
{
    let first = cursor.u32()?;
    Ok(Immediates::Indices(first, cursor.u32()?))
}

/// Reads the labels of a `br_table` and its default label.
fn read_branch_table<'a>(cursor: &mut Cursor<'a>) -> Result<Immediates<'a>, Malformed>
    ensures decodes { Decodes immediates_view (immediates_grammar BranchTableShape).parse cursor.old result cursor.new }
    ensures shape { IfOk result (λ i. HasShape BranchTableShape (immediates_view i)) }
    ensures flags { IfOk result (λ i. HasCastFlags i) }
{
    let targets = read_items(cursor)?;
    Ok(Immediates::BrTable(targets, cursor.u32()?))
}

/// Reads flags, a label and two heap types.
fn read_cast<'a>(cursor: &mut Cursor<'a>) -> Result<Immediates<'a>, Malformed>
    ensures decodes { Decodes immediates_view cast.parse cursor.old result cursor.new }
    ensures shape { IfOk result (λ i. HasShape CastShape (immediates_view i)) }
    ensures flags { IfOk result (λ i. HasCastFlags i) }
{
    let place = cursor.place();
    let flags = cursor.u8()?;
    if flags > MOST_FLAGS {
        return Err(Malformed { place });
    }
    let label = cursor.u32()?;
    let source = read_heap_type(cursor)?;
    let target = read_heap_type(cursor)?;
    Ok(Immediates::Cast(flags, label, source, target))
}

/// Reads a memory operand and a lane.
fn read_memory_lane<'a>(cursor: &mut Cursor<'a>) -> Result<Immediates<'a>, Malformed>
    ensures decodes { Decodes immediates_view (immediates_grammar (MemoryLaneShape 0)).parse cursor.old result cursor.new }
    ensures shape { IfOk result (λ i. HasShape (MemoryLaneShape 0) (immediates_view i)) }
    ensures flags { IfOk result (λ i. HasCastFlags i) }
{
    let operand = MemArg::read(cursor)?;
    Ok(Immediates::MemoryLane(operand, cursor.u8()?))
}

impl<'a> Operator<'a> {
    /// Reads the immediates of the opcode at `place`. The most frequent shapes have their own arms, so that their
    /// immediates are not copied from the result of [`Immediates::read`].
    #[inline(always)]
    fn read_after(cursor: &mut Cursor<'a>, place: u64, opcode: Opcode) -> Result<Self, Malformed>
        requires { place ≤ cursor.now.place }
        ensures reads { AfterOpcode opcode cursor.old (λ at. Reads (λ o. o) operator.parse at result cursor.new) }
        ensures within { IsWithinFrom place cursor.old result }
        ensures end { end_of cursor.new ≡ end_of cursor.old }
        ensures forward { cursor.old.place ≤ cursor.new.place }
    {
        let Some(shape) = opcode.shape() else {
            return Err(Malformed { place });
        };
        let immediates = match shape {
            Shape::None => Immediates::None,
            Shape::Index(_) | Shape::DefaultIndex(_) => Immediates::Index(cursor.u32()?),
            Shape::Memory(_) => Immediates::Memory(MemArg::read(cursor)?),
            Shape::I32 => Immediates::I32(cursor.s32()?),
            _ => Immediates::read(cursor, shape)?,
        };
        Ok(Operator { opcode, immediates })
    }
}

/// Reads an opcode that the table lists, and its immediates. On `Ok`, the cursor is then after them. After an error,
/// the cursor may have advanced.
///
/// # Errors
///
/// `Malformed` if the bytes do not encode an operator, with the place of the opcode if the table does not list it, and
/// otherwise with a place as [`Error::Malformed`](wasmprinter_bytes::Error::Malformed) describes it. The contract only
/// says that this place is not before the cursor's and not after the end of the bytes; tests check it.
#[inline(always)]
pub fn read_operator<'a>(cursor: &mut Cursor<'a>) -> Result<Operator<'a>, Malformed>
    ensures { Decodes (λ o. o) operator.parse cursor.old result cursor.new }
{
    let place = cursor.place();
    let byte = cursor.u8()?;
    if is_prefix(byte) {
        let number = cursor.u32()?;
        Operator::read_after(cursor, place, Opcode::after(byte, number))
    } else {
        Operator::read_after(cursor, place, Opcode::of_byte(byte))
    }
}

/// Reads an operator, and returns its place with it. On `Ok`, the cursor is then after it. After an error, the cursor
/// may have advanced.
///
/// # Errors
///
/// As [`read_operator`].
#[inline(always)]
pub fn read_placed<'a>(cursor: &mut Cursor<'a>) -> Result<(u64, Operator<'a>), Malformed>
    ensures { Decodes placed_view (value_with_place operator).parse cursor.old result cursor.new }
{
    let place = cursor.place();
    let operator = read_operator(cursor)?;
    Ok((place, operator))
}
