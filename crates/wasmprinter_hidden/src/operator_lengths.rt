//! Lengths of the shortest encodings of operators (section 5.4 of the WebAssembly Core Specification).
ghost use Rattle.std.specs.Prelude.{◌≡◌, ◌-◌};
ghost use Rattle.wasmprinter_hidden.specs.Lengths.{memory_len, reserved_len};

use crate::excess::{Excess, Shortest};
use crate::list_lengths::take_list;
use wasmprinter_ops::block_immediates::{BlockType, Catch};
use wasmprinter_ops::mem_arg::MemArg;
use wasmprinter_ops::opcode_shapes_arities_and_roles::Opcode;
use wasmprinter_ops::operator::{Immediates, Operator};

/// The opcode of `atomic.fence`, which a reserved byte follows.
const FENCE: Opcode = Opcode {
    prefix: 0xfe,
    number: 0x03,
};

/// The number of bytes of a 32-bit floating-point number.
const F32_LEN: u64 = 4;

/// The number of bytes of a 64-bit floating-point number.
const F64_LEN: u64 = 8;

/// The number of bytes of a vector.
const V128_LEN: u64 = 16;

impl Shortest for Opcode {
    ghost use Rattle.wasmprinter_hidden.specs.Lengths.{opcode_len};

    ghost len = { opcode_len };

    fn take_from(&self, excess: &mut Excess) {
        excess.take(1);
        if self.prefix != 0 {
            self.number.take_from(excess);
        }
    }
}

impl Shortest for BlockType {
    ghost use Rattle.wasmprinter_ops.specs.Blocks.{block_type_view};
    ghost use Rattle.wasmprinter_hidden.specs.Lengths.{block_type_len};

    ghost len = { λ t. block_type_len (block_type_view t) };

    fn take_from(&self, excess: &mut Excess) {
        match *self {
            BlockType::Empty => excess.take(1),
            BlockType::Value(val_type) => val_type.take_from(excess),
            BlockType::Func(index) => i64::from(index).take_from(excess),
        }
    }
}

impl Shortest for Catch {
    ghost use Rattle.wasmprinter_ops.specs.Blocks.{catch_view};
    ghost use Rattle.wasmprinter_hidden.specs.Lengths.{catch_len};

    ghost len = { λ c. catch_len (catch_view c) };

    fn take_from(&self, excess: &mut Excess) {
        excess.take(1);
        match *self {
            Catch::One(tag, label) | Catch::OneRef(tag, label) => {
                tag.take_from(excess);
                label.take_from(excess);
            }
            Catch::All(label) | Catch::AllRef(label) => label.take_from(excess),
        }
    }
}

/// Takes the bytes of the index of a memory away. The index 0 needs none.
pub(crate) fn take_memory(memory: u32, excess: &mut Excess)
    ensures { excess.new.bytes ≡ excess.old.bytes - memory_len memory }
{
    if memory != 0 {
        memory.take_from(excess);
    }
}

impl Shortest for MemArg {
    ghost use Rattle.wasmprinter_hidden.specs.Lengths.{mem_arg_len};

    ghost len = { mem_arg_len };

    fn take_from(&self, excess: &mut Excess) {
        excess.take(1);
        take_memory(self.memory, excess);
        self.offset.take_from(excess);
    }
}

impl Shortest for Immediates<'_> {
    ghost use Rattle.wasmprinter_ops.specs.Immediates.{immediates_view};
    ghost use Rattle.wasmprinter_hidden.specs.Lengths.{immediates_len};

    ghost len = { λ i. immediates_len (immediates_view i) };

    fn take_from(&self, excess: &mut Excess) {
        match self {
            Immediates::None => {}
            Immediates::Block(block_type) => block_type.take_from(excess),
            Immediates::TryTable(block_type, catches) => {
                block_type.take_from(excess);
                take_list(catches, excess);
            }
            Immediates::Index(index) => index.take_from(excess),
            Immediates::Indices(first, second) => {
                first.take_from(excess);
                second.take_from(excess);
            }
            Immediates::BrTable(targets, otherwise) => {
                take_list(targets, excess);
                otherwise.take_from(excess);
            }
            Immediates::Types(types) => take_list(types, excess),
            Immediates::Heap(heap) => heap.take_from(excess),
            Immediates::Cast(_, label, source, target) => {
                excess.take(1);
                label.take_from(excess);
                source.take_from(excess);
                target.take_from(excess);
            }
            Immediates::Memory(operand) => operand.take_from(excess),
            Immediates::MemoryLane(operand, _) => {
                operand.take_from(excess);
                excess.take(1);
            }
            Immediates::Lane(_) => excess.take(1),
            Immediates::I32(number) => number.take_from(excess),
            Immediates::I64(number) => number.take_from(excess),
            Immediates::F32(_) => excess.take(F32_LEN),
            Immediates::F64(_) => excess.take(F64_LEN),
            Immediates::Bytes(_) => excess.take(V128_LEN),
        }
    }
}

/// Takes the reserved byte after an opcode away, if there is one.
fn take_reserved(opcode: Opcode, excess: &mut Excess)
    ensures { excess.new.bytes ≡ excess.old.bytes - reserved_len opcode }
{
    if opcode == FENCE {
        excess.take(1);
    }
}

impl Shortest for Operator<'_> {
    ghost use Rattle.wasmprinter_hidden.specs.Lengths.{operator_len};

    ghost len = { operator_len };

    fn take_from(&self, excess: &mut Excess) {
        self.opcode.take_from(excess);
        take_reserved(self.opcode, excess);
        self.immediates.take_from(excess);
    }
}
