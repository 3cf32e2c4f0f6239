//! Memory operands (section 5.4 of the WebAssembly Core Specification, "Memory Instructions").
ghost use Rattle.wasmprinter_spec.specs.Instructions.{mem_arg};
ghost use Rattle.wasmprinter_bytes.specs.Reads.{Decodes};

use std::marker::Model;
use wasmprinter_bytes::Malformed;
use wasmprinter_bytes::cursor::Cursor;

/// A memory operand.
#[derive(Clone, Copy, Debug, PartialEq, Eq)]
pub struct MemArg {
    /// The exponent of the alignment in bytes, a power of two.
    pub exponent: u32,
    /// The index of the memory.
    pub memory: u32,
    /// The number of bytes that is added to the address.
    pub offset: u64,
}

impl Model for MemArg {
    ghost use Rattle.std.specs.Prelude.{◌<◌};
    ghost use Rattle.wasmprinter_spec.specs.Operator.{MemArg as MemArgValue};

    ghost Value = { MemArgValue };

    ghost view = { λ m. record { exponent = m.exponent; memory = m.memory; offset = m.offset } };

    ghost inverse = { λ m. record { exponent = m.exponent; memory = m.memory; offset = m.offset } };

    ghost invariant = { λ m. m.exponent < 64 };
}

/// The index of a memory follows the first number of a memory operand if that number is at least this.
const WITH_MEMORY: u32 = 0x40;

/// The first number of a memory operand is less than this.
const NO_OPERAND: u32 = 0x80;

impl MemArg {
    /// Reads a memory operand: the exponent of the alignment, for memory 0; or 64 more, and the
    /// memory's index; then an offset.
    pub(crate) fn read(cursor: &mut Cursor) -> Result<Self, Malformed>
        ensures { Decodes (λ m. m) mem_arg.parse cursor.old result cursor.new }
    {
        let place = cursor.place();
        let first = cursor.u32()?;
        let (exponent, memory) = match first {
            0..WITH_MEMORY => (first, 0),
            WITH_MEMORY..NO_OPERAND => (first - WITH_MEMORY, cursor.u32()?),
            _ => return Err(Malformed { place }),
        };
        let offset = cursor.u64()?;
        Ok(MemArg {
            exponent,
            memory,
            offset,
        })
    }
}
