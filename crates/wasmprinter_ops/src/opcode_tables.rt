//! The tables of opcodes, one for each prefix, by number.

mod atomics;
mod gc;
mod one_byte;
mod saturating_bulk_and_wide;
mod vectors;

pub(crate) use self::atomics::ATOMICS;
pub(crate) use self::gc::GC;
pub(crate) use self::one_byte::{ONE_BYTE, ROLES};
pub(crate) use self::saturating_bulk_and_wide::BULK;
pub(crate) use self::vectors::VECTORS;
use crate::opcode_shapes_arities_and_roles::{Arity, Shape};

/// The word of an opcode, the shape of its immediates, and its arity.
pub(crate) type Entry = (&'static str, Shape, Arity);
