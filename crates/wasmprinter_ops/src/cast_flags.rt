//! The flags of casts, and the two reference types that they give (section 5.4 of the WebAssembly Core Specification,
//! "Reference Instructions").
ghost use Rattle.std.specs.Prelude.{◌≡◌};
ghost use Rattle.wasmprinter_ops.specs.Operands.{source_type, target_type};
ghost use Rattle.wasmprinter_ops.specs.ValTypes.{ref_view};

use crate::{HeapType, RefType};

/// The greatest value of the flags of a cast.
pub(crate) const MOST_FLAGS: u8 = 3;

/// The flag of a cast whose first reference type may be null.
const SOURCE_NULL: u8 = 1;

/// The flag of a cast whose second reference type may be null.
const TARGET_NULL: u8 = 2;

/// Returns the first reference type of a cast with the flags: to `heap`, and nullable if bit 0 of the flags is set.
pub fn cast_source(flags: u8, heap: HeapType) -> RefType
    ensures { ref_view result ≡ source_type flags heap }
{
    RefType {
        nullable: flags & SOURCE_NULL != 0,
        heap,
    }
}

/// Returns the second reference type of a cast with the flags: to `heap`, and nullable if bit 1 of the flags is set.
pub fn cast_target(flags: u8, heap: HeapType) -> RefType
    ensures { ref_view result ≡ target_type flags heap }
{
    RefType {
        nullable: flags & TARGET_NULL != 0,
        heap,
    }
}
