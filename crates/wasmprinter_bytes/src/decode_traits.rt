//! Values that can be read from bytes, and lists of them in memory (section 5.1 of the WebAssembly Core Specification,
//! "Lists"): a count, and that many values.
ghost use Rattle.wasmprinter_bytes.specs.Reads.{Decodes};
ghost use Rattle.wasmprinter_bytes.specs.Lists.{DecodesWithAllocation, reader, CountsItems, BeginsList, vec_at};

use crate::cursor::Cursor;
use crate::{Error, Malformed};
use std::alloc::Global;

/// A value that can be read from bytes without allocating, and that borrows nothing.
pub trait Decode: Drop {
    ghost use Rattle.std.specs.Prelude.{Option};
    ghost use Rattle.wasmprinter_spec.specs.Grammar.{Input};

    /// The grammar's reader for the value.
    ghost parse: { Input → Option (Self × Input) };

    /// Reads the value at the cursor. On `Ok`, the cursor is then after it. After an error, the cursor may have
    /// advanced.
    ///
    /// # Errors
    ///
    /// `Malformed` if the bytes do not encode a value. The contract only bounds its place, from the cursor's before the
    /// call to the end of the bytes.
    fn read(cursor: &mut Cursor) -> Result<Self, Malformed>
        ensures { Decodes (λ x. x) parse cursor.old result cursor.new };
}

impl Decode for u32 {
    ghost use Rattle.wasmprinter_spec.specs.Name.{u32};

    ghost parse = { u32.parse };

    fn read(cursor: &mut Cursor) -> Result<u32, Malformed> {
        cursor.u32()
    }
}

/// A value that can be read from bytes without allocating, and that may borrow the bytes.
pub trait DecodeIn<'a>: Drop {
    ghost use Rattle.std.specs.Prelude.{Option};
    ghost use Rattle.wasmprinter_spec.specs.Grammar.{Input};

    /// The grammar's reader for the value.
    ghost parse: { Input → Option (Self × Input) };

    /// Reads the value at the cursor. On `Ok`, the cursor is then after it. After an error, the cursor may have
    /// advanced.
    ///
    /// # Errors
    ///
    /// `Malformed` if the bytes do not encode a value. The contract only bounds its place, from the cursor's before the
    /// call to the end of the bytes.
    fn read(cursor: &mut Cursor<'a>) -> Result<Self, Malformed>
        ensures { Decodes (λ x. x) parse cursor.old result cursor.new };
}

/// Reads a count and that many values, and returns the values in memory. On `Ok`, the cursor is then after them. After
/// an error, the cursor may have advanced.
///
/// # Errors
///
/// - `Malformed` if the bytes do not encode the count or one of the values, with a place
///   as [`Error::Malformed`](crate::Error::Malformed) describes it.
/// - `Memory` if an allocation fails, which happens only if the bytes begin with a count above zero and a first value
///   (`BeginsList`). No other error is returned.
pub fn read_list<'a, T: DecodeIn<'a>>(
    alloc: Global,
    cursor: &mut Cursor<'a>,
) -> Result<Vec<T>, Error>
    ensures { DecodesWithAllocation (λ v. v.items) (reader (vec_at T.parse) (BeginsList T.parse)) cursor.old result cursor.new }
{
    let count = cursor.u32()?;
    let mut values = Vec::new(alloc);
    for _ in 0..count {
        values.push(T::read(cursor)?)?;
    }
    Ok(values)
}

/// A value that can be read from bytes, for which reading may allocate. It may borrow the bytes.
pub trait GrownIn<'a>: Drop {
    ghost use Rattle.std.specs.Prelude.{Option};
    ghost use Rattle.wasmprinter_spec.specs.Grammar.{Input};

    /// The grammar's reader for the value.
    ghost parse: { Input → Option (Self × Input) };

    /// The condition on a position under which reading the value from there may allocate.
    ghost grows: { Input → Type 0 };

    /// Reads the value at the cursor. On `Ok`, the cursor is then after it. After an error, the cursor may have
    /// advanced.
    ///
    /// # Errors
    ///
    /// - `Malformed` if the bytes do not encode a value. The contract only bounds its place, from the cursor's before
    ///   the call to the end of the bytes.
    /// - `Memory` if an allocation fails, which happens only if `grows` holds for the cursor before the call. No other
    ///   error is returned.
    fn read(alloc: Global, cursor: &mut Cursor<'a>) -> Result<Self, Error>
        ensures { DecodesWithAllocation (λ x. x) (reader parse grows) cursor.old result cursor.new };
}

/// Reads a count and that many values for which reading may allocate, and returns the values in memory. On `Ok`, the
/// cursor is then after them. After an error, the cursor may have advanced.
///
/// # Errors
///
/// - `Malformed` if the bytes do not encode the count or one of the values, with a place
///   as [`Error::Malformed`](crate::Error::Malformed) describes it.
/// - `Memory` if an allocation fails, for the list or for a value, which happens only if the bytes begin with a count
///   above zero (`CountsItems`). No other error is returned.
pub fn read_grown_list<'a, T: GrownIn<'a>>(
    alloc: Global,
    cursor: &mut Cursor<'a>,
) -> Result<Vec<T>, Error>
    ensures { DecodesWithAllocation (λ v. v.items) (reader (vec_at T.parse) CountsItems) cursor.old result cursor.new }
{
    let count = cursor.u32()?;
    let mut grown = Vec::new(alloc);
    for _ in 0..count {
        grown.push(T::read(alloc, cursor)?)?;
    }
    Ok(grown)
}
