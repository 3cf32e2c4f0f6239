//! The function section (section 5.5, "Function Section").
ghost use Rattle.std.specs.Prelude.{◌≡◌, ◌≤◌};
ghost use Rattle.wasmprinter_spec.specs.Sections.{FunctionSection};
ghost use Rattle.wasmprinter_bytes.specs.Reads.{end_of};
ghost use Rattle.wasmprinter_decoder.specs.Contents.{TakesIndices, DecodesContent};

use crate::byte_checks::expect_end;
use std::alloc::Global;
use wasmprinter_bytes::Error;
use wasmprinter_bytes::cursor::Cursor;
use wasmprinter_bytes::lazy_items::read_items;

/// The greatest number of functions that a module may define.
const MOST_FUNCTIONS: u32 = 1_000_000;

/// Reads a list of type indices that has at most `MOST_FUNCTIONS` items.
fn read_type_indices(alloc: Global, cursor: &mut Cursor) -> Result<Vec<u32>, Error>
    ensures reads { TakesIndices (λ v. v.items) cursor.old result cursor.new }
    ensures end { end_of cursor.new ≡ end_of cursor.old }
    ensures forward { cursor.old.place ≤ cursor.new.place }
{
    let indices = read_items::<u32>(cursor)?;
    let count = indices.len();
    if count > MOST_FUNCTIONS {
        return Err(Error::TooManyFunctions { count });
    }
    let mut kept = Vec::new(alloc);
    for index in indices.iter() {
        kept.push(index)?;
    }
    Ok(kept)
}

/// Reads the content of a function section. On `Ok`, the result is the value that the grammar gives for all
/// remaining bytes.
///
/// # Errors
///
/// - `Malformed` if the bytes do not encode a list of type indices and nothing after it, with a place as
///   [`Error::Malformed`](wasmprinter_bytes::Error::Malformed) describes it.
/// - `TooManyFunctions` if there are more than 1,000,000. The count is the one with which the bytes begin.
/// - `Memory` if an allocation fails, which happens only if the bytes begin with a count above zero.
pub fn read_functions(alloc: Global, cursor: &mut Cursor) -> Result<Vec<u32>, Error>
    ensures { DecodesContent FunctionSection (λ v. v.items) cursor.old result }
{
    let indices = read_type_indices(alloc, cursor)?;
    expect_end(cursor)?;
    Ok(indices)
}
