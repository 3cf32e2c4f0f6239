//! Checks for a specific byte, and for the end of a section's content.
ghost use Rattle.std.specs.Prelude.{◌≡◌, [], MatchResult};
ghost use Rattle.wasmprinter_spec.specs.FirstByte.{only};
ghost use Rattle.wasmprinter_bytes.specs.Reads.{Decodes, IsPlaceIn};

use wasmprinter_bytes::Malformed;
use wasmprinter_bytes::cursor::Cursor;

/// Checks that no byte remains.
///
/// # Errors
///
/// `Malformed` if bytes remain, with the place of the first. The contract says of the place only that it is not before
/// the first remaining byte, and not after the end of the bytes.
pub fn expect_end(cursor: &Cursor) -> Result<(), Malformed>
    ensures { MatchResult result (λ _. cursor.now.bytes ≡ []) (λ e. (cursor.now.bytes ≡ [] → ⊥) × IsPlaceIn cursor.now e.place) }
{
    if cursor.is_empty() {
        Ok(())
    } else {
        Err(Malformed {
            place: cursor.place(),
        })
    }
}

/// Reads a byte that must equal `wanted`. On `Ok`, the result and the new place are those that the grammar
/// gives. After an error, the cursor may have advanced.
///
/// # Errors
///
/// `Malformed` if the byte differs or is missing, with its place. The contract only bounds the place, as
/// [`Error::Malformed`](wasmprinter_bytes::Error::Malformed) says.
pub fn read_only(cursor: &mut Cursor, wanted: u8) -> Result<u8, Malformed>
    ensures { Decodes (λ b. b) (only wanted).parse cursor.old result cursor.new }
{
    let place = cursor.place();
    let byte = cursor.u8()?;
    if byte == wanted {
        Ok(byte)
    } else {
        Err(Malformed { place })
    }
}
