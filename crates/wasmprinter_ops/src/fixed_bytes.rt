//! Reads immediates of a fixed number of bytes: vectors, lanes, and the bits of floating-point numbers (section 5.4 of the
//! WebAssembly Core Specification).
ghost use Rattle.wasmprinter_spec.specs.Sized.{take_bytes};
ghost use Rattle.wasmprinter_spec.specs.Instructions.{float_bits};
ghost use Rattle.wasmprinter_bytes.specs.Reads.{Decodes};

use wasmprinter_bytes::Malformed;
use wasmprinter_bytes::cursor::Cursor;

/// Reads `N` bytes.
pub(crate) fn read_bytes<const N: usize>(cursor: &mut Cursor) -> Result<[u8; N], Malformed>
    ensures { Decodes (λ b. b) (take_bytes N).parse cursor.old result cursor.new }
{
    let from = cursor.take(N)?;
    let mut bytes = [0; N];
    bytes.copy_from_slice(from);
    Ok(bytes)
}

/// Reads the bits of a 32-bit floating-point number.
pub(crate) fn read_f32_bits(cursor: &mut Cursor) -> Result<u32, Malformed>
    ensures { Decodes (λ n. n) (float_bits 4).parse cursor.old result cursor.new }
{
    Ok(u32::from_le_bytes(read_bytes(cursor)?))
}

/// Reads the bits of a 64-bit floating-point number.
pub(crate) fn read_f64_bits(cursor: &mut Cursor) -> Result<u64, Malformed>
    ensures { Decodes (λ n. n) (float_bits 8).parse cursor.old result cursor.new }
{
    Ok(u64::from_le_bytes(read_bytes(cursor)?))
}
