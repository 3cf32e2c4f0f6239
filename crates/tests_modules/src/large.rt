//! A module that is large enough for texts and lists of lines to grow many times.

use std::alloc::{AllocError, Global};

/// The number of functions in the module.
pub const COUNT: u32 = 3000;

/// The encoding of `COUNT` in LEB128.
const COUNT_SPELLED: &[u8] = &[0xb8, 0x17];

/// The byte offset of the first body, after the byte of its size. Each body starts three bytes after the previous
/// one.
pub const FIRST_BODY: u64 = 3025;

/// The length of the module in bytes.
pub const LEN: u64 = 12024;

/// Appends an item for each function.
fn extend_many(wasm: &mut Vec<u8>, item: &[u8]) -> Result<(), AllocError> {
    for _ in 0..COUNT {
        wasm.extend_from_slice(item)?;
    }
    Ok(())
}

/// Appends the sections of the module.
fn extend_sections(wasm: &mut Vec<u8>) -> Result<(), AllocError> {
    wasm.extend_from_slice(&[0x01, 0x04, 0x01, 0x60, 0x00, 0x00])?;
    // A function section of 3,002 bytes: the count, and type 0 for each function.
    wasm.extend_from_slice(&[0x03, 0xba, 0x17])?;
    wasm.extend_from_slice(COUNT_SPELLED)?;
    extend_many(wasm, &[0x00])?;
    // A code section of 9,002 bytes: the count, and for each function a body of two bytes.
    wasm.extend_from_slice(&[0x0a, 0xaa, 0x46])?;
    wasm.extend_from_slice(COUNT_SPELLED)?;
    extend_many(wasm, &[0x02, 0x00, 0x0b])
}

/// Returns a module of 12,024 bytes with 3,000 functions without locals and operators.
pub fn large(alloc: Global) -> Result<Vec<u8>, AllocError> {
    let mut wasm = Vec::from_slice(alloc, wasmprinter_samples::PREAMBLE)?;
    extend_sections(&mut wasm)?;
    Ok(wasm)
}
