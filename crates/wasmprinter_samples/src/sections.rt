//! Sections from which tests assemble modules (section 5.5.2 of the standard), and modules of nested blocks.

use crate::PREAMBLE;
use crate::modules_and_texts_from_parts::{NO_PARAMS, ONE_FUNCTION, Part, build};
use std::alloc::{AllocError, Global};

/// The id of custom sections.
pub const CUSTOM: u8 = 0;

/// The id of the type section.
pub const TYPE: u8 = 1;

/// The id of the import section.
pub const IMPORT: u8 = 2;

/// The id of the function section.
pub const FUNCTION: u8 = 3;

/// The id of the table section.
pub const TABLE: u8 = 4;

/// The id of the memory section.
pub const MEMORY: u8 = 5;

/// The id of the global section.
pub const GLOBAL: u8 = 6;

/// The id of the start section.
pub const START: u8 = 8;

/// The id of the element section.
pub const ELEMENT: u8 = 9;

/// The id of the code section.
pub const CODE: u8 = 10;

/// The id of the data section.
pub const DATA: u8 = 11;

/// The id of the data count section.
pub const DATA_COUNT: u8 = 12;

/// The id of the tag section.
pub const TAG: u8 = 13;

/// The name of custom sections with branch hints.
pub const HINTS: &str = "metadata.code.branch_hint";

/// Appends a section with this id and content. The content has fewer than 128 bytes.
pub fn add_section(wasm: &mut Vec<u8>, id: u8, content: &[u8]) -> Result<(), AllocError> {
    wasm.extend_from_slice(&[id, content.len().min(127) as u8])?;
    wasm.extend_from_slice(content)
}

/// Appends a custom section with this name and data. Name and data have fewer than 127 bytes together.
pub fn add_custom(
    alloc: Global,
    wasm: &mut Vec<u8>,
    name: &str,
    data: &[u8],
) -> Result<(), AllocError> {
    let mut content = Vec::from_slice(alloc, &[name.len().min(127) as u8])?;
    content.extend_from_slice(name.as_bytes())?;
    content.extend_from_slice(data)?;
    add_section(wasm, CUSTOM, &content)
}

/// Returns a module whose function opens `depth` nested blocks with the bytes `opens` each, and closes each with
/// the bytes `closes`. `code` has the bytes from the code section to the first block: the id and size of the
/// section, the count of bodies, the size of the body, and a count of no locals.
pub fn with_blocks<'a>(
    alloc: Global,
    depth: u32,
    opens: &'a [u8],
    closes: &'a [u8],
    code: &'a [u8],
) -> Result<Vec<u8>, AllocError> {
    build(
        alloc,
        &[
            Part::Bytes(PREAMBLE),
            NO_PARAMS,
            ONE_FUNCTION,
            Part::Bytes(code),
            Part::Copies(depth, opens),
            Part::Copies(depth, closes),
            Part::Bytes(&[0x0b]),
        ],
    )
}
