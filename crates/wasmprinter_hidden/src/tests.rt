//! Tests of what is found in whole modules, and what these tests share. All bytes and expected findings are typed by
//! hand, by the binary format of the WebAssembly Core Specification and the definitions of `specs`.

mod bodies;
mod branch_hints;
mod custom_data;
mod entries;
mod instructions;
mod names;
mod refusals;
mod sections;

use crate::finding::{Finding, Part};
use crate::hidden_bytes::hidden;
use std::alloc::{AllocError, Global};

/// The preamble of a module. The bytes after it start at 0x8.
const PREAMBLE: &[u8] = b"\0asm\x01\0\0\0";

/// An expected finding: its place, its part, and its extra bytes.
type Expected = (u64, Part, u64);

/// What the row shows, the bytes after the preamble in pieces, and the expected findings in order.
pub(crate) type Row = (&'static str, &'static [&'static [u8]], &'static [Expected]);

/// Returns the preamble, followed by these pieces.
fn module(alloc: Global, pieces: &[&[u8]]) -> Result<Vec<u8>, AllocError> {
    let mut wasm = Vec::from_slice(alloc, PREAMBLE)?;
    for piece in pieces {
        wasm.extend_from_slice(piece)?;
    }
    Ok(wasm)
}

/// Reports whether the findings are the expected ones, in order.
fn are_all(found: &[Finding], expected: &[Expected]) -> bool {
    for (finding, (place, part, extra)) in found.iter().zip(expected) {
        if finding.place != *place || finding.part != *part || finding.extra != *extra {
            return false;
        }
    }
    found.len() == expected.len()
}

/// Reports whether the findings in the module of the row are the expected ones.
fn is_row(alloc: Global, row: &Row) -> Result<bool, AllocError> {
    let (_, pieces, expected) = row;
    let wasm = module(alloc, pieces)?;
    Ok(match hidden(alloc, &wasm) {
        Ok(found) => are_all(&found, expected),
        Err(_) => false,
    })
}

/// Returns what the first row shows whose module has other findings or is refused, or `None` if there is no such row.
pub(crate) fn first_other_row(
    alloc: Global,
    rows: &[Row],
) -> Result<Option<&'static str>, AllocError> {
    for row in rows {
        if !is_row(alloc, row)? {
            return Ok(Some(row.0));
        }
    }
    Ok(None)
}
