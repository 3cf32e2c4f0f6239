//! Tests of the debug text of lists in operators, for each length up to 50.

use crate::bodies::body_of;
use std::alloc::{AllocError, Global};
use std::test::Fail;
use wasmprinter::wasm::Immediates;

/// The greatest length of a list. With it, each size in the module fits in one byte.
const LONGEST: usize = 50;

/// An operator with a list: its bytes, and the debug text of its immediates.
#[derive(Drop)]
struct Listing {
    /// The bytes before the length of the list
    before: &'static [u8],
    /// Two items, which alternate in the list
    items: [&'static [u8]; 2],
    /// The bytes after the items, including those of further operators
    after: &'static [u8],
    shown_before: &'static str,
    shown_items: [&'static str; 2],
    shown_after: &'static str,
}

const LISTINGS: &[Listing] = &[
    Listing {
        before: &[0x0e],
        items: [&[0x07], &[0x08]],
        after: &[0x03],
        shown_before: "BrTable([",
        shown_items: ["7", "8"],
        shown_after: "], 3)",
    },
    Listing {
        before: &[0x1c],
        items: [&[0x7f], &[0x7e]],
        after: &[],
        shown_before: "Types([",
        shown_items: ["I32", "I64"],
        shown_after: "])",
    },
    Listing {
        before: &[0x1f, 0x40],
        items: [&[0x02, 0x05], &[0x03, 0x04]],
        after: &[0x0b],
        shown_before: "TryTable(Empty, [",
        shown_items: ["All(5)", "AllRef(4)"],
        shown_after: "])",
    },
];

/// Returns a size, encoded in LEB128 in one byte. All sizes here are below 128.
fn size_byte(size: usize) -> u8 {
    if size < 128 { size as u8 } else { 127 }
}

impl Listing {
    /// Returns a body without locals whose operator has a list of this length.
    fn body(&self, alloc: Global, len: usize) -> Result<Vec<u8>, AllocError> {
        let mut body = Vec::new(alloc);
        body.push(0)?;
        body.extend_from_slice(self.before)?;
        body.push(size_byte(len))?;
        for number in 0..len {
            body.extend_from_slice(self.items[number % 2])?;
        }
        body.extend_from_slice(self.after)?;
        body.push(0x0b)?;
        Ok(body)
    }

    /// Returns a module with this body.
    fn module(&self, alloc: Global, len: usize) -> Result<Vec<u8>, AllocError> {
        let body = self.body(alloc, len)?;
        let mut wasm = Vec::new(alloc);
        wasm.extend_from_slice(b"\0asm\x01\0\0\0\x01\x04\x01\x60\0\0\x03\x02\x01\0")?;
        let size = size_byte(body.len());
        wasm.extend_from_slice(&[0x0a, size.wrapping_add(2), 1, size])?;
        wasm.extend_from_slice(&body)?;
        Ok(wasm)
    }

    /// Returns the expected debug text of the immediates with a list of this length.
    fn shown(&self, alloc: Global, len: usize) -> Result<String, AllocError> {
        let mut shown = String::from_str(alloc, self.shown_before)?;
        for number in 0..len {
            shown.push_str(if number == 0 { "" } else { ", " })?;
            shown.push_str(self.shown_items[number % 2])?;
        }
        shown.push_str(self.shown_after)?;
        Ok(shown)
    }

    /// Reports whether the immediates have the expected debug text.
    fn is_shown(&self, alloc: Global, len: usize) -> Result<bool, Fail> {
        let wasm = self.module(alloc, len)?;
        let (_, operator) = body_of(alloc, &wasm)?
            .operators()
            .next()
            .ok_or("no operator")?;
        let found = format!(in alloc; "{:?}", operator.immediates)?;
        let is_list = !matches!(operator.immediates, Immediates::None);
        Ok(is_list && found.as_str() == self.shown(alloc, len)?.as_str())
    }

    /// Returns the first length with which the immediates have another debug text, or `None` if there is no such
    /// length.
    fn first_other(&self, alloc: Global) -> Result<Option<usize>, Fail> {
        for len in 0..=LONGEST {
            if !self.is_shown(alloc, len)? {
                return Ok(Some(len));
            }
        }
        Ok(None)
    }
}

/// Returns the start of the debug text of the first operator that has another one, and the length of its list.
/// Returns `None` if there is no such operator.
fn first_other(alloc: Global, listings: &[Listing]) -> Result<Option<(&'static str, usize)>, Fail> {
    for listing in listings {
        if let Some(len) = listing.first_other(alloc)? {
            return Ok(Some((listing.shown_before, len)));
        }
    }
    Ok(None)
}

#[test]
fn shows_lists_of_each_length(rt: HostRuntime) -> Result<(), Fail> {
    let other = first_other(rt.alloc(), LISTINGS)?;
    assert!(rt; other == None, "{other:?}");
    Ok(())
}
