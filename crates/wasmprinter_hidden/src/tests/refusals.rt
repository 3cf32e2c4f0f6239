//! Tests of bytes that are refused: nothing is listed for them, not even what was found before the error.

use crate::hidden_bytes::hidden;
use std::alloc::Global;
use std::test::Fail;
use wasmprinter_bytes::Error;

/// An expected error.
#[derive(Clone, Copy)]
enum Refusal {
    Malformed,
    Component,
    /// The place of a table with an empty initialiser
    EmptyTableInit(u64),
    /// The place of a body with too many locals
    TooManyLocals(u64),
}

impl Refusal {
    /// Reports whether this is the error.
    fn is(self, error: &Error) -> bool {
        match self {
            Refusal::Malformed => matches!(error, Error::Malformed { .. }),
            Refusal::Component => matches!(error, Error::Component),
            Refusal::EmptyTableInit(wanted) => {
                matches!(error, Error::EmptyTableInit { place } if *place == wanted)
            }
            Refusal::TooManyLocals(wanted) => {
                matches!(error, Error::TooManyLocals { place } if *place == wanted)
            }
        }
    }

    /// Reports whether the bytes are refused for this error.
    fn is_of(self, alloc: Global, wasm: &[u8]) -> bool {
        match hidden(alloc, wasm) {
            Ok(_) => false,
            Err(error) => self.is(&error),
        }
    }
}

/// What the row shows, the bytes, and the expected error.
type Row = (&'static str, &'static [u8], Refusal);

const ROWS: &[Row] = &[
    ("no bytes", b"", Refusal::Malformed),
    ("another version", b"\0asm\x02\0\0\0", Refusal::Malformed),
    ("a component", b"\0asm\x0d\0\x01\0", Refusal::Component),
    (
        "a truncated section after one without entries",
        b"\0asm\x01\0\0\0\x01\x01\x00\x02\x01",
        Refusal::Malformed,
    ),
    (
        "a size in six bytes",
        b"\0asm\x01\0\0\0\x01\x81\x80\x80\x80\x80\x00\x00",
        Refusal::Malformed,
    ),
    (
        "a section twice",
        b"\0asm\x01\0\0\0\x01\x01\x00\x01\x01\x00",
        Refusal::Malformed,
    ),
    (
        "a function without a body",
        b"\0asm\x01\0\0\0\x03\x02\x01\x00",
        Refusal::Malformed,
    ),
    (
        "a table with an empty initialiser",
        b"\0asm\x01\0\0\0\x04\x07\x01\x40\x00\x70\x00\x01\x0b",
        Refusal::EmptyTableInit(0x0b),
    ),
    (
        "50,001 locals",
        b"\0asm\x01\0\0\0\x03\x02\x01\x00\x0a\x08\x01\x06\x01\xd1\x86\x03\x7f\x0b",
        Refusal::TooManyLocals(0x10),
    ),
];

/// Returns what the first row shows that is not refused for its error, or `None` if there is no such row.
fn first_other_refusal(alloc: Global, rows: &[Row]) -> Option<&'static str> {
    for (name, wasm, refusal) in rows {
        if !refusal.is_of(alloc, wasm) {
            return Some(name);
        }
    }
    None
}

#[test]
fn refuses_what_decoding_refuses(rt: HostRuntime) -> Result<(), Fail> {
    let other = first_other_refusal(rt.alloc(), ROWS);
    assert!(rt; other == None, "{other:?}");
    Ok(())
}
