//! Tests of each error: short modules that are refused with it, and its text.

use crate::printing::{print_to, text_by, text_of};
use std::alloc::{AllocError, Global};
use std::io;
use std::io::Write;
use std::test::Fail;
use wasmprinter::wasm::decode;
use wasmprinter::{Config, Error, PrintIoWrite};
use wasmprinter_samples::PREAMBLE;

/// Returns one error of each kind, with its text.
fn texts() -> [(Error, &'static str); 11] {
    [
        (
            Error::Malformed { place: 0x1f },
            "malformed module at byte 0x1f",
        ),
        (Error::Component, "components are not supported"),
        (
            Error::TooManyLocals { place: 0x16 },
            "function at byte 0x16 has more than 50000 locals",
        ),
        (
            Error::TooManyFunctions { count: 1_000_001 },
            "module has 1000001 functions, more than 1000000",
        ),
        (
            Error::EmptyTableInit { place: 0x0b },
            "table at byte 0xb has an empty initialiser",
        ),
        (
            Error::FoldLegacy { place: 0x17 },
            "legacy exception operator at byte 0x17 can't be folded",
        ),
        (
            Error::FoldHint { place: 0x31 },
            "branch hint at byte 0x31 can't be folded",
        ),
        (
            Error::DylinkSubsection { id: 9 },
            "unknown dylink.0 subsection 9",
        ),
        (Error::Unreadable, "the file can't be read"),
        (
            Error::Printer(io::Error::other("full")),
            "the printer failed",
        ),
        (Error::Memory, "out of memory"),
    ]
}

/// Reports whether an error has this text.
fn is_described(alloc: Global, error: &Error, expected: &str) -> Result<bool, AllocError> {
    let text = format!(in alloc; "{error}")?;
    Ok(text.as_str() == expected)
}

/// Returns the first of these texts that its error does not have, or `None` if there is no such text.
fn first_other(
    alloc: Global,
    rows: &[(Error, &'static str)],
) -> Result<Option<&'static str>, AllocError> {
    for (error, expected) in rows {
        if !is_described(alloc, error, expected)? {
            return Ok(Some(*expected));
        }
    }
    Ok(None)
}

#[test]
fn describes_each_error(rt: HostRuntime) -> Result<(), Fail> {
    let other = first_other(rt.alloc(), &texts())?;
    assert!(rt; other == None, "{other:?}");
    Ok(())
}

/// The preamble of a component.
const COMPONENT: &[u8] = &[0x00, 0x61, 0x73, 0x6d, 0x0d, 0x00, 0x01, 0x00];

/// A module whose function has 50,001 locals.
const MANY_LOCALS: &[u8] = &[
    0x00, 0x61, 0x73, 0x6d, 0x01, 0x00, 0x00, 0x00, // preamble
    0x01, 0x04, 0x01, 0x60, 0x00, 0x00, // types
    0x03, 0x02, 0x01, 0x00, // functions
    0x0a, 0x08, 0x01, 0x06, 0x01, 0xd1, 0x86, 0x03, 0x7f, 0x0b, // code, with the body at 0x16
];

/// A module with a table whose initialiser is empty.
const EMPTY_INITIALISER: &[u8] = &[
    0x00, 0x61, 0x73, 0x6d, 0x01, 0x00, 0x00, 0x00, // preamble
    0x04, 0x07, 0x01, 0x40, 0x00, 0x70, 0x00, 0x01, 0x0b, // tables, the first of them at 0x0b
];

/// A module with a `dylink.0` section that has an unknown subsection.
const UNKNOWN_SUBSECTION: &[u8] = &[
    0x00, 0x61, 0x73, 0x6d, 0x01, 0x00, 0x00, 0x00, // preamble
    0x00, 0x0b, 0x08, 0x64, 0x79, 0x6c, 0x69, 0x6e, 0x6b, 0x2e, 0x30, 0x09, 0x00,
];

/// Returns the error with which printing a module with the default options fails, or `None` if it is printed.
fn refusal_of(alloc: Global, wasm: &[u8]) -> Option<Error> {
    text_of(alloc, wasm).err()
}

/// Returns the error with which decoding a module fails, or `None` if it is decoded.
fn decoding_refusal_of(alloc: Global, wasm: &[u8]) -> Option<Error> {
    decode(alloc, wasm).err()
}

#[test]
fn refuses_modules_with_the_error_of_each_fault(rt: HostRuntime) {
    let refused = refusal_of(rt.alloc(), b"(module)");
    assert!(rt; matches!(refused, Some(Error::Malformed { place: 0 })));
    let refused = refusal_of(rt.alloc(), COMPONENT);
    assert!(rt; matches!(refused, Some(Error::Component)));
    let refused = decoding_refusal_of(rt.alloc(), MANY_LOCALS);
    assert!(rt; matches!(refused, Some(Error::TooManyLocals { place: 0x16 })));
    let refused = decoding_refusal_of(rt.alloc(), EMPTY_INITIALISER);
    assert!(rt; matches!(refused, Some(Error::EmptyTableInit { place: 0x0b })));
    let refused = refusal_of(rt.alloc(), UNKNOWN_SUBSECTION);
    assert!(rt; matches!(refused, Some(Error::DylinkSubsection { id: 9 })));
}

/// A module whose function has a `try`.
const TRY: &[u8] = &[
    0x00, 0x61, 0x73, 0x6d, 0x01, 0x00, 0x00, 0x00, // preamble
    0x01, 0x04, 0x01, 0x60, 0x00, 0x00, // types
    0x03, 0x02, 0x01, 0x00, // functions
    0x0a, 0x07, 0x01, 0x05, 0x00, 0x06, 0x40, 0x0b, 0x0b, // code, with the `try` at 0x17
];

/// A module whose function has a branch hint for a `block`.
const HINTED: &[u8] = &[
    0x00, 0x61, 0x73, 0x6d, 0x01, 0x00, 0x00, 0x00, // preamble
    0x01, 0x04, 0x01, 0x60, 0x00, 0x00, // types
    0x03, 0x02, 0x01, 0x00, // functions
    0x00, 0x20, 0x19, 0x6d, 0x65, 0x74, 0x61, 0x64, 0x61, 0x74, 0x61, 0x2e, 0x63, 0x6f, 0x64, 0x65,
    0x2e, 0x62, 0x72, 0x61, 0x6e, 0x63, 0x68, 0x5f, 0x68, 0x69, 0x6e, 0x74, // the name
    0x01, 0x00, 0x01, 0x01, 0x01, 0x01, // the hint, at 0x31
    0x0a, 0x07, 0x01, 0x05, 0x00, 0x02, 0x40, 0x0b, 0x0b, // code
];

/// Returns the error with which printing a module with folded operators fails, or `None` if it is printed.
fn folding_refusal_of(alloc: Global, wasm: &[u8]) -> Option<Error> {
    let mut config = Config::new();
    config.fold_instructions(true);
    text_by(&config, alloc, wasm).err()
}

#[test]
fn refuses_what_can_not_be_folded(rt: HostRuntime) {
    let refused = folding_refusal_of(rt.alloc(), TRY);
    assert!(rt; matches!(refused, Some(Error::FoldLegacy { place: 0x17 })));
    let refused = folding_refusal_of(rt.alloc(), HINTED);
    assert!(rt; matches!(refused, Some(Error::FoldHint { place: 0x31 })));
}

/// A writer whose every write fails.
#[derive(Drop)]
struct Full;

impl Write for Full {
    fn write(&mut self, _buf: &[u8]) -> io::Result<usize> {
        Err(io::Error::other("full"))
    }

    fn flush(&mut self) -> io::Result<()> {
        Ok(())
    }
}

#[test]
fn returns_the_error_of_a_printer(rt: HostRuntime) {
    let printed = print_to(rt.alloc(), PREAMBLE, &mut PrintIoWrite(Full));
    assert!(rt; matches!(printed, Err(Error::Printer(_))));
}
