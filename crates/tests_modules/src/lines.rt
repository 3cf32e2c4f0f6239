//! The lines of a text, each with its place. Expected values are typed by hand.

use crate::large::{COUNT, FIRST_BODY, LEN, large};
use std::alloc::{AllocError, Global};
use std::test::Fail;
use wasmprinter::{Config, Error, LineStart, OffsetsAndLines};
use wasmprinter_samples::{PREAMBLE, expect_text};

/// A line: the place of the item that it begins with, and its text with the line feed.
type Line = (Option<u64>, &'static str);

/// A module with a recursive group of one type.
const GROUP: &[u8] = &[
    0x00, 0x61, 0x73, 0x6d, 0x01, 0x00, 0x00, 0x00, // preamble
    0x01, 0x06, 0x01, 0x4e, 0x01, 0x60, 0x00, 0x00, // types
];

/// The lines of `GROUP`. The line that closes the group has no place.
const GROUP_LINES: &[Line] = &[
    (Some(0x0), "(module\n"),
    (Some(0xb), "  (rec\n"),
    (Some(0xd), "    (type (;0;) (func))\n"),
    (None, "  )\n"),
    (Some(0x10), ")\n"),
];

/// Reports whether the lines are the expected ones.
fn are_lines(found: OffsetsAndLines<'_>, expected: &[Line]) -> bool {
    found.eq(expected.iter().copied())
}

/// Appends the text of a module with these options to the storage, and returns its lines.
pub fn lines_by<'a>(
    config: &Config,
    alloc: Global,
    wasm: &[u8],
    storage: &'a mut String,
) -> Result<OffsetsAndLines<'a>, Error> {
    config.offsets_and_lines(alloc, wasm, storage)
}

/// Reports whether the lines of the module without fields are appended to the storage, and the whole text is then
/// the expected one.
fn is_appended(alloc: Global, storage: &mut String, expected: &str) -> Result<bool, Error> {
    let lines = lines_by(&Config::new(), alloc, PREAMBLE, storage)?;
    Ok(are_lines(lines, &[(Some(0x0), "(module)\n")]) && storage.as_str() == expected)
}

#[test]
fn appends_to_existing_text(rt: HostRuntime) -> Result<(), Fail> {
    let mut storage = String::from_str(rt.alloc(), "λ\n")?;
    assert!(rt; is_appended(rt.alloc(), &mut storage, "λ\n(module)\n")?);
    assert!(rt; is_appended(rt.alloc(), &mut storage, "λ\n(module)\n(module)\n")?);
    let mut old = String::from_str(rt.alloc(), "old\n")?;
    assert!(rt; is_appended(rt.alloc(), &mut old, "old\n(module)\n")?);
    Ok(())
}

#[test]
fn stays_at_the_end(rt: HostRuntime) -> Result<(), Fail> {
    let mut storage = String::new(rt.alloc());
    let mut lines = lines_by(&Config::new(), rt.alloc(), PREAMBLE, &mut storage)?;
    assert!(rt; lines.next() == Some((Some(0), "(module)\n")));
    assert!(rt; lines.next().is_none());
    assert!(rt; lines.next().is_none());
    Ok(())
}

/// The lines of the large module before those of its functions.
const LARGE_LINES: &[Line] = &[
    (Some(0x0), "(module\n"),
    (Some(0xb), "  (type (;0;) (func))\n"),
];

/// Returns the place of the body of this function of the large module.
fn body_place(number: u32) -> u64 {
    FIRST_BODY.saturating_add(u64::from(number).saturating_mul(3))
}

/// Reports whether the next lines are those of the functions of the large module.
fn are_functions(alloc: Global, lines: &mut OffsetsAndLines<'_>) -> Result<bool, AllocError> {
    for number in 0..COUNT {
        let line = format!(in alloc; "  (func (;{number};) (type 0))\n")?;
        if lines.next() != Some((Some(body_place(number)), line.as_str())) {
            return Ok(false);
        }
    }
    Ok(true)
}

/// Reports whether the next lines are the expected ones.
fn go_on_with(lines: &mut OffsetsAndLines<'_>, expected: &[Line]) -> bool {
    for line in expected {
        if lines.next() != Some(*line) {
            return false;
        }
    }
    true
}

#[test]
fn gives_all_lines_of_a_large_module(rt: HostRuntime) -> Result<(), Fail> {
    let wasm = large(rt.alloc())?;
    let mut storage = String::new(rt.alloc());
    let mut lines = lines_by(&Config::new(), rt.alloc(), &wasm, &mut storage)?;
    assert!(rt; go_on_with(&mut lines, LARGE_LINES));
    assert!(rt; are_functions(rt.alloc(), &mut lines)?);
    assert!(rt; are_lines(lines, &[(Some(LEN), ")\n")]));
    Ok(())
}

/// The line starts of `GROUP` after a text of four bytes: their places, and their byte offsets in the storage.
const GROUP_STARTS: &[LineStart] = &[
    LineStart {
        place: Some(0x0),
        at: 4,
    },
    LineStart {
        place: Some(0xb),
        at: 12,
    },
    LineStart {
        place: Some(0xd),
        at: 19,
    },
    LineStart {
        place: None,
        at: 43,
    },
    LineStart {
        place: Some(0x10),
        at: 47,
    },
];

#[test]
fn returns_where_lines_begin(rt: HostRuntime) -> Result<(), Fail> {
    let mut storage = String::from_str(rt.alloc(), "old\n")?;
    let starts = Config::new().print_with_line_starts(rt.alloc(), GROUP, &mut storage)?;
    expect_text(
        storage.as_str(),
        "old\n(module\n  (rec\n    (type (;0;) (func))\n  )\n)\n",
    )?;
    assert!(rt; starts.as_slice() == GROUP_STARTS);
    let lines = OffsetsAndLines::new(storage.as_str(), starts);
    assert!(rt; are_lines(lines, GROUP_LINES));
    Ok(())
}
