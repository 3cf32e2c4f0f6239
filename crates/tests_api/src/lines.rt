//! Tests of lines with their places, and of finding the line of an operator.

use std::alloc::Global;
use std::test::Fail;
use wasmprinter::wasm::decode;
use wasmprinter::{Config, Error, LineStart, OffsetsAndLines, place_of};
use wasmprinter_samples::{IDENTITY, IDENTITY_TEXT, expect_text};

/// A line: its place and its text.
type Line = (Option<u64>, &'static str);

/// The lines of `IDENTITY`.
const LINES: &[Line] = &[
    (Some(0x0), "(module\n"),
    (
        Some(0xb),
        "  (type (;0;) (func (param i32) (result i32)))\n",
    ),
    (Some(0x17), "  (export \"f\" (func 0))\n"),
    (
        Some(0x1f),
        "  (func (;0;) (type 0) (param i32) (result i32)\n",
    ),
    (Some(0x20), "    local.get 0\n"),
    (Some(0x22), "  )\n"),
    (Some(0x23), ")\n"),
];

/// Reports whether the remaining lines are exactly these.
fn are_lines(lines: OffsetsAndLines<'_>, expected: &[Line]) -> bool {
    lines.eq(expected.iter().copied())
}

#[test]
fn prints_lines_with_places(rt: HostRuntime) -> Result<(), Fail> {
    let mut storage = String::new(rt.alloc());
    let lines = Config::new().offsets_and_lines(rt.alloc(), IDENTITY, &mut storage)?;
    assert!(rt; are_lines(lines, LINES));
    expect_text(storage.as_str(), IDENTITY_TEXT)?;
    Ok(())
}

/// The starts of the first two lines of `IDENTITY` after a text of two bytes.
const STARTS: &[LineStart] = &[
    LineStart {
        place: Some(0),
        at: 2,
    },
    LineStart {
        place: Some(0xb),
        at: 10,
    },
];

#[test]
fn prints_a_text_with_the_starts_of_its_lines(rt: HostRuntime) -> Result<(), Fail> {
    let mut storage = "; ".to_string(rt.alloc())?;
    let starts = Config::new().print_with_line_starts(rt.alloc(), IDENTITY, &mut storage)?;
    assert!(rt; starts.len() == 7);
    assert!(rt; starts.starts_with(STARTS));
    assert!(rt; are_lines(OffsetsAndLines::new(storage.as_str(), starts), LINES));
    Ok(())
}

/// Returns the number of the line of an operator of `IDENTITY`, and the operator's place.
fn found(alloc: Global, function: u32, operator: u32) -> Result<Option<(usize, u64)>, Error> {
    let mut storage = String::new(alloc);
    let lines = Config::new().offsets_and_lines(alloc, IDENTITY, &mut storage)?;
    let all: Vec<(Option<u64>, &str)> = lines.collect(alloc)?;
    let module = decode(alloc, IDENTITY)?;
    Ok(place_of(&module, &all, function, operator))
}

#[test]
fn finds_the_line_of_an_operator(rt: HostRuntime) -> Result<(), Fail> {
    assert!(rt; found(rt.alloc(), 0, 0)? == Some((4, 0x20)));
    assert!(rt; found(rt.alloc(), 0, 1)? == None);
    assert!(rt; found(rt.alloc(), 1, 0)? == None);
    Ok(())
}
