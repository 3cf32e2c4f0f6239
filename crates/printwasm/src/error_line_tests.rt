//! Tests of the line that is written for each error, at each length of its number. Expected texts are typed by hand.

use crate::error_lines::{ByDisplay, Render};
use std::alloc::Global;
use std::io;
use std::test::Fail;
use wasmprinter::Error;

/// Returns whether exactly this line is written for an error.
fn reports(alloc: Global, error: &Error, text: &str) -> Result<bool, Fail> {
    let mut err = Vec::new(alloc);
    ByDisplay.write_line(&mut err, error)?;
    Ok(err.as_slice() == text.as_bytes())
}

/// Places with each number of hexadecimal digits.
const PLACES: &[(u64, &str)] = &[
    (0x0, "0x0"),
    (0x1, "0x1"),
    (0x12, "0x12"),
    (0x123, "0x123"),
    (0x1234, "0x1234"),
    (0x1_2345, "0x12345"),
    (0x12_3456, "0x123456"),
    (0x123_4567, "0x1234567"),
    (0x1234_5678, "0x12345678"),
    (0x1_2345_6789, "0x123456789"),
    (0x12_3456_789a, "0x123456789a"),
    (0x123_4567_89ab, "0x123456789ab"),
    (0x1234_5678_9abc, "0x123456789abc"),
    (0x1_2345_6789_abcd, "0x123456789abcd"),
    (0x12_3456_789a_bcde, "0x123456789abcde"),
    (0x123_4567_89ab_cdef, "0x123456789abcdef"),
    (0xfedc_ba98_7654_3210, "0xfedcba9876543210"),
];

/// Returns each error that has a place, with the parts of its line before and after the place.
fn errors_at(place: u64) -> [(Error, &'static str, &'static str); 5] {
    [
        (
            Error::Malformed { place },
            "error: malformed module at byte ",
            "\n",
        ),
        (
            Error::TooManyLocals { place },
            "error: function at byte ",
            " has more than 50000 locals\n",
        ),
        (
            Error::EmptyTableInit { place },
            "error: table at byte ",
            " has an empty initialiser\n",
        ),
        (
            Error::FoldLegacy { place },
            "error: legacy exception operator at byte ",
            " can't be folded\n",
        ),
        (
            Error::FoldHint { place },
            "error: branch hint at byte ",
            " can't be folded\n",
        ),
    ]
}

/// Returns a text of three parts.
pub(crate) fn joined(
    alloc: Global,
    before: &str,
    middle: &str,
    after: &str,
) -> Result<String, Fail> {
    let mut text = String::from_str(alloc, before)?;
    text.push_str(middle)?;
    text.push_str(after)?;
    Ok(text)
}

/// Returns whether the line of an error consists of these three parts.
fn reports_parts(
    alloc: Global,
    error: &Error,
    before: &str,
    middle: &str,
    after: &str,
) -> Result<bool, Fail> {
    let line = joined(alloc, before, middle, after)?;
    reports(alloc, error, line.as_str())
}

/// Returns whether the line of each of these errors shows these digits between its parts.
fn show_digits(
    alloc: Global,
    rows: &[(Error, &'static str, &'static str)],
    digits: &str,
) -> Result<bool, Fail> {
    for (error, before, after) in rows {
        if !reports_parts(alloc, error, before, digits, after)? {
            return Ok(false);
        }
    }
    Ok(true)
}

/// Returns whether the line of each error with this place shows the place with these digits.
fn show_place(alloc: Global, place: u64, digits: &str) -> Result<bool, Fail> {
    show_digits(alloc, &errors_at(place), digits)
}

/// Returns the digits of the first of these places that is not shown with them, or `None` if there is no such
/// place.
fn first_other_digits(
    alloc: Global,
    rows: &[(u64, &'static str)],
) -> Result<Option<&'static str>, Fail> {
    for (place, digits) in rows {
        if !show_place(alloc, *place, digits)? {
            return Ok(Some(*digits));
        }
    }
    Ok(None)
}

/// Returns whether the line of each error with this place shows its hexadecimal digits, as formatting prints them.
fn show_formatted_place(alloc: Global, place: u64) -> Result<bool, Fail> {
    let digits = format!(in alloc; "0x{place:x}")?;
    show_place(alloc, place, digits.as_str())
}

/// Returns the first place up to 300 that is not shown with its digits, or `None` if there is no such place.
fn first_other_place(alloc: Global) -> Result<Option<u64>, Fail> {
    for place in 0..=300 {
        if !show_formatted_place(alloc, place)? {
            return Ok(Some(place));
        }
    }
    Ok(None)
}

#[test]
fn reports_places(rt: HostRuntime) -> Result<(), Fail> {
    let other = first_other_digits(rt.alloc(), PLACES)?;
    assert!(rt; other == None, "{other:?}");
    let other = first_other_place(rt.alloc())?;
    assert!(rt; other == None, "{other:?}");
    Ok(())
}

/// Counts of functions with each number of digits, with their lines.
const COUNTS: &[(u32, &str)] = &[
    (9, "error: module has 9 functions, more than 1000000\n"),
    (98, "error: module has 98 functions, more than 1000000\n"),
    (987, "error: module has 987 functions, more than 1000000\n"),
    (
        9_876,
        "error: module has 9876 functions, more than 1000000\n",
    ),
    (
        98_765,
        "error: module has 98765 functions, more than 1000000\n",
    ),
    (
        987_654,
        "error: module has 987654 functions, more than 1000000\n",
    ),
    (
        9_876_543,
        "error: module has 9876543 functions, more than 1000000\n",
    ),
    (
        98_765_432,
        "error: module has 98765432 functions, more than 1000000\n",
    ),
    (
        987_654_321,
        "error: module has 987654321 functions, more than 1000000\n",
    ),
    (
        4_294_967_295,
        "error: module has 4294967295 functions, more than 1000000\n",
    ),
];

/// Ids of subsections with each number of digits, with their lines.
const IDS: &[(u8, &str)] = &[
    (0, "error: unknown dylink.0 subsection 0\n"),
    (7, "error: unknown dylink.0 subsection 7\n"),
    (42, "error: unknown dylink.0 subsection 42\n"),
    (255, "error: unknown dylink.0 subsection 255\n"),
];

/// Returns the first of these counts with another line, or `None` if there is no such count.
fn first_other_count(alloc: Global, rows: &[(u32, &str)]) -> Result<Option<u32>, Fail> {
    for (count, line) in rows {
        if !reports(alloc, &Error::TooManyFunctions { count: *count }, line)? {
            return Ok(Some(*count));
        }
    }
    Ok(None)
}

/// Returns the first of these ids with another line, or `None` if there is no such id.
fn first_other_id(alloc: Global, rows: &[(u8, &str)]) -> Result<Option<u8>, Fail> {
    for (id, line) in rows {
        if !reports(alloc, &Error::DylinkSubsection { id: *id }, line)? {
            return Ok(Some(*id));
        }
    }
    Ok(None)
}

/// Returns the errors without a place and without a number, each with its line.
fn plain_errors() -> [(Error, &'static str); 4] {
    let failure = io::Error::other("no room");
    [
        (Error::Component, "error: components are not supported\n"),
        (Error::Unreadable, "error: the file can't be read\n"),
        (Error::Printer(failure), "error: the printer failed\n"),
        (Error::Memory, "error: out of memory\n"),
    ]
}

/// Returns the first of these lines that is not written for its error, or `None` if there is no such line.
fn first_other_line(
    alloc: Global,
    rows: &[(Error, &'static str)],
) -> Result<Option<&'static str>, Fail> {
    for (error, line) in rows {
        if !reports(alloc, error, line)? {
            return Ok(Some(*line));
        }
    }
    Ok(None)
}

#[test]
fn reports_errors_without_a_place(rt: HostRuntime) -> Result<(), Fail> {
    let other = first_other_count(rt.alloc(), COUNTS)?;
    assert!(rt; other == None, "count {other:?}");
    let other = first_other_id(rt.alloc(), IDS)?;
    assert!(rt; other == None, "id {other:?}");
    let other = first_other_line(rt.alloc(), &plain_errors())?;
    assert!(rt; other == None, "{other:?}");
    Ok(())
}
