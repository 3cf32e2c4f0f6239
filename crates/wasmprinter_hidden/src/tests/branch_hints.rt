//! Tests of findings in sections with branch hints.

use crate::finding::Part;
use crate::tests::{Row, first_other_row};
use std::test::Fail;

/// The length and the bytes of the name of a section with branch hints, which are 26 bytes.
const NAME: &[u8] = b"\x19metadata.code.branch_hint";

/// A function section with one function. The section with hints after it starts at 0xc, and its data at 0x28.
const FUNCTION: &[u8] = &[0x03, 0x02, 0x01, 0x00];

/// A code section with one body. It has the operator `i32.const` at the offset 1 and the operator `if` at the offset 3.
const CODE: &[u8] = &[
    0x0a, 0x09, 0x01, 0x07, 0x00, 0x41, 0x00, 0x04, 0x40, 0x0b, 0x0b,
];

/// Hints, with or without an operator. A hint is three bytes long, or four if its offset is above 127.
const HINTS: &[Row] = &[
    (
        "the hint of an operator",
        &[
            FUNCTION,
            &[0x00, 0x20],
            NAME,
            &[0x01, 0x00, 0x01, 0x03, 0x01, 0x01],
            CODE,
        ],
        &[],
    ),
    (
        "a hint between operators",
        &[
            FUNCTION,
            &[0x00, 0x20],
            NAME,
            &[0x01, 0x00, 0x01, 0x02, 0x01, 0x01],
            CODE,
        ],
        &[(0x2b, Part::Hint, 3)],
    ),
    (
        "a hint after the body",
        &[
            FUNCTION,
            &[0x00, 0x21],
            NAME,
            &[0x01, 0x00, 0x01, 0xc8, 0x01, 0x01, 0x00],
            CODE,
        ],
        &[(0x2b, Part::Hint, 4)],
    ),
    (
        "a hint before another one, which it hides",
        &[
            FUNCTION,
            &[0x00, 0x23],
            NAME,
            &[0x01, 0x00, 0x02, 0x02, 0x01, 0x00, 0x03, 0x01, 0x01],
            CODE,
        ],
        &[(0x2b, Part::Hint, 3), (0x2e, Part::Hint, 3)],
    ),
    (
        "hints that are not in the order of operators",
        &[
            FUNCTION,
            &[0x00, 0x23],
            NAME,
            &[0x01, 0x00, 0x02, 0x03, 0x01, 0x00, 0x01, 0x01, 0x01],
            CODE,
        ],
        &[(0x2e, Part::Hint, 3)],
    ),
    (
        "hints of a missing function, which hide those of function 0",
        &[
            FUNCTION,
            &[0x00, 0x25],
            NAME,
            &[
                0x02, 0x05, 0x01, 0x03, 0x01, 0x01, 0x00, 0x01, 0x03, 0x01, 0x01,
            ],
            CODE,
        ],
        &[(0x2b, Part::Hint, 3), (0x30, Part::Hint, 3)],
    ),
    (
        "a long function index and a long offset",
        &[
            FUNCTION,
            &[0x00, 0x22],
            NAME,
            &[0x01, 0x80, 0x00, 0x01, 0x83, 0x00, 0x01, 0x01],
            CODE,
        ],
        &[(0x28, Part::CustomData, 2)],
    ),
    (
        "long counts",
        &[
            FUNCTION,
            &[0x00, 0x22],
            NAME,
            &[0x81, 0x00, 0x00, 0x81, 0x00, 0x03, 0x01, 0x01],
            CODE,
        ],
        &[(0x28, Part::CustomData, 2)],
    ),
    (
        "a hint with a long offset",
        &[
            FUNCTION,
            &[0x00, 0x21],
            NAME,
            &[0x01, 0x00, 0x01, 0x82, 0x00, 0x01, 0x01],
            CODE,
        ],
        &[(0x28, Part::CustomData, 1), (0x2b, Part::Hint, 3)],
    ),
];

/// Functions by their indices, which count imported functions.
const FUNCTIONS: &[Row] = &[
    (
        "a hint of function 1, after an imported function",
        &[
            &[0x02, 0x05, 0x01, 0x00, 0x00, 0x00, 0x00],
            FUNCTION,
            // 0x13: its data starts at 0x2f
            &[0x00, 0x20],
            NAME,
            &[0x01, 0x01, 0x01, 0x03, 0x01, 0x01],
            CODE,
        ],
        &[],
    ),
    (
        "a hint of an imported function",
        &[
            &[0x02, 0x05, 0x01, 0x00, 0x00, 0x00, 0x00],
            FUNCTION,
            &[0x00, 0x20],
            NAME,
            &[0x01, 0x00, 0x01, 0x03, 0x01, 0x01],
            CODE,
        ],
        &[(0x32, Part::Hint, 3)],
    ),
    (
        "hints of two defined functions, and of the first one again",
        &[
            &[0x03, 0x03, 0x02, 0x00, 0x00],
            // 0xd: its data starts at 0x29
            &[0x00, 0x2a],
            NAME,
            &[0x03, 0x00, 0x01, 0x01, 0x01, 0x01],
            &[0x01, 0x01, 0x01, 0x01, 0x01],
            // 0x34: the hint is at 0x36
            &[0x00, 0x01, 0x01, 0x01, 0x00],
            &[0x0a, 0x09, 0x02, 0x03, 0x00, 0x01, 0x0b],
            &[0x03, 0x00, 0x01, 0x0b],
        ],
        &[(0x36, Part::Hint, 3)],
    ),
    (
        "hints of the second function alone",
        &[
            &[0x03, 0x03, 0x02, 0x00, 0x00],
            &[0x00, 0x20],
            NAME,
            &[0x01, 0x01, 0x01, 0x01, 0x01, 0x01],
            &[0x0a, 0x09, 0x02, 0x03, 0x00, 0x01, 0x0b],
            &[0x03, 0x00, 0x01, 0x0b],
        ],
        &[],
    ),
];

/// Functions without hints.
const WITHOUT_HINTS: &[Row] = &[
    (
        "a function without hints after one with hints",
        &[
            FUNCTION,
            &[0x00, 0x22],
            NAME,
            &[0x02, 0x00, 0x01, 0x03, 0x01, 0x01, 0x01, 0x00],
            CODE,
        ],
        &[(0x28, Part::CustomData, 2)],
    ),
    (
        "a function without hints, which hides those of function 0",
        &[
            FUNCTION,
            &[0x00, 0x22],
            NAME,
            &[0x02, 0x01, 0x00, 0x00, 0x01, 0x03, 0x01, 0x01],
            CODE,
        ],
        &[(0x28, Part::CustomData, 2), (0x2d, Part::Hint, 3)],
    ),
    (
        "a function without hints alone",
        &[FUNCTION, &[0x00, 0x1d], NAME, &[0x01, 0x00, 0x00], CODE],
        &[(0x0e, Part::EmptyCustom, 29)],
    ),
];

/// Sections that give no hints.
const SECTIONS: &[Row] = &[
    (
        "no data",
        &[FUNCTION, &[0x00, 0x1a], NAME, CODE],
        &[(0x0e, Part::EmptyCustom, 26)],
    ),
    (
        "no data after a long name",
        &[
            FUNCTION,
            &[0x00, 0x1b],
            b"\x99\x00metadata.code.branch_hint",
            CODE,
        ],
        &[(0x0e, Part::EmptyCustom, 27)],
    ),
    (
        "no functions",
        &[FUNCTION, &[0x00, 0x1b], NAME, &[0x00], CODE],
        &[(0x0e, Part::EmptyCustom, 27)],
    ),
    (
        "no functions in a section before one that counts",
        &[
            FUNCTION,
            &[0x00, 0x1b],
            NAME,
            &[0x00],
            // 0x29
            &[0x00, 0x20],
            NAME,
            &[0x01, 0x00, 0x01, 0x03, 0x01, 0x01],
            CODE,
        ],
        &[(0x0e, Part::EmptyCustom, 27)],
    ),
    (
        "an unknown flag",
        &[
            FUNCTION,
            &[0x00, 0x20],
            NAME,
            &[0x01, 0x00, 0x01, 0x03, 0x01, 0x02],
            CODE,
        ],
        &[(0x28, Part::HintSection, 6)],
    ),
    (
        "a byte after the hints",
        &[
            FUNCTION,
            &[0x00, 0x21],
            NAME,
            &[0x01, 0x00, 0x01, 0x03, 0x01, 0x01, 0x00],
            CODE,
        ],
        &[(0x28, Part::HintSection, 7)],
    ),
    (
        "two sections, of which the second one counts",
        &[
            FUNCTION,
            &[0x00, 0x20],
            NAME,
            &[0x01, 0x00, 0x01, 0x03, 0x01, 0x01],
            // 0x2e: its data starts at 0x4a
            &[0x00, 0x20],
            NAME,
            &[0x01, 0x00, 0x01, 0x04, 0x01, 0x01],
            CODE,
        ],
        &[(0x28, Part::HintSection, 6), (0x4d, Part::Hint, 3)],
    ),
    (
        "three sections, of which the last two give no hints",
        &[
            FUNCTION,
            &[0x00, 0x20],
            NAME,
            &[0x01, 0x00, 0x01, 0x03, 0x01, 0x01],
            // 0x2e: its name starts at 0x30
            &[0x00, 0x1b],
            NAME,
            &[0x00],
            // 0x4b: its name starts at 0x4d
            &[0x00, 0x1a],
            NAME,
            CODE,
        ],
        &[
            (0x28, Part::HintSection, 6),
            (0x30, Part::EmptyCustom, 27),
            (0x4d, Part::EmptyCustom, 26),
        ],
    ),
    (
        "a long name before the data, and another custom section after it",
        &[
            FUNCTION,
            &[0x00, 0x21],
            b"\x99\x00metadata.code.branch_hint",
            // 0x29
            &[0x01, 0x00, 0x01, 0x02, 0x01, 0x01],
            // 0x2f
            &[0x00, 0x02, 0x01, 0x6e],
            CODE,
        ],
        &[(0x0e, Part::CustomName, 1), (0x2c, Part::Hint, 3)],
    ),
];

#[test]
fn finds_hints_of_no_operator(rt: HostRuntime) -> Result<(), Fail> {
    let other = first_other_row(rt.alloc(), HINTS)?;
    assert!(rt; other == None, "{other:?}");
    let other = first_other_row(rt.alloc(), FUNCTIONS)?;
    assert!(rt; other == None, "{other:?}");
    let other = first_other_row(rt.alloc(), WITHOUT_HINTS)?;
    assert!(rt; other == None, "{other:?}");
    Ok(())
}

#[test]
fn finds_sections_without_hints(rt: HostRuntime) -> Result<(), Fail> {
    let other = first_other_row(rt.alloc(), SECTIONS)?;
    assert!(rt; other == None, "{other:?}");
    Ok(())
}
