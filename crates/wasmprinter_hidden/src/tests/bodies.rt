//! Tests of findings in the code section: in its count, in the sizes of bodies, and in locals.

use crate::finding::Part;
use crate::tests::{Row, first_other_row};
use std::test::Fail;

/// A function section with one function. The code section after it starts at 0xc, and its contents at 0xe.
const FUNCTION: &[u8] = &[0x03, 0x02, 0x01, 0x00];

/// The count of bodies, and their sizes. The count is one part with the size of the first body.
const SIZES: &[Row] = &[
    (
        "a first body with its size in three bytes",
        &[FUNCTION, &[0x0a, 0x06, 0x01, 0x82, 0x80, 0x00, 0x00, 0x0b]],
        &[(0x0e, Part::Count(10), 2)],
    ),
    (
        "a long count before it",
        &[
            FUNCTION,
            &[0x0a, 0x07, 0x81, 0x00, 0x82, 0x80, 0x00, 0x00, 0x0b],
        ],
        &[(0x0e, Part::Count(10), 3)],
    ),
    (
        "two other bodies with long sizes",
        &[
            &[0x03, 0x04, 0x03, 0x00, 0x00, 0x00],
            &[0x0a, 0x0d, 0x03, 0x02, 0x00, 0x0b],
            // 0x14
            &[0x82, 0x00, 0x00, 0x0b],
            // 0x18
            &[0x82, 0x80, 0x00, 0x00, 0x0b],
        ],
        &[(0x14, Part::BodySize, 1), (0x18, Part::BodySize, 2)],
    ),
    (
        "a body of 128 bytes with its size in two bytes",
        &[
            FUNCTION,
            &[0x0a, 0x83, 0x01, 0x01, 0x80, 0x01, 0x00],
            &[0x01; 126],
            &[0x0b],
        ],
        &[],
    ),
    (
        "a body of 127 bytes with its size in two bytes",
        &[
            FUNCTION,
            &[0x0a, 0x82, 0x01, 0x01, 0xff, 0x00, 0x00],
            &[0x01; 125],
            &[0x0b],
        ],
        &[(0x0f, Part::Count(10), 1)],
    ),
];

/// Locals, and instructions after them. A body starts at 0x10.
const LOCALS: &[Row] = &[
    (
        "no groups, by a long count",
        &[FUNCTION, &[0x0a, 0x05, 0x01, 0x03, 0x80, 0x00, 0x0b]],
        &[(0x10, Part::LocalCount, 1)],
    ),
    (
        "a long count of groups, and a long number of locals",
        &[
            FUNCTION,
            &[0x0a, 0x08, 0x01, 0x06, 0x81, 0x00, 0x82, 0x00, 0x7f, 0x0b],
        ],
        &[(0x10, Part::LocalCount, 1), (0x12, Part::LocalGroup, 1)],
    ),
    (
        "a last group of a nullable type after 63",
        &[
            FUNCTION,
            &[0x0a, 0x07, 0x01, 0x05, 0x01, 0x01, 0x63, 0x70, 0x0b],
        ],
        &[(0x11, Part::LocalGroup, 1)],
    ),
    (
        "three groups before instructions",
        &[
            FUNCTION,
            &[0x0a, 0x10, 0x01, 0x0e, 0x03, 0x01, 0x7f],
            // 0x13: no locals
            &[0x80, 0x00, 0x7e],
            // 0x16: a nullable type after 63
            &[0x01, 0x63, 0x70],
            // 0x19
            &[0x41, 0x80, 0x00],
            &[0x1a, 0x0b],
        ],
        &[
            (0x13, Part::LocalGroup, 3),
            (0x16, Part::LocalGroup, 1),
            (0x19, Part::Instruction, 1),
        ],
    ),
    (
        "groups without locals, one of a type that the module does not have",
        &[
            FUNCTION,
            &[0x0a, 0x0a, 0x01, 0x08, 0x02],
            // 0x11
            &[0x00, 0x7e],
            // 0x13
            &[0x00, 0x64, 0xef, 0x00],
            &[0x0b],
        ],
        &[(0x11, Part::LocalGroup, 2), (0x13, Part::LocalGroup, 4)],
    ),
    (
        "instructions before the end of a body, and a body after it",
        &[
            &[0x03, 0x03, 0x02, 0x00, 0x00],
            &[0x0a, 0x11, 0x02, 0x05, 0x00],
            // 0x12
            &[0x20, 0x80, 0x00, 0x0b],
            // 0x16: the size, and the count of groups
            &[0x88, 0x00, 0x81, 0x00, 0x01, 0x7f],
            // 0x1c
            &[0x20, 0x80, 0x00, 0x0b],
        ],
        &[
            (0x12, Part::Instruction, 1),
            (0x16, Part::BodySize, 1),
            (0x18, Part::LocalCount, 1),
            (0x1c, Part::Instruction, 1),
        ],
    ),
];

#[test]
fn finds_sizes_of_bodies(rt: HostRuntime) -> Result<(), Fail> {
    let other = first_other_row(rt.alloc(), SIZES)?;
    assert!(rt; other == None, "{other:?}");
    Ok(())
}

#[test]
fn finds_locals(rt: HostRuntime) -> Result<(), Fail> {
    let other = first_other_row(rt.alloc(), LOCALS)?;
    assert!(rt; other == None, "{other:?}");
    Ok(())
}
