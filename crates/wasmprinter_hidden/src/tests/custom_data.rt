//! Tests of findings in the data of `producers` and `dylink.0` sections, and of name sections without data.

use crate::finding::Part;
use crate::tests::{Row, first_other_row};
use std::test::Fail;

/// The length and the bytes of the name `producers`, which are 10 bytes. The name of the first section starts at 0xa, and
/// its data at 0x14.
const PRODUCERS: &[u8] = b"\x09producers";

/// The length and the bytes of the name `dylink.0`, which are 9 bytes. The name of the first section starts at 0xa, and its
/// data at 0x13.
const DYLINK: &[u8] = b"\x08dylink.0";

/// Fields with values and without values.
const FIELDS: &[Row] = &[
    ("no fields", &[&[0x00, 0x0b], PRODUCERS, &[0x00]], &[]),
    (
        "a field with a value",
        &[&[0x00, 0x18], PRODUCERS, b"\x01\x08language\x01\x01C\x00"],
        &[],
    ),
    (
        "a field with two values",
        &[
            &[0x00, 0x1c],
            PRODUCERS,
            b"\x01\x08language\x02\x01C\x00\x01D\x011",
        ],
        &[],
    ),
    (
        "a field without values",
        &[&[0x00, 0x15], PRODUCERS, b"\x01\x08language\x00"],
        &[(0x14, Part::CustomData, 10)],
    ),
    (
        "a field without values before one with a value",
        &[
            &[0x00, 0x1d],
            PRODUCERS,
            b"\x02\x03sdk\x00\x08language\x01\x01C\x00",
        ],
        &[(0x14, Part::CustomData, 5)],
    ),
    (
        "long numbers",
        &[
            &[0x00, 0x1d],
            PRODUCERS,
            b"\x81\x00\x88\x00language\x81\x00\x81\x00C\x80\x00",
        ],
        &[(0x14, Part::CustomData, 5)],
    ),
    (
        "a long name before a field without values",
        &[&[0x00, 0x16], b"\x89\x00producers", b"\x01\x08language\x00"],
        &[(0x0a, Part::CustomName, 1), (0x15, Part::CustomData, 10)],
    ),
];

/// Sections with the name `producers` whose bytes the text repeats.
const RAW_FIELDS: &[Row] = &[
    ("no data", &[&[0x00, 0x0a], PRODUCERS], &[]),
    (
        "a byte after the fields",
        &[&[0x00, 0x16], PRODUCERS, b"\x01\x08language\x00\x00"],
        &[],
    ),
    (
        "a name of a field that is no identifier",
        &[&[0x00, 0x11], PRODUCERS, b"\x81\x00\x03a b\x00"],
        &[],
    ),
];

/// Subsections with lines in the text and without.
const SUBSECTIONS: &[Row] = &[
    ("no subsections", &[&[0x00, 0x09], DYLINK], &[]),
    (
        "shortest subsections of all kinds",
        &[
            &[0x00, 0x27],
            DYLINK,
            &[0x01, 0x04, 0x00, 0x00, 0x00, 0x00],
            &[0x02, 0x03, 0x01, 0x01, 0x61],
            &[0x03, 0x04, 0x01, 0x01, 0x61, 0x00],
            &[0x04, 0x06, 0x01, 0x01, 0x61, 0x01, 0x62, 0x00],
            &[0x05, 0x03, 0x01, 0x01, 0x2f],
        ],
        &[],
    ),
    (
        "flags above 127",
        &[
            &[0x00, 0x10],
            DYLINK,
            &[0x03, 0x05, 0x01, 0x01, 0x61, 0x80, 0x02],
        ],
        &[],
    ),
    (
        "an empty list of exports",
        &[&[0x00, 0x0c], DYLINK, &[0x03, 0x01, 0x00]],
        &[(0x13, Part::CustomData, 3)],
    ),
    (
        "an empty list of imports",
        &[&[0x00, 0x0c], DYLINK, &[0x04, 0x01, 0x00]],
        &[(0x13, Part::CustomData, 3)],
    ),
    (
        "an empty list of exports before one that is not empty",
        &[
            &[0x00, 0x12],
            DYLINK,
            &[0x03, 0x01, 0x00],
            &[0x03, 0x04, 0x01, 0x01, 0x61, 0x00],
        ],
        &[(0x13, Part::CustomData, 3)],
    ),
    (
        "an empty list of libraries, which the text shows",
        &[&[0x00, 0x0c], DYLINK, &[0x02, 0x01, 0x00]],
        &[],
    ),
    (
        "an empty list of paths, which the text shows",
        &[&[0x00, 0x0c], DYLINK, &[0x05, 0x01, 0x00]],
        &[],
    ),
];

/// Subsections with long numbers.
const LONG_SUBSECTIONS: &[Row] = &[
    (
        "long numbers in memory and table space",
        &[
            &[0x00, 0x14],
            DYLINK,
            &[0x01, 0x88, 0x00],
            &[0x80, 0x00, 0x80, 0x00, 0x80, 0x00, 0x80, 0x00],
        ],
        &[(0x13, Part::CustomData, 5)],
    ),
    (
        "long numbers in lists",
        &[
            &[0x00, 0x30],
            DYLINK,
            // 8 bytes in place of 5
            &[0x02, 0x85, 0x00, 0x81, 0x00, 0x81, 0x00, 0x61],
            // 10 bytes in place of 6
            &[0x03, 0x87, 0x00, 0x81, 0x00, 0x81, 0x00, 0x61, 0x80, 0x00],
            // 13 bytes in place of 8
            &[0x04, 0x8a, 0x00, 0x81, 0x00, 0x81, 0x00, 0x61],
            &[0x81, 0x00, 0x62, 0x80, 0x00],
            // 8 bytes in place of 5
            &[0x05, 0x85, 0x00, 0x81, 0x00, 0x81, 0x00, 0x2f],
        ],
        &[(0x13, Part::CustomData, 15)],
    ),
    (
        // The list has 128 bytes with a long count, and 127 bytes with a short one. The section's size has two bytes.
        "a size that needs two bytes only because of a long count",
        &[
            &[0x00, 0x8c, 0x01],
            DYLINK,
            &[0x02, 0x80, 0x01, 0x81, 0x00, 0x7d],
            &[0x61; 125],
        ],
        &[(0x14, Part::CustomData, 2)],
    ),
];

/// Sections with the name `dylink.0` without lines in the text: no text shows them, or the text repeats the bytes.
const OTHER_SUBSECTIONS: &[Row] = &[
    (
        "an unknown subsection, after an empty list of exports",
        &[
            &[0x00, 0x10],
            DYLINK,
            &[0x03, 0x01, 0x00, 0x06, 0x81, 0x00, 0x00],
        ],
        &[(0x13, Part::CustomData, 7)],
    ),
    (
        "a byte after an empty list of exports",
        &[&[0x00, 0x0d], DYLINK, &[0x03, 0x02, 0x00, 0x00]],
        &[],
    ),
];

/// Name sections without data.
const NAME_SECTIONS: &[Row] = &[
    (
        "a name section without data",
        &[&[0x00, 0x05], b"\x04name"],
        &[(0x0a, Part::EmptyCustom, 5)],
    ),
    (
        "a name section without data, with a long name",
        &[&[0x00, 0x06], b"\x84\x00name"],
        &[(0x0a, Part::EmptyCustom, 6)],
    ),
    (
        "a name section without data, with a long size",
        &[&[0x00, 0x85, 0x00], b"\x04name"],
        &[
            (0x09, Part::SectionSize(0), 1),
            (0x0b, Part::EmptyCustom, 5),
        ],
    ),
];

#[test]
fn finds_longer_producers(rt: HostRuntime) -> Result<(), Fail> {
    let other = first_other_row(rt.alloc(), FIELDS)?;
    assert!(rt; other == None, "{other:?}");
    let other = first_other_row(rt.alloc(), RAW_FIELDS)?;
    assert!(rt; other == None, "{other:?}");
    Ok(())
}

#[test]
fn finds_longer_subsections(rt: HostRuntime) -> Result<(), Fail> {
    let other = first_other_row(rt.alloc(), SUBSECTIONS)?;
    assert!(rt; other == None, "{other:?}");
    let other = first_other_row(rt.alloc(), LONG_SUBSECTIONS)?;
    assert!(rt; other == None, "{other:?}");
    let other = first_other_row(rt.alloc(), OTHER_SUBSECTIONS)?;
    assert!(rt; other == None, "{other:?}");
    Ok(())
}

#[test]
fn finds_name_sections_without_data(rt: HostRuntime) -> Result<(), Fail> {
    let other = first_other_row(rt.alloc(), NAME_SECTIONS)?;
    assert!(rt; other == None, "{other:?}");
    Ok(())
}
