//! Tests of findings in the data of name sections.

use crate::finding::Part;
use crate::tests::{Row, first_other_row};
use std::test::Fail;

/// The length and the bytes of the name of a name section.
const NAME: &[u8] = b"\x04name";

/// Name sections as the only section of a module, which has nothing but itself to be named. The data starts at 0xf.
const ALONE: &[Row] = &[
    (
        "no data",
        &[&[0x00, 0x05], NAME],
        &[(0x0a, Part::EmptyCustom, 5)],
    ),
    (
        "the name of the module",
        &[&[0x00, 0x09], NAME, &[0x00, 0x02, 0x01, 0x6d]],
        &[],
    ),
    (
        "a long length of the name of the module",
        &[&[0x00, 0x0a], NAME, &[0x00, 0x03, 0x81, 0x00, 0x6d]],
        &[(0x11, Part::Name, 1)],
    ),
    (
        "a long size of a subsection",
        &[&[0x00, 0x0a], NAME, &[0x00, 0x82, 0x00, 0x01, 0x6d]],
        &[(0x10, Part::NameSubsectionSize(0), 1)],
    ),
    (
        "a long length of the name of the section, before the data",
        &[
            &[0x00, 0x0b],
            b"\x84\x00name",
            &[0x00, 0x03, 0x81, 0x00, 0x6d],
        ],
        &[(0x0a, Part::CustomName, 1), (0x12, Part::Name, 1)],
    ),
    (
        "a name of no function, after a long count",
        &[
            &[0x00, 0x0c],
            NAME,
            &[0x01, 0x05, 0x81, 0x00, 0x00, 0x01, 0x66],
        ],
        &[(0x11, Part::NameCount, 1), (0x13, Part::NameOfNothing, 3)],
    ),
    (
        "unknown subsections before a known one",
        &[
            &[0x00, 0x17],
            NAME,
            &[0x0c, 0x00],
            // 0x11
            &[0x7f, 0x02, 0xaa, 0xbb],
            // 0x15: the size is a part of it
            &[0xff, 0x82, 0x80, 0x00, 0xaa, 0xbb],
            // 0x1b
            &[0x00, 0x83, 0x00, 0x02, 0x6d, 0x6e],
        ],
        &[
            (0x0f, Part::NameSubsection(12), 2),
            (0x11, Part::NameSubsection(127), 4),
            (0x15, Part::NameSubsection(255), 6),
            (0x1c, Part::NameSubsectionSize(0), 1),
        ],
    ),
];

/// Bytes that are not read. The data starts at 0xf.
const UNREAD: &[Row] = &[
    (
        "bytes after the content of a subsection, which another one follows",
        &[
            &[0x00, 0x0f],
            NAME,
            &[0x00, 0x04, 0x01, 0x6d, 0xaa, 0xbb],
            // 0x15: a list without names
            &[0x01, 0x02, 0x80, 0x00],
        ],
        &[
            (0x13, Part::UnreadNames, 2),
            (0x15, Part::NameSubsection(1), 4),
        ],
    ),
    (
        "all bytes from a name on that is not UTF-8",
        &[
            &[0x00, 0x0c],
            NAME,
            &[0x00, 0x02, 0x01, 0xff],
            &[0x01, 0x01, 0x00],
        ],
        &[(0x11, Part::UnreadNames, 5)],
    ),
    (
        "all bytes after a subsection with too few names",
        &[
            &[0x00, 0x10],
            NAME,
            // 0x13: the only one of three names
            &[0x01, 0x05, 0x83, 0x00, 0x07, 0x01, 0x66],
            // 0x16
            &[0x00, 0x02, 0x01, 0x6d],
        ],
        &[
            (0x11, Part::NameCount, 1),
            (0x13, Part::NameOfNothing, 3),
            (0x16, Part::UnreadNames, 4),
        ],
    ),
    (
        "missing names at the end of the section, after too few names",
        &[
            &[0x00, 0x0c],
            NAME,
            &[0x01, 0x05, 0x83, 0x00, 0x07, 0x01, 0x66],
        ],
        &[
            (0x11, Part::NameCount, 1),
            (0x13, Part::NameOfNothing, 3),
            (0x16, Part::MissingNames, 0),
        ],
    ),
    (
        "all bytes after a function without a count of names",
        &[
            &[0x00, 0x0e],
            NAME,
            // 0x12: the function
            &[0x02, 0x03, 0x01, 0x80, 0x00],
            // 0x14
            &[0x00, 0x02, 0x01, 0x6d],
        ],
        &[(0x12, Part::NameOwner, 1), (0x14, Part::UnreadNames, 4)],
    ),
    (
        "a subsection that ends after the section",
        &[&[0x00, 0x08], NAME, &[0x01, 0x05, 0x00]],
        &[(0x0f, Part::UnreadNames, 3)],
    ),
    (
        "an id without a size",
        &[&[0x00, 0x0a], NAME, &[0x00, 0x02, 0x01, 0x6d, 0x01]],
        &[(0x13, Part::UnreadNames, 1)],
    ),
];

/// Name sections that end before the last name that they count. The data starts at 0xf.
const MISSING: &[Row] = &[
    (
        "no count",
        &[&[0x00, 0x07], NAME, &[0x01, 0x00]],
        &[(0x11, Part::MissingNames, 0)],
    ),
    (
        "no name of the module",
        &[&[0x00, 0x07], NAME, &[0x00, 0x00]],
        &[(0x11, Part::MissingNames, 0)],
    ),
    (
        "no name after the count, before another name section",
        &[
            &[0x00, 0x08],
            NAME,
            &[0x01, 0x01, 0x01],
            // 0x12
            &[0x00, 0x09],
            NAME,
            &[0x00, 0x02, 0x01, 0x6d],
        ],
        &[(0x12, Part::MissingNames, 0)],
    ),
    (
        "no function after the count of functions",
        &[&[0x00, 0x08], NAME, &[0x02, 0x01, 0x01]],
        &[(0x12, Part::MissingNames, 0)],
    ),
    (
        "no count after a function",
        &[&[0x00, 0x09], NAME, &[0x02, 0x02, 0x01, 0x00]],
        &[(0x13, Part::MissingNames, 0)],
    ),
    (
        "no local after the count of locals",
        &[&[0x00, 0x0a], NAME, &[0x02, 0x03, 0x01, 0x00, 0x01]],
        &[(0x14, Part::MissingNames, 0)],
    ),
    (
        "a name that is cut off, whose bytes are not read",
        &[&[0x00, 0x0a], NAME, &[0x01, 0x03, 0x01, 0x00, 0x01]],
        &[(0x12, Part::UnreadNames, 2)],
    ),
    (
        "an empty name of the module, which is not missing",
        &[&[0x00, 0x08], NAME, &[0x00, 0x01, 0x00]],
        &[],
    ),
];

/// Subsections that are lists without entries. The data starts at 0xf.
const EMPTY_LISTS: &[Row] = &[
    (
        "each kind of list",
        &[
            &[0x00, 0x26],
            NAME,
            &[0x01, 0x01, 0x00, 0x02, 0x01, 0x00, 0x03, 0x01, 0x00],
            // 0x18
            &[0x04, 0x01, 0x00, 0x05, 0x01, 0x00, 0x06, 0x01, 0x00],
            // 0x21
            &[0x07, 0x01, 0x00, 0x08, 0x01, 0x00, 0x09, 0x01, 0x00],
            // 0x2a
            &[0x0a, 0x01, 0x00, 0x0b, 0x01, 0x00],
        ],
        &[
            (0x0f, Part::NameSubsection(1), 3),
            (0x12, Part::NameSubsection(2), 3),
            (0x15, Part::NameSubsection(3), 3),
            (0x18, Part::NameSubsection(4), 3),
            (0x1b, Part::NameSubsection(5), 3),
            (0x1e, Part::NameSubsection(6), 3),
            (0x21, Part::NameSubsection(7), 3),
            (0x24, Part::NameSubsection(8), 3),
            (0x27, Part::NameSubsection(9), 3),
            (0x2a, Part::NameSubsection(10), 3),
            (0x2d, Part::NameSubsection(11), 3),
        ],
    ),
    (
        "a list with a long size and a long count",
        &[&[0x00, 0x0b], NAME, &[0x01, 0x83, 0x00, 0x80, 0x80, 0x00]],
        &[(0x0f, Part::NameSubsection(1), 6)],
    ),
    (
        "lists with bytes after their count, before the name of the module",
        &[
            &[0x00, 0x14],
            NAME,
            &[0x01, 0x03, 0x00, 0xaa, 0xbb],
            // 0x14
            &[0x02, 0x03, 0x80, 0x00, 0x01],
            // 0x19
            &[0x00, 0x03, 0x81, 0x00, 0x6d],
        ],
        &[
            (0x0f, Part::NameSubsection(1), 5),
            (0x14, Part::NameSubsection(2), 5),
            (0x1b, Part::Name, 1),
        ],
    ),
];

/// Sections with an item of each kind, and with two types and two functions: function 0 is imported and has a parameter,
/// function 1 has a parameter, two locals and two blocks. Type 1 is a structure with two fields. The name section after
/// them starts at 0x51, and its data at 0x58.
const ITEMS: &[u8] = b"\
    \x01\x0b\x02\x60\x01\x7f\x00\x5f\x02\x7f\x00\x7f\x00\
    \x02\x05\x01\x00\x00\x00\x00\
    \x03\x02\x01\x00\
    \x04\x04\x01\x70\x00\x01\
    \x05\x03\x01\x00\x01\
    \x0d\x03\x01\x00\x00\
    \x06\x06\x01\x7f\x00\x41\x00\x0b\
    \x09\x04\x01\x01\x00\x00\
    \x0a\x0c\x01\x0a\x01\x02\x7e\x02\x40\x03\x40\x0b\x0b\x0b\
    \x0b\x03\x01\x01\x00";

/// Names of the last item of each kind, and of the one after it, which is missing.
const OF_ITEMS: &[Row] = &[
    (
        "the module, functions, locals and labels",
        &[
            ITEMS,
            &[0x00, 0x2e],
            NAME,
            &[0x00, 0x02, 0x01, 0x6d],
            // 0x62: the function 2
            &[0x01, 0x07, 0x02, 0x01, 0x01, 0x61, 0x02, 0x01, 0x62],
            // 0x6c: the local 1 of function 0. 0x72: the local 3 of function 1
            &[
                0x02, 0x0d, 0x02, 0x00, 0x02, 0x00, 0x00, 0x01, 0x00, 0x01, 0x02, 0x02, 0x00, 0x03,
                0x00,
            ],
            // 0x79: a label of function 0. 0x7f: the label 2 of function 1
            &[
                0x03, 0x0b, 0x02, 0x00, 0x01, 0x00, 0x00, 0x01, 0x02, 0x01, 0x00, 0x02, 0x00,
            ],
        ],
        &[
            (0x62, Part::NameOfNothing, 3),
            (0x6c, Part::NameOfNothing, 2),
            (0x72, Part::NameOfNothing, 2),
            (0x79, Part::NameOfNothing, 2),
            (0x7f, Part::NameOfNothing, 2),
        ],
    ),
    (
        "items of other kinds, and fields",
        &[
            ITEMS,
            &[0x00, 0x43],
            NAME,
            &[0x04, 0x05, 0x02, 0x01, 0x00, 0x02, 0x00],
            // 0x5f
            &[0x05, 0x05, 0x02, 0x00, 0x00, 0x01, 0x00],
            &[0x06, 0x05, 0x02, 0x00, 0x00, 0x01, 0x00],
            &[0x07, 0x05, 0x02, 0x00, 0x00, 0x01, 0x00],
            &[0x08, 0x05, 0x02, 0x00, 0x00, 0x01, 0x00],
            &[0x09, 0x05, 0x02, 0x00, 0x00, 0x01, 0x00],
            // 0x87: a field of type 0, which is no structure. 0x8d: the field 2 of type 1
            &[
                0x0a, 0x0b, 0x02, 0x00, 0x01, 0x00, 0x00, 0x01, 0x02, 0x01, 0x00, 0x02, 0x00,
            ],
            // 0x8f
            &[0x0b, 0x05, 0x02, 0x00, 0x00, 0x01, 0x00],
        ],
        &[
            (0x5d, Part::NameOfNothing, 2),
            (0x64, Part::NameOfNothing, 2),
            (0x6b, Part::NameOfNothing, 2),
            (0x72, Part::NameOfNothing, 2),
            (0x79, Part::NameOfNothing, 2),
            (0x80, Part::NameOfNothing, 2),
            (0x87, Part::NameOfNothing, 2),
            (0x8d, Part::NameOfNothing, 2),
            (0x94, Part::NameOfNothing, 2),
        ],
    ),
    (
        "long numbers in names of functions and locals",
        &[
            ITEMS,
            &[0x00, 0x22],
            NAME,
            // 0x5a: the count. 0x5c: an index. 0x60: the length of a name
            &[
                0x01, 0x0a, 0x82, 0x00, 0x80, 0x00, 0x01, 0x66, 0x01, 0x81, 0x00, 0x67,
            ],
            // 0x65: the size. 0x68: the count. 0x6a: the function
            &[0x02, 0x8d, 0x80, 0x00, 0x81, 0x00, 0x81, 0x80, 0x00],
            // 0x6d: the count. 0x6f: a local and the length of its name
            &[0x82, 0x00, 0x80, 0x00, 0x80, 0x00, 0x02, 0x00],
        ],
        &[
            (0x5a, Part::NameCount, 1),
            (0x5c, Part::Name, 1),
            (0x60, Part::Name, 1),
            (0x65, Part::NameSubsectionSize(2), 2),
            (0x68, Part::NameCount, 1),
            (0x6a, Part::NameOwner, 2),
            (0x6d, Part::NameCount, 1),
            (0x6f, Part::Name, 2),
        ],
    ),
];

/// Functions and types without names. The data starts at 0x58.
const WITHOUT_NAMES: &[Row] = &[
    (
        "a function without locals, one without labels, and a type without fields",
        &[
            ITEMS,
            &[0x00, 0x14],
            NAME,
            &[0x02, 0x03, 0x01, 0x01, 0x00],
            // 0x5d
            &[0x03, 0x03, 0x01, 0x01, 0x00],
            // 0x62
            &[0x0a, 0x03, 0x01, 0x01, 0x00],
        ],
        &[
            (0x5b, Part::OwnerWithoutNames, 2),
            (0x60, Part::OwnerWithoutNames, 2),
            (0x65, Part::OwnerWithoutNames, 2),
        ],
    ),
    (
        "a long function and a long count",
        &[
            ITEMS,
            &[0x00, 0x0d],
            NAME,
            &[0x02, 0x06, 0x01, 0x81, 0x00, 0x80, 0x80, 0x00],
        ],
        &[(0x5b, Part::OwnerWithoutNames, 5)],
    ),
    (
        "a function without names between functions with names",
        &[
            ITEMS,
            &[0x00, 0x14],
            NAME,
            &[0x02, 0x0d, 0x03],
            &[0x00, 0x01, 0x00, 0x01, 0x78],
            // 0x60
            &[0x01, 0x00],
            &[0x01, 0x01, 0x00, 0x01, 0x79],
        ],
        &[(0x60, Part::OwnerWithoutNames, 2)],
    ),
    (
        "a missing function, without names",
        &[ITEMS, &[0x00, 0x0a], NAME, &[0x02, 0x03, 0x01, 0x07, 0x00]],
        &[(0x5b, Part::OwnerWithoutNames, 2)],
    ),
];

/// Items that get more than one name. The data of the first name section starts at 0x58.
const REPLACED: &[Row] = &[
    (
        "a function, in the same subsection",
        &[
            ITEMS,
            &[0x00, 0x0e],
            NAME,
            &[0x01, 0x07, 0x02, 0x00, 0x01, 0x61, 0x00, 0x01, 0x62],
        ],
        &[(0x5b, Part::ReplacedName, 3)],
    ),
    (
        "a function, by a later subsection",
        &[
            ITEMS,
            &[0x00, 0x11],
            NAME,
            &[0x01, 0x04, 0x01, 0x01, 0x01, 0x61],
            &[0x01, 0x04, 0x01, 0x01, 0x01, 0x62],
        ],
        &[(0x5b, Part::ReplacedName, 3)],
    ),
    (
        "a function, by a later name section",
        &[
            ITEMS,
            &[0x00, 0x0b],
            NAME,
            &[0x01, 0x04, 0x01, 0x00, 0x01, 0x61],
            &[0x00, 0x0b],
            NAME,
            &[0x01, 0x04, 0x01, 0x00, 0x01, 0x62],
        ],
        &[(0x5b, Part::ReplacedName, 3)],
    ),
    (
        "no function, since the later name is not read",
        &[
            ITEMS,
            &[0x00, 0x0b],
            NAME,
            &[0x01, 0x04, 0x01, 0x00, 0x01, 0x61],
            // 0x5e: its data starts at 0x65
            &[0x00, 0x0a],
            NAME,
            &[0x01, 0x04, 0x01, 0x00, 0x01],
        ],
        &[(0x65, Part::UnreadNames, 5)],
    ),
    (
        "a function, with a long index and an empty name, by a longer name",
        &[
            ITEMS,
            &[0x00, 0x0f],
            NAME,
            &[0x01, 0x08, 0x02, 0x80, 0x00, 0x00, 0x00, 0x02, 0x61, 0x62],
        ],
        &[(0x5b, Part::ReplacedName, 3)],
    ),
    (
        "a function, with the last name before and after another one",
        &[
            ITEMS,
            &[0x00, 0x11],
            NAME,
            &[0x01, 0x0a, 0x03, 0x00, 0x01, 0x61],
            // 0x5e
            &[0x00, 0x01, 0x62],
            &[0x00, 0x01, 0x61],
        ],
        &[(0x5e, Part::ReplacedName, 3)],
    ),
    (
        "a function, twice with the same name, the second time with a long index",
        &[
            ITEMS,
            &[0x00, 0x0f],
            NAME,
            // 0x5e
            &[0x01, 0x08, 0x02, 0x00, 0x01, 0x61, 0x80, 0x00, 0x01, 0x61],
        ],
        &[(0x5e, Part::Name, 1)],
    ),
    (
        "a missing function",
        &[
            ITEMS,
            &[0x00, 0x0e],
            NAME,
            &[0x01, 0x07, 0x02, 0x02, 0x01, 0x61, 0x02, 0x01, 0x62],
        ],
        &[
            (0x5b, Part::NameOfNothing, 3),
            (0x5e, Part::NameOfNothing, 3),
        ],
    ),
    (
        "the module",
        &[
            ITEMS,
            &[0x00, 0x0e],
            NAME,
            &[0x00, 0x03, 0x81, 0x00, 0x6d],
            &[0x00, 0x02, 0x01, 0x6e],
        ],
        &[(0x5a, Part::ReplacedName, 3)],
    ),
    (
        "the module, by a later name section",
        &[
            ITEMS,
            &[0x00, 0x09],
            NAME,
            &[0x00, 0x02, 0x01, 0x6d],
            &[0x00, 0x09],
            NAME,
            &[0x00, 0x02, 0x01, 0x6e],
        ],
        &[(0x5a, Part::ReplacedName, 2)],
    ),
    (
        "the module, twice with the same name",
        &[
            ITEMS,
            &[0x00, 0x0d],
            NAME,
            &[0x00, 0x02, 0x01, 0x6d],
            &[0x00, 0x02, 0x01, 0x6d],
        ],
        &[],
    ),
    (
        "items of other kinds",
        &[
            ITEMS,
            &[0x00, 0x44],
            NAME,
            &[0x04, 0x07, 0x02, 0x00, 0x01, 0x61, 0x00, 0x01, 0x62],
            // 0x61
            &[0x05, 0x07, 0x02, 0x00, 0x01, 0x61, 0x00, 0x01, 0x62],
            // 0x6a
            &[0x06, 0x07, 0x02, 0x00, 0x01, 0x61, 0x00, 0x01, 0x62],
            // 0x73
            &[0x07, 0x07, 0x02, 0x00, 0x01, 0x61, 0x00, 0x01, 0x62],
            // 0x7c
            &[0x08, 0x07, 0x02, 0x00, 0x01, 0x61, 0x00, 0x01, 0x62],
            // 0x85
            &[0x09, 0x07, 0x02, 0x00, 0x01, 0x61, 0x00, 0x01, 0x62],
            // 0x8e
            &[0x0b, 0x07, 0x02, 0x00, 0x01, 0x61, 0x00, 0x01, 0x62],
        ],
        &[
            (0x5b, Part::ReplacedName, 3),
            (0x64, Part::ReplacedName, 3),
            (0x6d, Part::ReplacedName, 3),
            (0x76, Part::ReplacedName, 3),
            (0x7f, Part::ReplacedName, 3),
            (0x88, Part::ReplacedName, 3),
            (0x91, Part::ReplacedName, 3),
        ],
    ),
    (
        "a local, a label and a field",
        &[
            ITEMS,
            &[0x00, 0x26],
            NAME,
            &[
                0x02, 0x09, 0x01, 0x01, 0x02, 0x02, 0x01, 0x78, 0x02, 0x01, 0x79,
            ],
            // 0x63
            &[
                0x03, 0x09, 0x01, 0x01, 0x02, 0x01, 0x01, 0x78, 0x01, 0x01, 0x79,
            ],
            // 0x6e
            &[
                0x0a, 0x09, 0x01, 0x01, 0x02, 0x01, 0x01, 0x78, 0x01, 0x01, 0x79,
            ],
        ],
        &[
            (0x5d, Part::ReplacedName, 3),
            (0x68, Part::ReplacedName, 3),
            (0x73, Part::ReplacedName, 3),
        ],
    ),
    (
        "a local, by a second list for the same function",
        &[
            ITEMS,
            &[0x00, 0x12],
            NAME,
            &[0x02, 0x0b, 0x02],
            &[0x01, 0x01, 0x00, 0x01, 0x78],
            &[0x01, 0x01, 0x00, 0x01, 0x79],
        ],
        &[(0x5d, Part::ReplacedName, 3)],
    ),
    (
        "no item: a local of each function, a label, a field, a function and a type",
        &[
            ITEMS,
            &[0x00, 0x2e],
            NAME,
            &[0x02, 0x0b, 0x02],
            &[0x00, 0x01, 0x00, 0x01, 0x78],
            &[0x01, 0x01, 0x00, 0x01, 0x79],
            &[0x03, 0x06, 0x01, 0x01, 0x01, 0x00, 0x01, 0x7a],
            &[0x0a, 0x06, 0x01, 0x01, 0x01, 0x00, 0x01, 0x77],
            &[0x01, 0x04, 0x01, 0x00, 0x01, 0x66],
            &[0x04, 0x04, 0x01, 0x00, 0x01, 0x74],
        ],
        &[],
    ),
];

/// Name sections elsewhere, names of imported items and of types in groups, and labels of blocks of each kind.
const OTHERS: &[Row] = &[
    (
        "a name section before the function that it names",
        &[
            &[0x00, 0x0e],
            NAME,
            // 0x15: the function 1
            &[0x01, 0x07, 0x02, 0x00, 0x01, 0x66, 0x01, 0x01, 0x67],
            &[0x03, 0x02, 0x01, 0x00],
            &[0x0a, 0x04, 0x01, 0x02, 0x00, 0x0b],
        ],
        &[(0x15, Part::NameOfNothing, 3)],
    ),
    (
        "two name sections, and a section with a similar name",
        &[
            &[0x00, 0x08],
            NAME,
            // 0x0f: a list without names
            &[0x01, 0x01, 0x00],
            // 0x12
            &[0x00, 0x0b],
            b"\x05names",
            &[0x01, 0x03, 0x01, 0x00, 0x00],
            // 0x1f: its data starts at 0x26
            &[0x00, 0x0a],
            NAME,
            &[0x01, 0x03, 0x01, 0x00, 0x00],
        ],
        &[
            (0x0f, Part::NameSubsection(1), 3),
            (0x29, Part::NameOfNothing, 2),
        ],
    ),
    (
        "a table, a memory, a global and a tag that are imported",
        &[
            &[0x02, 0x16, 0x04],
            &[0x00, 0x00, 0x01, 0x70, 0x00, 0x00],
            &[0x00, 0x00, 0x02, 0x00, 0x00],
            &[0x00, 0x00, 0x03, 0x7f, 0x00],
            &[0x00, 0x00, 0x04, 0x00, 0x00],
            // 0x20: its data starts at 0x27
            &[0x00, 0x21],
            NAME,
            &[0x05, 0x05, 0x02, 0x00, 0x00, 0x01, 0x00],
            &[0x06, 0x05, 0x02, 0x00, 0x00, 0x01, 0x00],
            &[0x07, 0x05, 0x02, 0x00, 0x00, 0x01, 0x00],
            &[0x0b, 0x05, 0x02, 0x00, 0x00, 0x01, 0x00],
        ],
        &[
            (0x2c, Part::NameOfNothing, 2),
            (0x33, Part::NameOfNothing, 2),
            (0x3a, Part::NameOfNothing, 2),
            (0x41, Part::NameOfNothing, 2),
        ],
    ),
    (
        "two types of one group",
        &[
            &[
                0x01, 0x09, 0x01, 0x4e, 0x02, 0x60, 0x00, 0x00, 0x60, 0x00, 0x00,
            ],
            // 0x13: its data starts at 0x1a
            &[0x00, 0x0c],
            NAME,
            &[0x04, 0x05, 0x02, 0x01, 0x00, 0x02, 0x00],
        ],
        &[(0x1f, Part::NameOfNothing, 2)],
    ),
    (
        "labels of block, loop, if, try_table and try",
        &[
            &[0x03, 0x02, 0x01, 0x00],
            &[
                0x0a, 0x14, 0x01, 0x12, 0x00, 0x02, 0x40, 0x0b, 0x03, 0x40, 0x0b, 0x04, 0x40, 0x0b,
                0x1f, 0x40, 0x00, 0x0b, 0x06, 0x40, 0x0b, 0x0b,
            ],
            // 0x22: its data starts at 0x29
            &[0x00, 0x0e],
            NAME,
            // 0x30: the label 5
            &[0x03, 0x07, 0x01, 0x00, 0x02, 0x04, 0x00, 0x05, 0x00],
        ],
        &[(0x30, Part::NameOfNothing, 2)],
    ),
];

#[test]
fn finds_long_numbers_before_names(rt: HostRuntime) -> Result<(), Fail> {
    let other = first_other_row(rt.alloc(), ALONE)?;
    assert!(rt; other == None, "{other:?}");
    Ok(())
}

#[test]
fn finds_unread_names(rt: HostRuntime) -> Result<(), Fail> {
    let other = first_other_row(rt.alloc(), UNREAD)?;
    assert!(rt; other == None, "{other:?}");
    let other = first_other_row(rt.alloc(), MISSING)?;
    assert!(rt; other == None, "{other:?}");
    Ok(())
}

#[test]
fn finds_lists_without_names(rt: HostRuntime) -> Result<(), Fail> {
    let other = first_other_row(rt.alloc(), EMPTY_LISTS)?;
    assert!(rt; other == None, "{other:?}");
    let other = first_other_row(rt.alloc(), WITHOUT_NAMES)?;
    assert!(rt; other == None, "{other:?}");
    Ok(())
}

#[test]
fn finds_replaced_names(rt: HostRuntime) -> Result<(), Fail> {
    let other = first_other_row(rt.alloc(), REPLACED)?;
    assert!(rt; other == None, "{other:?}");
    Ok(())
}

#[test]
fn finds_names_of_nothing(rt: HostRuntime) -> Result<(), Fail> {
    let other = first_other_row(rt.alloc(), OF_ITEMS)?;
    assert!(rt; other == None, "{other:?}");
    let other = first_other_row(rt.alloc(), OTHERS)?;
    assert!(rt; other == None, "{other:?}");
    Ok(())
}
