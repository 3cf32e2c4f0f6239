//! Tests of refusals: which modules are malformed or components, and at which byte offset.

use crate::rows::{RefusedRow, Row, expect_refusals, expect_rows};
use std::alloc::Global;
use std::test::Fail;
use wasmprinter::Error;
use wasmprinter_expecting::Expected::Malformed;
use wasmprinter_expecting::{
    Refusal, early_refusal_of, expect_printed, is_malformed, is_printed_as,
};
use wasmprinter_samples::modules_and_texts_from_parts::Part::{Bytes, Slice};
use wasmprinter_samples::{EMPTY_TEXT, IDENTITY, IDENTITY_TEXT, MINUS_ONE, PREAMBLE};

/// The text of `IDENTITY` if it is cut off after its first section.
const TYPE_TEXT: &str = "(module\n  (type (;0;) (func (param i32) (result i32)))\n)\n";

/// Reports whether a prefix of `IDENTITY` is printed if it ends after the preamble or after the first section. Any
/// other prefix must be refused as malformed, at a byte offset within it and before the first call on a printer.
fn is_accepted_or_refused(alloc: Global, prefix: &[u8]) -> bool {
    match prefix.len() {
        8 => is_printed_as(alloc, prefix, EMPTY_TEXT),
        16 => is_printed_as(alloc, prefix, TYPE_TEXT),
        _ => {
            is_malformed(alloc, prefix)
                && matches!(
                    early_refusal_of(alloc, prefix),
                    Some(Error::Malformed { .. })
                )
        }
    }
}

#[test]
fn accepts_only_two_prefixes_of_a_module(rt: HostRuntime) -> Result<(), Fail> {
    for len in 0..IDENTITY.len() {
        assert!(rt;
            is_accepted_or_refused(rt.alloc(), &IDENTITY[..len]),
            "at {len}"
        );
    }
    expect_printed("the whole module", rt.alloc(), IDENTITY, IDENTITY_TEXT)
}

/// The id of the type section, and its size in six bytes: a 32-bit number has at most five (section 5.2.2 of the
/// standard).
const LONG_SIZE: &[u8] = &[0x01, 0x86, 0x80, 0x80, 0x80, 0x80, 0x00];

/// Malformed modules.
const MALFORMED: &[Row] = &[
    (
        "a body without an end",
        &[Slice(MINUS_ONE, 0, 32), Bytes(&[0x0a])],
        Malformed,
    ),
    (
        "a size in too many bytes",
        &[Bytes(PREAMBLE), Bytes(LONG_SIZE), Slice(IDENTITY, 10, 25)],
        Malformed,
    ),
    // The counts of functions and bodies must be equal (section 5.5 of the standard).
    (
        "two functions of one type, but only one body",
        &[
            Bytes(PREAMBLE),
            Bytes(&[0x01, 0x04, 0x01, 0x60, 0x00, 0x00]),
            Bytes(&[0x03, 0x03, 0x02, 0x00, 0x00]),
            Bytes(&[0x0a, 0x04, 0x01, 0x02, 0x00, 0x0b]),
        ],
        Malformed,
    ),
    // A count of 2^32 - 1 at the end of a section
    (
        "a count of types without types",
        &[
            Bytes(PREAMBLE),
            Bytes(&[0x01, 0x05, 0xff, 0xff, 0xff, 0xff, 0x0f]),
        ],
        Malformed,
    ),
    (
        "a count of functions without functions",
        &[
            Bytes(PREAMBLE),
            Bytes(&[0x03, 0x05, 0xff, 0xff, 0xff, 0xff, 0x0f]),
        ],
        Malformed,
    ),
    (
        "a count of exports without exports",
        &[
            Bytes(PREAMBLE),
            Bytes(&[0x07, 0x05, 0xff, 0xff, 0xff, 0xff, 0x0f]),
        ],
        Malformed,
    ),
    (
        "a count of bodies without bodies",
        &[
            Bytes(PREAMBLE),
            Bytes(&[0x0a, 0x05, 0xff, 0xff, 0xff, 0xff, 0x0f]),
        ],
        Malformed,
    ),
    (
        "a count of groups of locals without groups",
        &[
            Bytes(PREAMBLE),
            Bytes(&[0x01, 0x04, 0x01, 0x60, 0x00, 0x00]),
            Bytes(&[0x03, 0x02, 0x01, 0x00]),
            Bytes(&[0x0a, 0x07, 0x01, 0x05, 0xff, 0xff, 0xff, 0xff, 0x0f]),
        ],
        Malformed,
    ),
];

#[test]
fn refuses_malformed_modules(rt: HostRuntime) -> Result<(), Fail> {
    expect_rows(rt.alloc(), MALFORMED)
}

/// The preamble of a component.
pub const COMPONENT: &[u8] = &[0x00, 0x61, 0x73, 0x6d, 0x0d, 0x00, 0x01, 0x00];

/// The 92 bytes that follow the preamble of a component.
const COMPONENT_CONTENT: &[u8] = &[
    0, 1, 2, 3, 4, 5, 6, 7, 8, 9, 10, 11, 12, 13, 14, 15, 16, 17, 18, 19, 20, 21, 22, 23, 24, 25,
    26, 27, 28, 29, 30, 31, 32, 33, 34, 35, 36, 37, 38, 39, 40, 41, 42, 43, 44, 45, 46, 47, 48, 49,
    50, 51, 52, 53, 54, 55, 56, 57, 58, 59, 60, 61, 62, 63, 64, 65, 66, 67, 68, 69, 70, 71, 72, 73,
    74, 75, 76, 77, 78, 79, 80, 81, 82, 83, 84, 85, 86, 87, 88, 89, 90, 91,
];

/// Bytes that do not begin with the preamble of a module, each with the error.
const OTHER_PREAMBLES: &[RefusedRow] = &[
    (
        "the preamble of a component",
        &[Bytes(COMPONENT)],
        Refusal::Component,
    ),
    (
        "a component of 100 bytes",
        &[Bytes(COMPONENT), Bytes(COMPONENT_CONTENT)],
        Refusal::Component,
    ),
    (
        "seven bytes of the preamble of a component",
        &[Slice(COMPONENT, 0, 7)],
        Refusal::Malformed { place: 0 },
    ),
    (
        "seven bytes of the preamble of a module",
        &[Slice(PREAMBLE, 0, 7)],
        Refusal::Malformed { place: 0 },
    ),
];

#[test]
fn refuses_components_and_preambles_that_are_cut_off(rt: HostRuntime) -> Result<(), Fail> {
    expect_refusals(rt.alloc(), OTHER_PREAMBLES)
}

/// A table whose initialiser has no operators.
const EMPTY_INITIALIZER: &[RefusedRow] = &[(
    "an empty initialiser",
    &[
        Bytes(PREAMBLE),
        Bytes(&[0x04, 0x07, 0x01, 0x40, 0x00, 0x70, 0x00, 0x01, 0x0b]),
    ],
    Refusal::EmptyTableInit { place: 11 },
)];

#[test]
fn refuses_an_empty_initialiser(rt: HostRuntime) -> Result<(), Fail> {
    expect_refusals(rt.alloc(), EMPTY_INITIALIZER)
}
