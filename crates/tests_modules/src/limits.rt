//! Tests of the limits on locals and functions: the greatest number that is accepted, and the error for one more
//! (appendix "Implementation Limitations" of the standard).

use crate::rows::{RefusedRow, expect_refusals};
use std::alloc::Global;
use std::test::Fail;
use wasmprinter_expecting::{Refusal, expect_printed};
use wasmprinter_samples::PREAMBLE;
use wasmprinter_samples::modules_and_texts_from_parts::Part::{Bytes, Copies};
use wasmprinter_samples::modules_and_texts_from_parts::TextPart::{
    self, Numbered, Text, TextCopies,
};
use wasmprinter_samples::modules_and_texts_from_parts::{Parts, build, text_of_parts};

/// Checks that the module that consists of `parts` has the text that consists of `typed`.
///
/// # Errors
///
/// - The module is refused, or its text differs.
fn expect_text_of_parts(
    name: &'static str,
    alloc: Global,
    parts: Parts,
    typed: &[TextPart],
) -> Result<(), Fail> {
    let wasm = build(alloc, parts)?;
    let text = text_of_parts(alloc, typed)?;
    expect_printed(name, alloc, &wasm, text.as_str())
}

/// The greatest number of locals of a function.
const MOST_LOCALS: u32 = 50_000;

/// The greatest number of functions that a module may define.
pub const MOST_FUNCTIONS: u32 = 1_000_000;

/// A module with `MOST_FUNCTIONS` functions without locals and operators.
pub const MODULE_OF_MOST_FUNCTIONS: Parts = &[
    Bytes(PREAMBLE),
    Bytes(&[0x01, 0x04, 0x01, 0x60, 0x00, 0x00]),
    Bytes(&[0x03, 0xc3, 0x84, 0x3d, 0xc0, 0x84, 0x3d]), // a size of 1,000,003, and the count
    Copies(MOST_FUNCTIONS, &[0x00]),
    Bytes(&[0x0a, 0xc3, 0x8d, 0xb7, 0x01, 0xc0, 0x84, 0x3d]), // a size of 3,000,003, and the count
    Copies(MOST_FUNCTIONS, &[0x02, 0x00, 0x0b]),
];

/// A module whose function has one local more than `MOST_LOCALS`.
pub const ONE_LOCAL_TOO_MANY: Parts = &[
    Bytes(PREAMBLE),
    Bytes(&[0x01, 0x04, 0x01, 0x60, 0x00, 0x00]),
    Bytes(&[0x03, 0x02, 0x01, 0x00]),
    Bytes(&[0x0a, 0x08, 0x01, 0x06, 0x01, 0xd1, 0x86, 0x03, 0x7f, 0x0b]),
];

/// A module that defines one function more than `MOST_FUNCTIONS`.
pub const ONE_FUNCTION_TOO_MANY: Parts = &[
    Bytes(PREAMBLE),
    Bytes(&[0x01, 0x04, 0x01, 0x60, 0x00, 0x00]),
    Bytes(&[0x03, 0xc4, 0x84, 0x3d, 0xc1, 0x84, 0x3d]), // a size of 1,000,004, and the count
    Copies(1_000_001, &[0x00]),
    Bytes(&[0x0a, 0xc6, 0x8d, 0xb7, 0x01, 0xc1, 0x84, 0x3d]), // a size of 3,000,006, and the count
    Copies(1_000_001, &[0x02, 0x00, 0x0b]),
];

/// Modules with one more local and one more function than are accepted, each with the error.
const ONE_MORE: &[RefusedRow] = &[
    (
        "50,001 locals",
        ONE_LOCAL_TOO_MANY,
        Refusal::TooManyLocals { place: 22 },
    ),
    (
        "1,000,001 functions",
        ONE_FUNCTION_TOO_MANY,
        Refusal::TooManyFunctions { count: 1_000_001 },
    ),
];

#[test]
fn refuses_one_more_local_or_function_than_the_limit(rt: HostRuntime) -> Result<(), Fail> {
    expect_refusals(rt.alloc(), ONE_MORE)
}

/// Takes one second in the build of `rt test`, and more than the limit of 60 seconds in that of `rt try --test`.
#[test]
fn prints_a_million_functions(rt: HostRuntime) -> Result<(), Fail> {
    expect_text_of_parts(
        "a million functions",
        rt.alloc(),
        MODULE_OF_MOST_FUNCTIONS,
        &[
            Text("(module\n  (type (;0;) (func))\n"),
            Numbered(MOST_FUNCTIONS, "  (func (;", ";) (type 0))\n"),
            Text(")\n"),
        ],
    )
}

/// The number of types, and of exports, of a module.
const THOUSANDS: u32 = 3_000;

/// A module: the name of the row, the parts, and the text.
type Row = (&'static str, Parts, &'static [TextPart]);

/// Modules with many items.
const LARGE: &[Row] = &[
    (
        "50,000 locals of type i32 in a function without operators",
        &[
            Bytes(PREAMBLE),
            Bytes(&[0x01, 0x04, 0x01, 0x60, 0x00, 0x00]),
            Bytes(&[0x03, 0x02, 0x01, 0x00]),
            Bytes(&[0x0a, 0x08, 0x01, 0x06, 0x01, 0xd0, 0x86, 0x03, 0x7f, 0x0b]),
        ],
        &[
            Text("(module\n  (type (;0;) (func))\n  (func (;0;) (type 0)\n    (local"),
            TextCopies(MOST_LOCALS, " i32"),
            Text(")\n  )\n)\n"),
        ],
    ),
    (
        "3,000 types without parameters and results, and exports of function 0 under the empty name",
        &[
            Bytes(PREAMBLE),
            Bytes(&[0x01, 0xaa, 0x46, 0xb8, 0x17]), // a size of 9,002, and the count
            Copies(THOUSANDS, &[0x60, 0x00, 0x00]),
            Bytes(&[0x07, 0xaa, 0x46, 0xb8, 0x17]), // a size of 9,002, and the count
            Copies(THOUSANDS, &[0x00, 0x00, 0x00]),
        ],
        &[
            Text("(module\n"),
            Numbered(THOUSANDS, "  (type (;", ";) (func))\n"),
            TextCopies(THOUSANDS, "  (export \"\" (func 0))\n"),
            Text(")\n"),
        ],
    ),
];

/// Checks the text of each row.
///
/// # Errors
///
/// - A module is refused, or its text differs.
fn expect_rows(alloc: Global, rows: &[Row]) -> Result<(), Fail> {
    for (name, parts, typed) in rows {
        expect_text_of_parts(name, alloc, parts, typed)?;
    }
    Ok(())
}

#[test]
fn prints_as_many_locals_as_the_limit_and_thousands_of_items(rt: HostRuntime) -> Result<(), Fail> {
    expect_rows(rt.alloc(), LARGE)
}
