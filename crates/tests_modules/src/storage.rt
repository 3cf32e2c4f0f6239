//! The text of the storage after each error of `Config::offsets_and_lines` and `Config::print_with_line_starts`, except
//! `Memory`: tools/failing_allocations.sh lets allocations fail. Expected texts are typed by hand.

use crate::limits::{ONE_FUNCTION_TOO_MANY, ONE_LOCAL_TOO_MANY};
use crate::lines::lines_by;
use crate::refusals::COMPONENT;
use std::alloc::{AllocError, Global};
use std::test::Fail;
use wasmprinter::{Config, Error, LineStart};
use wasmprinter_expecting::{Options, Refusal};
use wasmprinter_samples::modules_and_texts_from_parts::Part::{
    Body, Bytes, Custom, Section, Slice,
};
use wasmprinter_samples::modules_and_texts_from_parts::{NO_PARAMS, ONE_FUNCTION, Parts, build};
use wasmprinter_samples::sections::{CODE, FUNCTION, HINTS, TABLE};
use wasmprinter_samples::{IDENTITY, PREAMBLE};

/// A module that is refused.
struct Row {
    name: &'static str,
    parts: Parts,
    options: Options,
    refusal: Refusal,
    /// The text of the storage before the call.
    before: &'static str,
    /// The whole text of the storage after the call.
    after: &'static str,
}

/// A type, and after it a `dylink.0` section with subsection 9, which is unknown.
const UNKNOWN: Parts = &[
    Bytes(PREAMBLE),
    NO_PARAMS,
    Custom("dylink.0", &[0x09, 0x00]),
];

/// Modules that are refused before any text is printed: the storage keeps its old text and gains nothing.
const REFUSED_EARLY: &[Row] = &[
    Row {
        name: "a module that is cut off in its last section",
        parts: &[Slice(IDENTITY, 0, 34)],
        options: Options::Default,
        refusal: Refusal::Malformed { place: 29 },
        before: "old",
        after: "old",
    },
    Row {
        name: "a preamble that is cut off",
        parts: &[Slice(PREAMBLE, 0, 7)],
        options: Options::Default,
        refusal: Refusal::Malformed { place: 0 },
        before: "old\n",
        after: "old\n",
    },
    Row {
        name: "two functions, but only one body",
        parts: &[
            Bytes(PREAMBLE),
            NO_PARAMS,
            Section(FUNCTION, &[0x02, 0x00, 0x00]),
            Section(CODE, &[0x01, 0x02, 0x00, 0x0b]),
        ],
        options: Options::Default,
        refusal: Refusal::Malformed { place: 25 },
        before: "λ\n",
        after: "λ\n",
    },
    Row {
        name: "a component",
        parts: &[Bytes(COMPONENT)],
        options: Options::Default,
        refusal: Refusal::Component,
        before: "old\n",
        after: "old\n",
    },
    Row {
        name: "50,001 locals",
        parts: ONE_LOCAL_TOO_MANY,
        options: Options::Default,
        refusal: Refusal::TooManyLocals { place: 22 },
        before: "old\n",
        after: "old\n",
    },
    Row {
        name: "50,001 locals and an empty storage",
        parts: ONE_LOCAL_TOO_MANY,
        options: Options::Default,
        refusal: Refusal::TooManyLocals { place: 22 },
        before: "",
        after: "",
    },
    Row {
        name: "1,000,001 functions",
        parts: ONE_FUNCTION_TOO_MANY,
        options: Options::Default,
        refusal: Refusal::TooManyFunctions { count: 1_000_001 },
        before: "old\n",
        after: "old\n",
    },
    Row {
        name: "a table with an empty initialiser",
        parts: &[
            Bytes(PREAMBLE),
            Section(TABLE, &[0x01, 0x40, 0x00, 0x70, 0x00, 0x01, 0x0b]),
        ],
        options: Options::Default,
        refusal: Refusal::EmptyTableInit { place: 11 },
        before: "old\n",
        after: "old\n",
    },
    Row {
        name: "a `try` in the second of two functions, folded",
        parts: &[
            Bytes(PREAMBLE),
            NO_PARAMS,
            Section(FUNCTION, &[0x02, 0x00, 0x00]),
            Section(
                CODE,
                &[
                    0x02, 0x02, 0x00, 0x0b, // the first body
                    0x06, 0x00, 0x06, 0x40, 0x19, 0x0b, 0x0b, // the second one
                ],
            ),
        ],
        options: Options::Folded,
        refusal: Refusal::FoldLegacy { place: 27 },
        before: "old\n",
        after: "old\n",
    },
    Row {
        name: "a hint of a block, folded",
        parts: &[
            Bytes(PREAMBLE),
            NO_PARAMS,
            ONE_FUNCTION,
            Custom(HINTS, &[0x01, 0x00, 0x01, 0x01, 0x01, 0x01]),
            Body(&[0x02, 0x40, 0x0b]),
        ],
        options: Options::Folded,
        refusal: Refusal::FoldHint { place: 49 },
        before: "old\n",
        after: "old\n",
    },
];

/// Modules with a `dylink.0` section that is refused: the storage gains the text before that section.
const REFUSED_LATE: &[Row] = &[
    Row {
        name: "an unknown subsection",
        parts: UNKNOWN,
        options: Options::Default,
        refusal: Refusal::DylinkSubsection { id: 9 },
        before: "old",
        after: "old(module\n  (type (;0;) (func))",
    },
    Row {
        name: "an unknown subsection and an empty storage",
        parts: UNKNOWN,
        options: Options::Default,
        refusal: Refusal::DylinkSubsection { id: 9 },
        before: "",
        after: "(module\n  (type (;0;) (func))",
    },
    Row {
        name: "an unknown subsection after a known one and after a custom section",
        parts: &[
            Bytes(PREAMBLE),
            Custom("a", &[0x78]),
            Custom(
                "dylink.0",
                &[
                    0x01, 0x04, 0x01, 0x00, 0x00, 0x00, // a known subsection
                    0x09, 0x01, 0x00, // an unknown one
                ],
            ),
        ],
        options: Options::Default,
        refusal: Refusal::DylinkSubsection { id: 9 },
        before: "old",
        after: "old(module\n  (@custom \"a\" (before first) \"x\")",
    },
    Row {
        name: "an unknown subsection after a function, folded",
        parts: &[
            Bytes(PREAMBLE),
            NO_PARAMS,
            ONE_FUNCTION,
            Body(&[0x41, 0x01, 0x1a]),
            Custom("dylink.0", &[0x09, 0x00]),
        ],
        options: Options::Folded,
        refusal: Refusal::DylinkSubsection { id: 9 },
        before: "old\n",
        after: "old\n(module\n  (type (;0;) (func))\n  (func (;0;) (type 0)\n    (drop\n      (i32.const 1))\n  )",
    },
];

/// Appends the text of a module with these options to the storage, and returns where its lines begin.
fn starts_by(
    config: &Config,
    alloc: Global,
    wasm: &[u8],
    storage: &mut String,
) -> Result<Vec<LineStart>, Error> {
    config.print_with_line_starts(alloc, wasm, storage)
}

/// Reports whether `offsets_and_lines` fails with the error of the row, and leaves the text of the row in the storage.
fn has_no_lines(alloc: Global, wasm: &[u8], row: &Row) -> Result<bool, AllocError> {
    let mut storage = String::from_str(alloc, row.before)?;
    let error = lines_by(&row.options.config(), alloc, wasm, &mut storage).err();
    Ok(row.refusal.is(error) && storage.as_str() == row.after)
}

/// Reports whether `print_with_line_starts` fails with the error of the row, and leaves the text of the row in the
/// storage.
fn has_no_starts(alloc: Global, wasm: &[u8], row: &Row) -> Result<bool, AllocError> {
    let mut storage = String::from_str(alloc, row.before)?;
    let error = starts_by(&row.options.config(), alloc, wasm, &mut storage).err();
    Ok(row.refusal.is(error) && storage.as_str() == row.after)
}

/// Checks that both functions fail with the error of each row, and leave its text in the storage.
///
/// # Errors
///
/// - A function prints the module of a row, fails with another error, or leaves another text.
fn expect_left(alloc: Global, rows: &[Row]) -> Result<(), Fail> {
    for row in rows {
        let wasm = build(alloc, row.parts)?;
        if !has_no_lines(alloc, &wasm, row)? {
            return Err((row.name, "another error or storage of the lines"))?;
        }
        if !has_no_starts(alloc, &wasm, row)? {
            return Err((row.name, "another error or storage of the line starts"))?;
        }
    }
    Ok(())
}

#[test]
fn keeps_its_text_if_a_module_is_refused_early(rt: HostRuntime) -> Result<(), Fail> {
    expect_left(rt.alloc(), REFUSED_EARLY)
}

#[test]
fn gains_the_text_before_a_refused_section(rt: HostRuntime) -> Result<(), Fail> {
    expect_left(rt.alloc(), REFUSED_LATE)
}
