//! Tests of refusals of texts with ANSI escape sequences, and of lines. Legacy exception handling cannot be folded: it
//! is refused in each kind of expression and in bodies. The same holds for a hint of a block.

use std::alloc::{AllocError, Global};
use std::test::Fail;
use wasmprinter::Config;
use wasmprinter_expecting::{Options, Refusal};
use wasmprinter_samples::PREAMBLE;
use wasmprinter_samples::modules_and_texts_from_parts::Part::{Bytes, Section};
use wasmprinter_samples::modules_and_texts_from_parts::{Parts, build};
use wasmprinter_samples::sections::{DATA, ELEMENT, GLOBAL, TABLE};

/// A module whose function has a `try` at byte 23, with a `catch_all` in it.
const CAUGHT: &[u8] = &[
    0x00, 0x61, 0x73, 0x6d, 0x01, 0x00, 0x00, 0x00, // preamble
    0x01, 0x04, 0x01, 0x60, 0x00, 0x00, // types
    0x03, 0x02, 0x01, 0x00, // functions
    0x0a, 0x08, 0x01, 0x06, 0x00, 0x06, 0x40, 0x19, 0x0b, 0x0b, // code
];

/// A module whose function has no parameters, with a hint for its block.
const BLOCK_HINTED: &[u8] = &[
    0x00, 0x61, 0x73, 0x6d, 0x01, 0x00, 0x00, 0x00, // preamble
    0x01, 0x04, 0x01, 0x60, 0x00, 0x00, // types
    0x03, 0x02, 0x01, 0x00, // functions
    0x00, 0x20, 0x19, 0x6d, 0x65, 0x74, 0x61, 0x64, 0x61, 0x74, 0x61, 0x2e, 0x63, 0x6f, 0x64, 0x65,
    0x2e, 0x62, 0x72, 0x61, 0x6e, 0x63, 0x68, 0x5f, 0x68, 0x69, 0x6e, 0x74, // hints
    0x01, 0x00, 0x01, 0x01, 0x01, 0x01, // the hint at 49
    0x0a, 0x07, 0x01, 0x05, 0x00, 0x02, 0x40, 0x0b, 0x0b, // code
];

/// A module that cannot be folded: the name of the row, the parts, the reason, and whether a skeleton has the operators
/// too.
type Row = (&'static str, Parts, Refusal, bool);

const ROWS: &[Row] = &[
    (
        "legacy operators in a body",
        &[Bytes(CAUGHT)],
        Refusal::FoldLegacy { place: 23 },
        false,
    ),
    (
        "a hint of a block",
        &[Bytes(BLOCK_HINTED)],
        Refusal::FoldHint { place: 49 },
        false,
    ),
    (
        "a `try` in an initialiser of a global",
        &[
            Bytes(PREAMBLE),
            Section(GLOBAL, &[0x01, 0x7f, 0x00, 0x06, 0x40, 0x19, 0x0b, 0x0b]),
        ],
        Refusal::FoldLegacy { place: 13 },
        true,
    ),
    (
        "a `try` in an initialiser of a table",
        &[
            Bytes(PREAMBLE),
            Section(
                TABLE,
                &[
                    0x01, 0x40, 0x00, 0x70, 0x00, 0x01, 0x06, 0x40, 0x18, 0x00, 0x0b,
                ],
            ),
        ],
        Refusal::FoldLegacy { place: 16 },
        true,
    ),
    (
        "a `try` in an offset of an element segment",
        &[
            Bytes(PREAMBLE),
            Section(ELEMENT, &[0x01, 0x00, 0x06, 0x40, 0x18, 0x00, 0x0b, 0x00]),
        ],
        Refusal::FoldLegacy { place: 12 },
        true,
    ),
    (
        "a `try` within a block in an offset of a data segment",
        &[
            Bytes(PREAMBLE),
            Section(
                DATA,
                &[
                    0x01, 0x00, 0x02, 0x40, 0x06, 0x40, 0x07, 0x00, 0x0b, 0x0b, 0x0b, 0x00,
                ],
            ),
        ],
        Refusal::FoldLegacy { place: 14 },
        true,
    ),
    (
        "a `try` in an item",
        &[
            Bytes(PREAMBLE),
            Section(
                ELEMENT,
                &[0x01, 0x05, 0x70, 0x01, 0x06, 0x40, 0x18, 0x00, 0x0b],
            ),
        ],
        Refusal::FoldLegacy { place: 14 },
        false,
    ),
];

/// Reports whether appending the lines of a module is refused for this reason, and the storage is unchanged: what can't
/// be folded is refused before any of the text is appended.
fn are_lines_refused(
    alloc: Global,
    config: &Config,
    wasm: &[u8],
    refusal: Refusal,
) -> Result<bool, AllocError> {
    let mut storage = String::from_str(alloc, "old")?;
    let error = config.offsets_and_lines(alloc, wasm, &mut storage).err();
    Ok(refusal.is(error) && storage.as_str() == "old")
}

/// Checks that a module is refused for this reason with ANSI escape sequences, and as lines.
///
/// # Errors
///
/// - A function does not refuse the module for this reason.
fn expect_refused_by(
    name: &'static str,
    config: &Config,
    alloc: Global,
    wasm: &[u8],
    refusal: Refusal,
) -> Result<(), Fail> {
    if !refusal.is(config.print_to_ansi(alloc, wasm).err()) {
        return Err((name, "is not refused with ANSI escape sequences"))?;
    }
    if !are_lines_refused(alloc, config, wasm, refusal)? {
        return Err((name, "is not refused as lines"))?;
    }
    Ok(())
}

/// Checks that the module of a row is refused if it is folded, and as a folded skeleton that has its operators.
///
/// # Errors
///
/// - A function does not refuse the module for its reason.
fn expect_refused(alloc: Global, row: &Row) -> Result<(), Fail> {
    let (name, parts, refusal, is_in_outline) = row;
    let wasm = build(alloc, parts)?;
    let mut config = Options::Folded.config();
    expect_refused_by(name, &config, alloc, &wasm, *refusal)?;
    if *is_in_outline {
        config.print_skeleton(true);
        expect_refused_by(name, &config, alloc, &wasm, *refusal)?;
    }
    Ok(())
}

/// Checks each row.
///
/// # Errors
///
/// - A function does not refuse a module for its reason.
fn expect_each_refused(alloc: Global, rows: &[Row]) -> Result<(), Fail> {
    for row in rows {
        expect_refused(alloc, row)?;
    }
    Ok(())
}

#[test]
fn refuses_in_colors_and_as_lines(rt: HostRuntime) -> Result<(), Fail> {
    expect_each_refused(rt.alloc(), ROWS)
}
