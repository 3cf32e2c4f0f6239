//! Tests of how a text is split into calls on a user-defined printer. The contracts fix only the text and the
//! styles. Here each piece of text, each style and each line is typed. The module has pieces of many kinds, and is
//! printed flat and folded, with places, and with synthesized identifiers.

mod lists;
mod module;

use crate::cuts::calls::{Calls, expect_calls};
use lists::{FLAT, FOLDED, NAMED, NAMED_FOLDED, TABS};
use module::MODULE;
use std::alloc::{AllocError, Global};
use std::test::Fail;
use wasmprinter::Config;
use wasmprinter_expecting::print_to;
use wasmprinter_samples::IDENTITY;
use wasmprinter_samples::sections::with_blocks;

/// Options, and the calls for the module that is printed with them.
struct Row {
    name: &'static str,
    /// Whether places are printed.
    offsets: bool,
    /// Whether identifiers are synthesized.
    identifiers: bool,
    /// Whether operators are folded.
    folded: bool,
    calls: &'static str,
}

const ROWS: &[Row] = &[
    Row {
        name: "flat, with places",
        offsets: true,
        identifiers: false,
        folded: false,
        calls: FLAT,
    },
    Row {
        name: "folded, with places",
        offsets: true,
        identifiers: false,
        folded: true,
        calls: FOLDED,
    },
    Row {
        name: "flat, with identifiers",
        offsets: false,
        identifiers: true,
        folded: false,
        calls: NAMED,
    },
    Row {
        name: "folded, with identifiers",
        offsets: false,
        identifiers: true,
        folded: true,
        calls: NAMED_FOLDED,
    },
];

/// Checks the calls for the module that is printed with the options of a row.
fn check(alloc: Global, row: &Row) -> Result<(), Fail> {
    let mut config = Config::new();
    config.print_offsets(row.offsets);
    config.name_unnamed(row.identifiers);
    config.fold_instructions(row.folded);
    expect_calls(row.name, &config, alloc, MODULE, row.calls)
}

#[test]
fn splits_a_module_with_these_options(rt: HostRuntime) -> Result<(), Fail> {
    for row in ROWS {
        check(rt.alloc(), row)?;
    }
    Ok(())
}

#[test]
fn splits_an_indent_text_by_levels(rt: HostRuntime) -> Result<(), Fail> {
    let mut config = Config::new();
    config.indent_text(String::from_str(rt.alloc(), "\t")?);
    expect_calls("tabs", &config, rt.alloc(), IDENTITY, TABS)
}

/// Returns the end of a line with an `end` that is indented by `level` levels: the two spaces of each level are
/// part of one call.
fn end_at(alloc: Global, level: u32) -> Result<String, AllocError> {
    let mut row = String::from_str(alloc, "]")?;
    for _ in 0..level {
        row.push_str("  ")?;
    }
    row.push_str("|end|\n")?;
    Ok(row)
}

/// Prints sixty nested blocks. The outermost is indented by two levels, and each inner one by one more level, up
/// to fifty.
#[test]
fn splits_indents_of_each_level(rt: HostRuntime) -> Result<(), Fail> {
    // A section of 185 bytes, with a body of 182 bytes.
    let code = [0x0a, 0xb9, 0x01, 0x01, 0xb6, 0x01, 0x00];
    let wasm = with_blocks(rt.alloc(), 60, &[0x02, 0x40], &[0x0b], &code)?;
    let mut calls = Calls::new(rt.alloc(), 0);
    print_to(&Config::new(), rt.alloc(), wasm.as_slice(), &mut calls)?;
    let shown = calls.shown(rt.alloc())?;
    for level in 2..50 {
        let row = end_at(rt.alloc(), level)?;
        assert_eq!(rt; shown.as_str().matches(row.as_str()).count(), 1);
    }
    let row = end_at(rt.alloc(), 50)?;
    assert_eq!(rt; shown.as_str().matches(row.as_str()).count(), 12);
    Ok(())
}
