//! Rows of modules that the tests share, with their texts or refusals, and the loops that check these rows. A failure
//! shows the name of its row.

use std::alloc::Global;
use std::test::Fail;
use wasmprinter::wasm::decode;
use wasmprinter_expecting::{Expected, Refusal, early_refusal_of, expect_result};
use wasmprinter_samples::modules_and_texts_from_parts::{Parts, build};

/// A module: the name of the row, the parts, and the expected result.
pub type Row = (&'static str, Parts, Expected);

/// Checks the result of each row.
///
/// # Errors
///
/// - A module is refused, or is not refused as expected, or its text differs.
pub fn expect_rows(alloc: Global, rows: &[Row]) -> Result<(), Fail> {
    for (name, parts, expected) in rows {
        let wasm = build(alloc, parts)?;
        expect_result(name, alloc, &wasm, expected)?;
    }
    Ok(())
}

/// A module that is refused before the first call on a printer: the name of the row, the parts, and the reason.
pub type RefusedRow = (&'static str, Parts, Refusal);

/// Checks that each module is refused for its reason by printing it, before the first call on a printer, and by decoding
/// it.
///
/// # Errors
///
/// - A function does not refuse a module for its reason.
pub fn expect_refusals(alloc: Global, rows: &[RefusedRow]) -> Result<(), Fail> {
    for (name, parts, refusal) in rows {
        let wasm = build(alloc, parts)?;
        if !refusal.is(early_refusal_of(alloc, &wasm)) {
            return Err((*name, "is not refused before the first call"))?;
        }
        if !refusal.is(decode(alloc, &wasm).err()) {
            return Err((*name, "is not refused by decoding"))?;
        }
    }
    Ok(())
}
