//! The comparison of the calls that print a module with the expected ones.

use crate::{Options, print_to};
use std::alloc::Global;
use std::test::Fail;
use wasmprinter::Config;
use wasmprinter_samples::modules_and_texts_from_parts::{Parts, build};
use wasmprinter_samples::{Recorder, expect_same};

/// Checks that a recorder recorded exactly these calls and missed none.
///
/// # Errors
///
/// - The calls differ, or one was not recorded.
pub fn expect_recorded(name: &'static str, recorder: &Recorder, typed: &str) -> Result<(), Fail> {
    expect_same(name, recorder.calls(), typed)?;
    if !recorder.is_complete() {
        return Err((name, "a call was not recorded"))?;
    }
    Ok(())
}

/// Checks that printing a module with these options to a recorder succeeds, and makes exactly these calls.
///
/// # Errors
///
/// - The module is refused, or the calls differ, or one was not recorded.
pub fn expect_calls(
    name: &'static str,
    config: &Config,
    alloc: Global,
    wasm: &[u8],
    mut recorder: Recorder,
    typed: &str,
) -> Result<(), Fail> {
    if let Err(error) = print_to(config, alloc, wasm, &mut recorder) {
        return Err((name, error))?;
    }
    expect_recorded(name, &recorder, typed)
}

/// A module that is printed to a recorder: the name of the row, the options, the parts, the name of the custom sections
/// that the recorder claims (none if it is empty), and the calls.
pub type CallsRow = (&'static str, Options, Parts, &'static str, &'static str);

/// Checks the calls of each row.
///
/// # Errors
///
/// - A module is refused, or its calls differ.
pub fn expect_each_calls(alloc: Global, rows: &[CallsRow]) -> Result<(), Fail> {
    for (name, options, parts, claimed, typed) in rows {
        let wasm = build(alloc, parts)?;
        let recorder = Recorder::with_section_taken(alloc, claimed);
        expect_calls(name, &options.config(), alloc, &wasm, recorder, typed)?;
    }
    Ok(())
}
