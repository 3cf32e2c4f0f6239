//! Functions that the crates of tests share: they print a module, and compare the result with the expected one. They
//! have no contracts, so that a proof of a test needs no facts about printing. A failure shows the name of its row.
#![tactic(auto)]

mod calls_comparison;
mod expected_text_or_refusal;
mod option_sets;

pub use calls_comparison::{CallsRow, expect_calls, expect_each_calls, expect_recorded};
pub use expected_text_or_refusal::{Expected, Refusal, expect_result};
pub use option_sets::Options;
use std::alloc::Global;
use std::test::Fail;
use wasmprinter::print::{Ansi, PrintTermcolor};
use wasmprinter::{Config, Error, Print, print_bytes};
use wasmprinter_samples::Recorder;
pub use wasmprinter_samples::expect_same;

/// Prints a module with these options to any printer.
pub fn print_to<P: Print>(
    config: &Config,
    alloc: Global,
    wasm: &[u8],
    printer: &mut P,
) -> Result<(), Error> {
    config.print(alloc, wasm, printer)
}

/// Returns the text of a module with the default options.
pub fn text_of(alloc: Global, wasm: &[u8]) -> Result<String, Error> {
    print_bytes(alloc, wasm)
}

/// Returns the text of a module with these options.
pub fn text_by(config: &Config, alloc: Global, wasm: &[u8]) -> Result<String, Error> {
    config.print_to_string(alloc, wasm)
}

/// Returns the text of a module with these options and with ANSI escape sequences.
pub fn colored_text_by(config: &Config, alloc: Global, wasm: &[u8]) -> Result<Vec<u8>, Error> {
    let mut printer = PrintTermcolor(Ansi::new(Vec::new(alloc)));
    print_to(config, alloc, wasm, &mut printer)?;
    Ok(printer.0.into_inner())
}

/// Returns the error with which printing a module fails, or `None` if it is printed.
pub fn refusal_of(alloc: Global, wasm: &[u8]) -> Option<Error> {
    text_of(alloc, wasm).err()
}

/// Reports whether a module is refused as malformed, at a byte offset within it or at its end.
pub fn is_malformed(alloc: Global, wasm: &[u8]) -> bool {
    matches!(refusal_of(alloc, wasm), Some(Error::Malformed { place }) if place <= wasm.len() as u64)
}

/// Reports whether printing a module succeeds with this text.
pub fn is_printed_as(alloc: Global, wasm: &[u8], typed: &str) -> bool {
    match text_of(alloc, wasm) {
        Ok(text) => text.as_str() == typed,
        Err(_) => false,
    }
}

/// Checks that the text of a module with the default options is the expected one.
///
/// # Errors
///
/// - The module is refused, or its text differs.
pub fn expect_printed(
    name: &'static str,
    alloc: Global,
    wasm: &[u8],
    typed: &str,
) -> Result<(), Fail> {
    match text_of(alloc, wasm) {
        Ok(text) => expect_same(name, text.as_str(), typed),
        Err(error) => Err((name, error))?,
    }
}

/// Checks that the text of a module with these options is the expected one.
///
/// # Errors
///
/// - The module is refused, or its text differs.
pub fn expect_printed_by(
    name: &'static str,
    config: &Config,
    alloc: Global,
    wasm: &[u8],
    typed: &str,
) -> Result<(), Fail> {
    match text_by(config, alloc, wasm) {
        Ok(text) => expect_same(name, text.as_str(), typed),
        Err(error) => Err((name, error))?,
    }
}

/// Returns the error with which printing a module with the default options to a recorder fails before the first
/// call, and otherwise `None`.
pub fn early_refusal_of(alloc: Global, wasm: &[u8]) -> Option<Error> {
    let mut recorder = Recorder::new(alloc);
    let printed = print_to(&Config::new(), alloc, wasm, &mut recorder);
    let is_unused = recorder.calls().is_empty()
        && recorder.call_count() == 0
        && recorder.is_complete();
    if is_unused { printed.err() } else { None }
}
