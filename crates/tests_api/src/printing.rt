//! The calls that print, without contracts: a proof of a test needs no facts about printing.

use std::alloc::Global;
use wasmprinter::print::Print;
use wasmprinter::{Config, Error, print_bytes};

/// Prints a module with the default options to any printer.
pub fn print_to<P: Print>(alloc: Global, wasm: &[u8], printer: &mut P) -> Result<(), Error> {
    Config::new().print(alloc, wasm, printer)
}

/// Returns the text of a module with the default options.
pub fn text_of(alloc: Global, wasm: &[u8]) -> Result<String, Error> {
    print_bytes(alloc, wasm)
}

/// Returns the text of a module with these options.
pub fn text_by(config: &Config, alloc: Global, wasm: &[u8]) -> Result<String, Error> {
    config.print_to_string(alloc, wasm)
}
