//! Functions that print to writers of bytes, and that call a printer directly. They have no contracts, so that proofs
//! of their callers need no facts about printers.

use std::alloc::Global;
use std::io;
use std::io::Write;
use wasmprinter::print::WriteColor;
use wasmprinter::{Config, Error, Print, PrintIoWrite, PrintTermcolor};
use wasmprinter_expecting::print_to;

/// Prints a module to any byte writer, and returns the writer.
pub fn print_bytes_to<W: Write + Drop>(
    config: &Config,
    alloc: Global,
    wasm: &[u8],
    writer: W,
) -> Result<W, Error> {
    let mut printer = PrintIoWrite(writer);
    print_to(config, alloc, wasm, &mut printer)?;
    Ok(printer.0)
}

/// Prints a module to any writer that supports colors, and returns the writer.
pub fn print_colors_to<W: WriteColor + Drop>(
    config: &Config,
    alloc: Global,
    wasm: &[u8],
    writer: W,
) -> Result<W, Error> {
    let mut printer = PrintTermcolor(writer);
    print_to(config, alloc, wasm, &mut printer)?;
    Ok(printer.0)
}

/// Makes each call that writes no text and no line feed: the start of a line, each style, the end of a style, and the
/// question whether the printer claims a custom section. Returns the answer to that question.
pub fn make_calls_without_text<P: Print>(printer: &mut P) -> io::Result<bool> {
    printer.start_line(Some(8));
    printer.start_literal()?;
    printer.start_name()?;
    printer.start_keyword()?;
    printer.start_type()?;
    printer.start_comment()?;
    printer.reset_color()?;
    printer.print_custom_section("name", 8, &[0])
}
