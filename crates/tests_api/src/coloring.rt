//! Tests of colors: the escape sequences of a color, and writers with and without colors.

use crate::printing::print_to;
use std::alloc::Global;
use std::io;
use std::io::Write;
use std::test::Fail;
use wasmprinter::Error;
use wasmprinter::print::{Ansi, Color, ColorSpec, NoColor, PrintTermcolor, WriteColor};
use wasmprinter::printer_laws::colors_add_sequences_alone;
use wasmprinter_samples::{EMPTY_TEXT, PREAMBLE};

#[test]
fn keeps_how_text_looks(rt: HostRuntime) {
    let mut spec = ColorSpec::new();
    assert!(rt; spec.fg() == None && !spec.bold() && !spec.intense());
    spec.set_fg(Some(Color::Cyan))
        .set_bold(true)
        .set_intense(true);
    assert!(rt; spec.fg() == Some(Color::Cyan) && spec.bold() && spec.intense());
}

/// A color, whether it is intense, whether it is bold, and the escape sequences that a writer with colors writes.
type Row = (Color, bool, bool, &'static [u8]);

/// Each color, with its escape sequences.
const ROWS: &[Row] = &[
    (Color::Red, false, false, b"\x1b[0m\x1b[31m"),
    (Color::Green, false, false, b"\x1b[0m\x1b[32m"),
    (Color::Yellow, false, true, b"\x1b[0m\x1b[1m\x1b[33m"),
    (Color::Magenta, false, false, b"\x1b[0m\x1b[35m"),
    (Color::Cyan, true, false, b"\x1b[0m\x1b[38;5;14m"),
    (Color::Red, true, true, b"\x1b[0m\x1b[1m\x1b[38;5;9m"),
];

/// Reports whether a writer with colors writes exactly the escape sequences of this row.
fn is_sent(alloc: Global, row: &Row) -> io::Result<bool> {
    let (color, intense, bold, sequence) = *row;
    let mut spec = ColorSpec::new();
    spec.set_fg(Some(color)).set_bold(bold).set_intense(intense);
    let mut writer = Ansi::new(Vec::new(alloc));
    writer.set_color(&spec)?;
    Ok(writer.into_inner().as_slice() == sequence)
}

/// Returns the first row for which other escape sequences are written, or `None` if there is no such row.
fn first_other(alloc: Global, rows: &[Row]) -> io::Result<Option<Row>> {
    for row in rows {
        if !is_sent(alloc, row)? {
            return Ok(Some(*row));
        }
    }
    Ok(None)
}

#[test]
fn sends_a_terminal_each_color(rt: HostRuntime) -> Result<(), Fail> {
    let other = first_other(rt.alloc(), ROWS)?;
    assert!(rt; other.is_none(), "{other:?}");
    Ok(())
}

/// Resets the color and writes a text. Returns whether the writer supports colors, and whether it is synchronous.
fn write_plain<W: WriteColor>(writer: &mut W) -> io::Result<(bool, bool)> {
    writer.reset()?;
    writer.write_all(b"a")?;
    writer.flush()?;
    Ok((writer.supports_color(), writer.is_synchronous()))
}

#[test]
fn writes_with_and_without_colors(rt: HostRuntime) -> Result<(), Fail> {
    let mut colored = Ansi::new(Vec::new(rt.alloc()));
    assert!(rt; write_plain(&mut colored)? == (true, false));
    assert!(rt; colored.into_inner().as_slice() == b"\x1b[0ma".as_slice());
    let mut plain = NoColor::new(Vec::new(rt.alloc()));
    assert!(rt; write_plain(&mut plain)? == (false, false));
    assert!(rt; plain.into_inner().as_slice() == b"a".as_slice());
    Ok(())
}

/// Prints a module to a writer that takes colors.
fn print_to_writer<W: WriteColor + Drop>(alloc: Global, writer: W) -> Result<W, Error> {
    let mut printer = PrintTermcolor(writer);
    print_to(alloc, PREAMBLE, &mut printer)?;
    Ok(printer.0)
}

#[test]
fn prints_with_and_without_colors(rt: HostRuntime) -> Result<(), Fail> {
    let colored = print_to_writer(rt.alloc(), Ansi::new(Vec::new(rt.alloc())))?.into_inner();
    let expected: &[u8] = b"(\x1b[0m\x1b[1m\x1b[38;5;11mmodule\x1b[0m)\n";
    assert!(rt; colored.as_slice() == expected);
    let plain = print_to_writer(rt.alloc(), NoColor::new(Vec::new(rt.alloc())))?.into_inner();
    assert!(rt; plain.as_slice() == EMPTY_TEXT.as_bytes());
    colors_add_sequences_alone::<Vec<u8>, Vec<u8>>();
    Ok(())
}
