//! Printers and writers with colors. The ANSI escape sequences are typed by hand.

use crate::byte_printers::printing::{make_calls_without_text, print_bytes_to, print_colors_to};
use crate::byte_printers::scripted::Scripted;
use crate::byte_printers::sinks::Sink;
use std::alloc::Global;
use std::io;
use std::io::Write;
use std::test::Fail;
use wasmprinter::print::{Ansi, Color, ColorSpec, NoColor, WriteColor};
use wasmprinter::{Config, Error, Print, PrintIoWrite, PrintTermcolor};
use wasmprinter_expecting::colored_text_by;
use wasmprinter_samples::{
    EMPTY_TEXT, EVERYTHING, EVERYTHING_TEXT, IDENTITY, IDENTITY_TEXT, PREAMBLE,
};

/// The text of the module without fields, with colors.
const EMPTY_COLORED: &str = "(\x1b[0m\x1b[1m\x1b[38;5;11mmodule\x1b[0m)\n";

/// The text of `IDENTITY` with colors.
const IDENTITY_COLORED: &str = "(\x1b[0m\x1b[1m\x1b[38;5;11mmodule\x1b[0m
  (\x1b[0m\x1b[1m\x1b[38;5;11mtype \x1b[0m\x1b[0m\x1b[35m(;0;)\x1b[0m (\x1b[0m\x1b[1m\x1b[38;5;11mfunc\x1b[0m \
(\x1b[0m\x1b[1m\x1b[38;5;11mparam\x1b[0m \x1b[0m\x1b[1m\x1b[38;5;10mi32\x1b[0m) \
(\x1b[0m\x1b[1m\x1b[38;5;11mresult\x1b[0m \x1b[0m\x1b[1m\x1b[38;5;10mi32\x1b[0m)))
  (\x1b[0m\x1b[1m\x1b[38;5;11mexport \x1b[0m\x1b[0m\x1b[31m\"f\"\x1b[0m (\x1b[0m\x1b[1m\x1b[38;5;11mfunc \x1b[0m\x1b[0m\x1b[35m0\x1b[0m))
  (\x1b[0m\x1b[1m\x1b[38;5;11mfunc \x1b[0m\x1b[0m\x1b[35m(;0;)\x1b[0m \
(\x1b[0m\x1b[1m\x1b[38;5;11mtype \x1b[0m\x1b[0m\x1b[35m0\x1b[0m) \
(\x1b[0m\x1b[1m\x1b[38;5;11mparam\x1b[0m \x1b[0m\x1b[1m\x1b[38;5;10mi32\x1b[0m) \
(\x1b[0m\x1b[1m\x1b[38;5;11mresult\x1b[0m \x1b[0m\x1b[1m\x1b[38;5;10mi32\x1b[0m)
    local.get \x1b[0m\x1b[35m0\x1b[0m
  )
)
";

/// The printers that print a module.
#[derive(Clone, Copy)]
enum Printers {
    /// Those that write colors.
    Colored,
    /// Those that write no colors.
    Plain,
}

/// A module: the name of the row, the module, the printers, and its text.
type Row = (&'static str, &'static [u8], Printers, &'static str);

const ROWS: &[Row] = &[
    (
        "no fields in colors",
        PREAMBLE,
        Printers::Colored,
        EMPTY_COLORED,
    ),
    (
        "identity in colors",
        IDENTITY,
        Printers::Colored,
        IDENTITY_COLORED,
    ),
    ("no fields", PREAMBLE, Printers::Plain, EMPTY_TEXT),
    ("identity", IDENTITY, Printers::Plain, IDENTITY_TEXT),
    ("everything", EVERYTHING, Printers::Plain, EVERYTHING_TEXT),
];

/// Reports whether a module prints this text with ANSI escape sequences.
fn is_colored(alloc: Global, wasm: &[u8], text: &str) -> Result<bool, Error> {
    let colored = colored_text_by(&Config::new(), alloc, wasm)?;
    Ok(colored.as_slice() == text.as_bytes())
}

/// Reports whether a printer with colors prints this text of a module to a writer without colors.
fn is_uncolored(alloc: Global, wasm: &[u8], text: &str) -> Result<bool, Error> {
    let writer = NoColor::new(Vec::new(alloc));
    let uncolored = print_colors_to(&Config::new(), alloc, wasm, writer)?;
    Ok(uncolored.into_inner().as_slice() == text.as_bytes())
}

/// Reports whether a module prints this text to an empty vector, and appends it to a vector with bytes.
fn is_plain(alloc: Global, wasm: &[u8], text: &str) -> Result<bool, Error> {
    let config = Config::new();
    let plain = print_bytes_to(&config, alloc, wasm, Vec::new(alloc))?;
    let after = print_bytes_to(&config, alloc, wasm, Vec::from_slice(alloc, b"a\n")?)?;
    Ok(plain.as_slice() == text.as_bytes() && after.strip_prefix(b"a\n") == Some(text.as_bytes()))
}

/// Reports whether each of these printers prints this text of a module.
fn is_printed(alloc: Global, wasm: &[u8], by: Printers, text: &str) -> Result<bool, Error> {
    match by {
        Printers::Colored => is_colored(alloc, wasm, text),
        Printers::Plain => Ok(is_uncolored(alloc, wasm, text)? && is_plain(alloc, wasm, text)?),
    }
}

/// Returns the name of the first row whose text differs, or `None` if there is no such row.
fn first_other(alloc: Global, rows: &[Row]) -> Result<Option<&'static str>, Error> {
    for (name, wasm, by, text) in rows {
        if !is_printed(alloc, *wasm, *by, *text)? {
            return Ok(Some(*name));
        }
    }
    Ok(None)
}

#[test]
fn prints_in_colors_and_plain_text(rt: HostRuntime) -> Result<(), Fail> {
    let other = first_other(rt.alloc(), ROWS)?;
    assert!(rt; other == None, "{other:?}");
    Ok(())
}

/// The sequences of each style, with a letter after each.
const STYLES: &str = "\x1b[0m\x1b[35mn\x1b[0m\x1b[31ml\x1b[0m\x1b[1m\x1b[38;5;11mk\
\x1b[0m\x1b[1m\x1b[38;5;10mt\x1b[0m\x1b[36mc\x1b[0m\n";

/// Writes a letter in each style, and a line feed. Returns whether the printer claims a custom section.
fn write_each_style<P: Print>(printer: &mut P) -> io::Result<bool> {
    printer.start_line(Some(8));
    printer.start_name()?;
    printer.write_str("n")?;
    printer.start_literal()?;
    printer.write_str("l")?;
    printer.start_keyword()?;
    printer.write_str("k")?;
    printer.start_type()?;
    printer.write_str("t")?;
    let is_claimed = printer.print_custom_section("name", 8, &[0])?;
    printer.start_comment()?;
    printer.write_str("c")?;
    printer.start_line(None);
    printer.reset_color()?;
    printer.write_str("")?;
    printer.newline()?;
    Ok(is_claimed)
}

#[test]
fn writes_the_sequences_of_each_style(rt: HostRuntime) -> Result<(), Fail> {
    let mut printer = PrintTermcolor(Ansi::new(Vec::new(rt.alloc())));
    assert!(rt; !write_each_style(&mut printer)?);
    assert!(rt; printer.0.into_inner().as_slice() == STYLES.as_bytes());
    Ok(())
}

#[test]
fn writes_no_sequence_without_colors(rt: HostRuntime) -> Result<(), Fail> {
    let mut printer = PrintTermcolor(NoColor::new(Vec::new(rt.alloc())));
    assert!(rt; !make_calls_without_text(&mut printer)?);
    printer.write_str("a\u{e9}")?;
    printer.reset_color()?;
    printer.newline()?;
    assert!(rt; printer.0.into_inner().as_slice() == b"a\xc3\xa9\n".as_slice());
    Ok(())
}

/// Looks, each with its sequences: a color, and whether the text is bold and intense.
const LOOKS: &[(Option<Color>, bool, bool, &str)] = &[
    (None, false, false, "\x1b[0m"),
    (None, true, false, "\x1b[0m\x1b[1m"),
    (None, false, true, "\x1b[0m"),
    (None, true, true, "\x1b[0m\x1b[1m"),
    (Some(Color::Red), false, false, "\x1b[0m\x1b[31m"),
    (Some(Color::Green), false, false, "\x1b[0m\x1b[32m"),
    (Some(Color::Yellow), false, false, "\x1b[0m\x1b[33m"),
    (Some(Color::Magenta), false, false, "\x1b[0m\x1b[35m"),
    (Some(Color::Cyan), false, false, "\x1b[0m\x1b[36m"),
    (Some(Color::Red), true, false, "\x1b[0m\x1b[1m\x1b[31m"),
    (Some(Color::Red), false, true, "\x1b[0m\x1b[38;5;9m"),
    (Some(Color::Green), false, true, "\x1b[0m\x1b[38;5;10m"),
    (
        Some(Color::Yellow),
        true,
        true,
        "\x1b[0m\x1b[1m\x1b[38;5;11m",
    ),
    (Some(Color::Magenta), false, true, "\x1b[0m\x1b[38;5;13m"),
    (Some(Color::Cyan), true, true, "\x1b[0m\x1b[1m\x1b[38;5;14m"),
];

/// Reports whether a writer with colors writes these sequences for a color.
fn is_written(alloc: Global, spec: &ColorSpec, sequences: &str) -> io::Result<bool> {
    let mut writer = Ansi::new(Vec::new(alloc));
    writer.set_color(spec)?;
    Ok(writer.into_inner().as_slice() == sequences.as_bytes())
}

/// Returns the first of these looks for which a writer with colors writes other sequences, or `None` if there is no
/// such look.
fn first_other_look(
    alloc: Global,
    looks: &[(Option<Color>, bool, bool, &str)],
) -> io::Result<Option<(Option<Color>, bool, bool)>> {
    for (fg, bold, intense, sequences) in looks {
        let mut spec = ColorSpec::new();
        spec.set_fg(*fg).set_bold(*bold).set_intense(*intense);
        if !is_written(alloc, &spec, *sequences)? {
            return Ok(Some((*fg, *bold, *intense)));
        }
    }
    Ok(None)
}

#[test]
fn writes_the_sequences_of_each_color(rt: HostRuntime) -> Result<(), Fail> {
    let other = first_other_look(rt.alloc(), LOOKS)?;
    assert!(rt; other.is_none(), "{other:?}");
    Ok(())
}

#[test]
fn sets_one_part_of_a_look_and_keeps_the_rest(rt: HostRuntime) {
    let mut spec = ColorSpec::new();
    assert!(rt; (spec.fg(), spec.bold(), spec.intense()) == (None, false, false));
    spec.set_bold(true).set_fg(Some(Color::Cyan));
    assert!(rt; (spec.fg(), spec.bold(), spec.intense()) == (Some(Color::Cyan), true, false));
    spec.set_intense(true).set_bold(false);
    assert!(rt; (spec.fg(), spec.bold(), spec.intense()) == (Some(Color::Cyan), false, true));
    spec.set_fg(None);
    assert!(rt; (spec.fg(), spec.bold(), spec.intense()) == (None, false, true));
}

#[test]
fn reports_whether_colors_can_be_written_as_text(rt: HostRuntime) {
    let alloc = rt.alloc();
    assert!(rt; PrintTermcolor(Ansi::new(Vec::new(alloc))).supports_async_color());
    assert!(rt; !PrintTermcolor(NoColor::new(Vec::new(alloc))).supports_async_color());
    assert!(rt; !PrintTermcolor(Sink::new(alloc)).supports_async_color());
    let bytes: Vec<u8> = Vec::new(alloc);
    assert!(rt; !PrintIoWrite(bytes).supports_async_color());
}

/// Writes bytes that begin as an ANSI escape sequence does with one `write`, then other bytes with `write_all`. Returns
/// the number of bytes that the first call accepted.
fn write_raw<W: Write>(writer: &mut W) -> io::Result<usize> {
    let taken = writer.write(b"\x1b[0mabc")?;
    writer.write_all(b"\x00\xff\n")?;
    writer.flush()?;
    Ok(taken)
}

#[test]
fn passes_bytes_on_as_they_are(rt: HostRuntime) -> Result<(), Fail> {
    let wanted = b"\x1b[\x00\xff\n".as_slice();
    let mut colored = Ansi::new(Scripted::new(rt.alloc(), 2));
    assert!(rt; write_raw(&mut colored)? == 2);
    assert!(rt; colored.into_inner().bytes.as_slice() == wanted);
    let mut plain = NoColor::new(Scripted::new(rt.alloc(), 2));
    assert!(rt; write_raw(&mut plain)? == 2);
    assert!(rt; plain.into_inner().bytes.as_slice() == wanted);
    Ok(())
}
