//! The writes that the public printers make on the underlying writer, for a quoted string, for bytes and for a
//! module. The sinks keep each write separate. No contract specifies how a text is split into writes.
ghost use Rattle.std.specs.Prelude.{true};

use crate::byte_printers::writers::TextWriter;
use std::alloc::Global;
use std::io;
use std::io::Write;
use std::test::Fail;
use wasmprinter::print::{Color, ColorSpec, WriteColor};
use wasmprinter::text::{write_bytes, write_quoted};
use wasmprinter::{Config, Error, Print, PrintFmtWrite, PrintIoWrite, PrintTermcolor};
use wasmprinter_expecting::print_to;
use wasmprinter_samples::IDENTITY;

/// A writer that accepts everything. It records each write with a bar after it, and each color in braces.
#[derive(Drop)]
pub struct Sink {
    calls: Vec<u8>,
}

impl Sink {
    pub fn new(alloc: Global) -> Sink {
        Sink {
            calls: Vec::new(alloc),
        }
    }
}

impl Write for Sink {
    fn write(&mut self, buf: &[u8]) -> io::Result<usize> {
        self.calls.extend_from_slice(buf)?;
        self.calls.push(b'|')?;
        Ok(buf.len())
    }

    fn flush(&mut self) -> io::Result<()> {
        self.calls.extend_from_slice(b"{flush}")?;
        Ok(())
    }
}

/// Returns the word for a color specification. An exclamation mark says that the text is bold and intense.
fn word_of(spec: &ColorSpec) -> &'static [u8] {
    match (spec.fg(), spec.bold(), spec.intense()) {
        (Some(Color::Red), false, false) => b"{red}",
        (Some(Color::Magenta), false, false) => b"{magenta}",
        (Some(Color::Cyan), false, false) => b"{cyan}",
        (Some(Color::Yellow), true, true) => b"{yellow!}",
        (Some(Color::Green), true, true) => b"{green!}",
        _ => b"{other}",
    }
}

impl WriteColor for Sink {
    ghost sets_color = { λ _ _ _ _. Unit {0} };

    ghost is_colored = { λ _. true };

    ghost is_immediate = { λ _. true };

    fn supports_color(&self) -> bool {
        true
    }

    fn set_color(&mut self, spec: &ColorSpec) -> io::Result<()> {
        self.calls.extend_from_slice(word_of(spec))?;
        Ok(())
    }

    fn reset(&mut self) -> io::Result<()> {
        self.calls.extend_from_slice(b"{reset}")?;
        Ok(())
    }

    fn is_synchronous(&self) -> bool {
        true
    }
}

/// An input that is printed.
#[derive(Clone, Copy)]
enum Input {
    /// A quoted string of characters that are written as they are and characters that are escaped.
    Quoted,
    /// Bytes that are written as they are and bytes that are escaped.
    Bytes,
    /// The module `IDENTITY`.
    Module,
}

/// Prints an input to any printer. The function has no contract, so the prover need not evaluate the contract of
/// `print` for each caller's printer.
fn print_input_to<P: Print>(alloc: Global, input: Input, printer: &mut P) -> Result<(), Error> {
    match input {
        Input::Quoted => write_quoted(printer, "ab\u{e9}\"\n\u{1f600}c"),
        Input::Bytes => write_bytes(printer, b"ab\x1f\"\xffc"),
        Input::Module => print_to(&Config::new(), alloc, IDENTITY, printer),
    }
}

/// An input, and the writes of each printer.
struct Row {
    name: &'static str,
    input: Input,
    /// The writes of a printer over a byte writer. It makes no write for the empty indent of the last line.
    bytes: &'static str,
    /// The writes of a printer over a text writer. It makes an empty write for the empty indent of the last line.
    text: &'static str,
    /// The writes and colors of a printer over a writer that supports colors.
    colors: &'static str,
}

const ROWS: &[Row] = &[
    Row {
        name: "a quoted string",
        input: Input::Quoted,
        bytes: r#""|a|b|\u{|e|9|}|\u{|2|2|}|\u{|a|}|\u{|1|f|6|0|0|}|c|"|"#,
        text: r#""|a|b|\u{|e|9|}|\u{|2|2|}|\u{|a|}|\u{|1|f|6|0|0|}|c|"|"#,
        colors: r#"{red}"|a|b|\u{|e|9|}|\u{|2|2|}|\u{|a|}|\u{|1|f|6|0|0|}|c|"|{reset}"#,
    },
    Row {
        name: "bytes",
        input: Input::Bytes,
        bytes: r#""|a|b|\|1|f|\|2|2|\|f|f|c|"|"#,
        text: r#""|a|b|\|1|f|\|2|2|\|f|f|c|"|"#,
        colors: r#"{red}"|a|b|\|1|f|\|2|2|\|f|f|c|"|{reset}"#,
    },
    Row {
        name: "a module",
        input: Input::Module,
        bytes: r#"(|module|
|  |(|type| |(;|0|;)| |(|func| |(|param| |i32|)| |(|result| |i32|)|)|)|
|  |(|export| |"|f|"| |(|func| |0|)|)|
|  |(|func| |(;|0|;)| |(|type| |0|)| |(|param| |i32|)| |(|result| |i32|)|
|    |local.get| |0|
|  |)|
|)|
|"#,
        text: r#"(|module|
|  |(|type| |(;|0|;)| |(|func| |(|param| |i32|)| |(|result| |i32|)|)|)|
|  |(|export| |"|f|"| |(|func| |0|)|)|
|  |(|func| |(;|0|;)| |(|type| |0|)| |(|param| |i32|)| |(|result| |i32|)|
|    |local.get| |0|
|  |)|
||)|
|"#,
        colors: "(|{yellow!}module|{reset}\n|  |\
(|{yellow!}type| |{reset}{magenta}(;|0|;)|{reset} |(|{yellow!}func|{reset} |\
(|{yellow!}param|{reset} |{green!}i32|{reset})| |(|{yellow!}result|{reset} |{green!}i32|{reset})|)|)|\n|  |\
(|{yellow!}export| |{reset}{red}\"|f|\"|{reset} |(|{yellow!}func| |{reset}{magenta}0|{reset})|)|\n|  |\
(|{yellow!}func| |{reset}{magenta}(;|0|;)|{reset} |(|{yellow!}type| |{reset}{magenta}0|{reset})| |\
(|{yellow!}param|{reset} |{green!}i32|{reset})| |(|{yellow!}result|{reset} |{green!}i32|{reset})|\n|    |\
local.get| |{magenta}0|{reset}\n|  |)|\n|)|\n|",
    },
];

/// Reports whether a printer over a byte writer makes these writes.
fn writes_bytes(alloc: Global, input: Input, wanted: &str) -> Result<bool, Error> {
    let mut printer = PrintIoWrite(Sink::new(alloc));
    print_input_to(alloc, input, &mut printer)?;
    Ok(printer.0.calls.as_slice() == wanted.as_bytes())
}

/// Reports whether a printer over a text writer makes these writes.
fn writes_text(alloc: Global, input: Input, wanted: &str) -> Result<bool, Error> {
    let mut printer = PrintFmtWrite(TextWriter::with_bars(alloc));
    print_input_to(alloc, input, &mut printer)?;
    Ok(printer.0.text.as_str() == wanted)
}

/// Reports whether a printer over a writer that supports colors makes these writes and sets these colors.
fn writes_colors(alloc: Global, input: Input, wanted: &str) -> Result<bool, Error> {
    let mut printer = PrintTermcolor(Sink::new(alloc));
    print_input_to(alloc, input, &mut printer)?;
    Ok(printer.0.calls.as_slice() == wanted.as_bytes())
}

/// Returns the name of the first row with other writes, and the field of these writes. Returns `None` if there is no
/// such row.
fn first_other(alloc: Global, rows: &[Row]) -> Result<Option<(&'static str, &'static str)>, Error> {
    for row in rows {
        if !writes_bytes(alloc, row.input, row.bytes)? {
            return Ok(Some((row.name, "bytes")));
        }
        if !writes_text(alloc, row.input, row.text)? {
            return Ok(Some((row.name, "text")));
        }
        if !writes_colors(alloc, row.input, row.colors)? {
            return Ok(Some((row.name, "colors")));
        }
    }
    Ok(None)
}

#[test]
fn asks_a_writer_for_each_piece_and_color(rt: HostRuntime) -> Result<(), Fail> {
    let other = first_other(rt.alloc(), ROWS)?;
    assert!(rt; other.is_none(), "{other:?}");
    Ok(())
}
