//! Tests of printers: each call on them, the printers over writers, and a user-defined one.

use crate::printing::print_to;
use std::alloc::Global;
use std::io;
use std::test::Fail;
use wasmprinter::Error;
use wasmprinter::print::{
    NoColor, Print, PrintFmtWrite, PrintIoWrite, PrintText, WriteBytes, WriteText,
};
use wasmprinter::printer_laws::text_printers_gain_the_text;
use wasmprinter_samples::{EMPTY_TEXT, PREAMBLE, expect_text};

/// A printer that keeps its text, and takes runs of characters.
#[derive(Drop)]
struct Text(String);

impl PrintText for Text {
    fn write_str(&mut self, s: &str) -> io::Result<()> {
        self.0.push_str(s)?;
        Ok(())
    }

    fn takes_runs(&self) -> bool {
        true
    }
}

/// Makes each call on a printer. Returns whether it claims a custom section, takes runs, and takes ANSI escape
/// sequences within a text.
fn call_each<P: Print>(p: &mut P) -> io::Result<(bool, bool, bool)> {
    p.start_line(Some(0x10));
    p.write_str("a")?;
    p.write_each_char("bc")?;
    p.start_literal()?;
    p.start_name()?;
    p.start_keyword()?;
    p.start_type()?;
    p.start_comment()?;
    p.reset_color()?;
    p.newline()?;
    let takes_section = p.print_custom_section("c", 0x20, &[1, 2])?;
    Ok((takes_section, p.takes_runs(), p.supports_async_color()))
}

/// Makes each call on a printer of text. Reports whether its answers and its text are the expected ones.
fn is_text_printed(alloc: Global) -> io::Result<bool> {
    let mut text = Text(String::new(alloc));
    let answers = call_each(&mut text)?;
    Ok(answers == (false, true, false) && text.0.as_str() == "abc\n")
}

/// Makes each call on a printer over a writer of texts. Reports whether its answers and the text are the expected
/// ones.
fn is_text_written(alloc: Global) -> io::Result<bool> {
    let mut text = PrintFmtWrite(String::new(alloc));
    let answers = call_each(&mut text)?;
    Ok(answers == (false, false, false) && text.0.as_str() == "abc\n")
}

/// Makes each call on a printer over a writer of bytes. Reports whether its answers and the bytes are the expected
/// ones.
fn are_bytes_written(alloc: Global) -> io::Result<bool> {
    let mut bytes = PrintIoWrite(Vec::new(alloc));
    let answers = call_each(&mut bytes)?;
    Ok(answers == (false, false, false) && bytes.0.as_slice() == b"abc\n".as_slice())
}

#[test]
fn takes_each_call(rt: HostRuntime) -> Result<(), Fail> {
    assert!(rt; is_text_printed(rt.alloc())?);
    assert!(rt; is_text_written(rt.alloc())?);
    assert!(rt; are_bytes_written(rt.alloc())?);
    Ok(())
}

#[test]
fn writes_bytes_whole(rt: HostRuntime) -> Result<(), Fail> {
    let mut bytes: Vec<u8> = Vec::new(rt.alloc());
    bytes.write_bytes(b"ab")?;
    bytes.write_bytes(b"c")?;
    assert!(rt; bytes.as_slice() == b"abc".as_slice());
    Ok(())
}

#[test]
fn writes_text_whole(rt: HostRuntime) -> Result<(), Fail> {
    let mut text = String::new(rt.alloc());
    assert!(rt; text.write_text("ab").is_ok());
    assert!(rt; text.write_text("c").is_ok());
    expect_text(text.as_str(), "abc")?;
    Ok(())
}

/// Prints a module to a `PrintText`.
fn print_to_text<T: PrintText + Drop>(alloc: Global, to: T) -> Result<T, Error> {
    let mut printer = to;
    print_to(alloc, PREAMBLE, &mut printer)?;
    Ok(printer)
}

#[test]
fn prints_to_a_printer_of_text(rt: HostRuntime) -> Result<(), Fail> {
    let text = print_to_text(rt.alloc(), Text(String::new(rt.alloc())))?;
    expect_text(text.0.as_str(), EMPTY_TEXT)?;
    text_printers_gain_the_text::<Text>();
    Ok(())
}

/// Ends a line of a `Print` and a line of a `PrintText`. The traits are named by their paths at the root of the
/// crate.
fn end_lines<P: wasmprinter::Print, T: wasmprinter::PrintText>(
    printer: &mut P,
    text: &mut T,
) -> io::Result<()> {
    printer.newline()?;
    text.newline()
}

#[test]
fn has_printers_at_the_root_too(rt: HostRuntime) -> Result<(), Fail> {
    let mut printer = wasmprinter::PrintTermcolor(NoColor::new(Vec::new(rt.alloc())));
    let mut text = Text(String::new(rt.alloc()));
    end_lines(&mut printer, &mut text)?;
    assert!(rt; printer.0.into_inner().as_slice() == b"\n".as_slice());
    expect_text(text.0.as_str(), "\n")?;
    Ok(())
}
