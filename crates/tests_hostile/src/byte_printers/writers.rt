//! `PrintFmtWrite` over a string, and over a text writer that refuses one piece.

use crate::byte_printers::printing::make_calls_without_text;
use std::alloc::{AllocError, Global};
use std::fmt;
use std::io::ErrorKind;
use std::test::Fail;
use wasmprinter::{Config, Error, Print, PrintFmtWrite, print};
use wasmprinter_expecting::print_to;
use wasmprinter_samples::{EMPTY_TEXT, IDENTITY, IDENTITY_TEXT, PREAMBLE, expect_text};

/// A text writer that accepts each piece, and can refuse one.
#[derive(Drop)]
pub struct TextWriter {
    /// The pieces that were accepted, each with `after` after it.
    pub text: String,
    after: &'static str,
    /// The number of pieces that the writer received.
    given: u32,
    /// The number of the piece that the writer refuses, counted from 1, or 0 for none.
    refused: u32,
}

impl TextWriter {
    fn new(text: String, refused: u32) -> TextWriter {
        TextWriter {
            text,
            after: "",
            given: 0,
            refused,
        }
    }

    /// Returns a writer that accepts each piece, and appends a bar after it.
    pub fn with_bars(alloc: Global) -> TextWriter {
        let mut writer = TextWriter::new(String::new(alloc), 0);
        writer.after = "|";
        writer
    }
}

impl fmt::Write for TextWriter {
    fn write_str(&mut self, s: &str) -> fmt::Result {
        self.given = self.given.saturating_add(1);
        if self.given == self.refused {
            return Err(fmt::Error);
        }
        self.text.push_str(s)?;
        self.text.push_str(self.after)?;
        Ok(())
    }
}

/// Prints `IDENTITY` to a writer that refuses the piece with this number, which does not occur. Returns the number of
/// pieces.
fn count_pieces(alloc: Global, refused: u32) -> Result<u32, Fail> {
    let mut printer = PrintFmtWrite(TextWriter::new(String::new(alloc), refused));
    print_to(&Config::new(), alloc, IDENTITY, &mut printer)?;
    expect_text(printer.0.text.as_str(), IDENTITY_TEXT)?;
    Ok(printer.0.given)
}

/// Reports whether printing `IDENTITY` stops at the piece with this number, which is refused. The printer writes no
/// piece after it, and no earlier piece fails.
fn stops_at(alloc: Global, piece: u32) -> bool {
    let mut printer = PrintFmtWrite(TextWriter::new(String::new(alloc), piece));
    let refused = print_to(&Config::new(), alloc, IDENTITY, &mut printer);
    matches!(refused, Err(Error::Printer(e)) if e.kind() == ErrorKind::Other)
        && printer.0.given == piece
        && IDENTITY_TEXT.starts_with(printer.0.text.as_str())
}

/// Returns the number of the first piece up to this last one at which printing does not stop if it is refused, or
/// `None` if there is no such piece.
fn first_passed(alloc: Global, last: u32) -> Option<u32> {
    for piece in 1..=last {
        if !stops_at(alloc, piece) {
            return Some(piece);
        }
    }
    None
}

#[test]
fn writes_nothing_after_a_piece_that_was_refused(rt: HostRuntime) -> Result<(), Fail> {
    let pieces = count_pieces(rt.alloc(), 0)?;
    let passed = first_passed(rt.alloc(), pieces);
    assert!(rt; passed == None, "at piece {passed:?}");
    assert_eq!(rt; count_pieces(rt.alloc(), pieces.saturating_add(1))?, pieces);
    Ok(())
}

#[test]
fn gives_each_piece_and_line_feed_to_the_writer(rt: HostRuntime) -> Result<(), Fail> {
    let old = String::from_str(rt.alloc(), "old ")?;
    let mut printer = PrintFmtWrite(TextWriter::new(old, 3));
    printer.write_str("(a")?;
    assert!(rt; !make_calls_without_text(&mut printer)?);
    assert!(rt; !printer.supports_async_color());
    printer.newline()?;
    let refused = printer.write_str("b");
    assert!(rt; matches!(refused, Err(e) if e.kind() == ErrorKind::Other));
    printer.write_str("c")?;
    assert!(rt; printer.0.given == 4);
    expect_text(printer.0.text.as_str(), "old (a\nc")?;
    let refused = PrintFmtWrite(TextWriter::new(String::new(rt.alloc()), 1)).newline();
    assert!(rt; matches!(refused, Err(e) if e.kind() == ErrorKind::Other));
    Ok(())
}

#[test]
fn keeps_the_text_that_a_string_begins_with(rt: HostRuntime) -> Result<(), Fail> {
    let alloc = rt.alloc();
    let mut printer = print::PrintFmtWrite(String::from_str(alloc, "first ")?);
    print_to(&Config::default(), alloc, PREAMBLE, &mut printer)?;
    print_to(&Config::default(), alloc, PREAMBLE, &mut printer)?;
    let refused = print_to(&Config::default(), alloc, &PREAMBLE[..7], &mut printer);
    assert!(rt; matches!(refused, Err(Error::Malformed { .. })));
    let text = printer
        .0
        .as_str()
        .strip_prefix("first ")
        .ok_or("the old text is gone")?;
    let second = text.strip_prefix(EMPTY_TEXT).ok_or("not the first module")?;
    assert!(rt; second == EMPTY_TEXT);
    Ok(())
}

/// Returns a text of this many digits.
pub fn digits(alloc: Global, len: u32) -> Result<String, AllocError> {
    let mut text = String::new(alloc);
    for at in 0..len {
        text.push(char::from(b'0' + (at % 10) as u8))?;
    }
    Ok(text)
}

/// Reports whether a text is forwarded in one write, and whether the error of that write is returned.
fn is_passed_on(alloc: Global, text: &str) -> bool {
    let mut taking = PrintFmtWrite(TextWriter::new(String::new(alloc), 0));
    let taken = Print::write_str(&mut taking, text);
    let mut refusing = PrintFmtWrite(TextWriter::new(String::new(alloc), 1));
    let refused = Print::write_str(&mut refusing, text);
    taken.is_ok()
        && taking.0.given == 1
        && taking.0.text.as_str() == text
        && matches!(refused, Err(e) if e.kind() == ErrorKind::Other)
        && refusing.0.given == 1
        && refusing.0.text.is_empty()
}

/// Ranges of lengths of texts, in bytes.
const LENGTHS: &[(u32, u32)] = &[(0, 300), (10_000, 10_000)];

/// Reports whether a text of this length is forwarded in one write, and whether the error of that write is returned.
fn passes_on(alloc: Global, len: u32) -> Result<bool, AllocError> {
    let text = digits(alloc, len)?;
    Ok(is_passed_on(alloc, text.as_str()))
}

/// Returns the first length in these ranges of which a text is not forwarded, or `None` if there is no such length.
fn first_split(alloc: Global, ranges: &[(u32, u32)]) -> Result<Option<u32>, AllocError> {
    for (from, to) in ranges {
        for len in *from..=*to {
            if !passes_on(alloc, len)? {
                return Ok(Some(len));
            }
        }
    }
    Ok(None)
}

#[test]
fn passes_on_a_text_of_each_length(rt: HostRuntime) -> Result<(), Fail> {
    let split = first_split(rt.alloc(), LENGTHS)?;
    assert!(rt; split == None, "{split:?} bytes");
    Ok(())
}
