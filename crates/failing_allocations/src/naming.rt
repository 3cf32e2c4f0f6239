//! Names that are written to a tracker whose text has room for a part of the name only. A failed allocation must
//! leave the pieces of the name that fit. A piece is a character of the text, except that `\u{` is one piece.

use crate::ending::Ending;
use std::alloc::{AllocError, Global};
use std::fmt;
use std::fmt::Write;
use std::io::ErrorKind;
use wasmprinter::text::{write_bytes, write_quoted};
use wasmprinter::{Error, Print};
use wasmprinter_writers::LineTracker;

/// The number of characters that each of the first four entries of `LETTERS` has.
const LETTERS_LEN: usize = 8;

/// Characters of one, two, three and four bytes, and again characters of one byte, some of which are escaped.
const LETTERS: &[&str] = &[
    "aB~z 0x-",
    "\u{80}éßñλж\u{7ff}æ",
    "\u{800}中文字あ€\u{ffff}ह",
    "\u{10000}😀🎈🐢🌍🚀\u{10ffff}🦀",
    "aB\"z \\x\u{1b}",
];

/// The maximum number of bytes of a character.
const WIDEST: usize = 4;

/// The maximum length of the text before a name, in bytes.
const OLD_LEN: usize = 40;

/// The increase of the length of the text before a name for each character of the name, modulo `OLD_LEN`.
const OLD_STEP: usize = 7;

/// The increase of the room for a name for each character of the name, modulo the name's length.
const ROOM_STEP: usize = 31;

/// The increase of that room with the width of the characters.
const WIDTH_STEP: usize = 17;

/// The room for the text of the longest name: 300 characters of at most 13 bytes each, and the quotes.
const LONGEST: usize = 4096;

/// The function that writes a name.
#[derive(Clone, Copy)]
pub enum Form {
    /// `write_each_char` of the printer.
    Chars,
    /// `write_quoted`.
    Quoted,
    /// `write_bytes`.
    Bytes,
}

impl Form {
    /// Returns the form with this number, in the order of the variants.
    pub fn of(number: u32) -> Form {
        match number {
            0 => Form::Chars,
            1 => Form::Quoted,
            _ => Form::Bytes,
        }
    }
}

/// A name, and the function that writes it.
#[derive(Clone, Copy)]
pub struct Name {
    /// The function that writes it.
    pub form: Form,
    /// The number of bytes of each character. 0 selects characters of one to four bytes by turns. 5 selects
    /// characters of one byte, some of which are escaped.
    pub width: usize,
    /// The number of characters.
    pub chars: usize,
}

/// Returns the character with this number and width.
fn letter(number: usize, width: usize) -> char {
    let letters = match width {
        1 => LETTERS[0],
        2 => LETTERS[1],
        3 => LETTERS[2],
        4 => LETTERS[3],
        _ => LETTERS[4],
    };
    letters.chars().nth(number % LETTERS_LEN).unwrap_or('?')
}

/// Returns whether a character represents itself in a quoted string.
fn is_plain(c: char) -> bool {
    matches!(c, ' '..='~') && c != '"' && c != '\\'
}

/// Appends a quoted string: the text of a name.
fn push_quoted(text: &mut String, name: &str) -> Result<(), fmt::Error> {
    text.write_char('"')?;
    for c in name.chars() {
        if is_plain(c) {
            text.write_char(c)?;
        } else {
            write!(text, "\\u{{{:x}}}", u32::from(c))?;
        }
    }
    text.write_char('"')
}

/// Appends a quoted string: the text of bytes.
fn push_bytes(text: &mut String, bytes: &[u8]) -> Result<(), fmt::Error> {
    text.write_char('"')?;
    for &byte in bytes {
        let c = char::from(byte);
        if is_plain(c) {
            text.write_char(c)?;
        } else {
            write!(text, "\\{byte:02x}")?;
        }
    }
    text.write_char('"')
}

/// Returns the length of the longest prefix of a text that consists of whole pieces and has at most `room` bytes.
fn fitting_len(text: &str, room: usize) -> usize {
    if text.len() <= room {
        return text.len();
    }
    let mut len = 0;
    let mut before = ' ';
    for (at, c) in text.char_indices() {
        let is_inside = (before == '\\' && c == 'u') || c == '{';
        if !is_inside && at <= room {
            len = at;
        }
        before = c;
    }
    len
}

impl Name {
    /// Returns the characters of the name.
    fn content(&self, alloc: Global) -> Result<String, AllocError> {
        let mut content = String::with_capacity(alloc, self.chars.saturating_mul(WIDEST))?;
        for number in 0..self.chars {
            let width = if self.width == 0 {
                number % WIDEST + 1
            } else {
                self.width
            };
            content.push(letter(number, width))?;
        }
        Ok(content)
    }

    /// Returns the text of the name. The only allocation is made at the start.
    fn expected(&self, alloc: Global, content: &str) -> Result<String, AllocError> {
        let mut text = String::with_capacity(alloc, LONGEST)?;
        let written = match self.form {
            Form::Chars => text.write_str(content),
            Form::Quoted => push_quoted(&mut text, content),
            Form::Bytes => push_bytes(&mut text, content.as_bytes()),
        };
        written.map_err(|_| AllocError)?;
        Ok(text)
    }

    /// Returns the length of the text before the name.
    fn old_len(&self) -> usize {
        self.chars.wrapping_mul(OLD_STEP) % OLD_LEN + 1
    }

    /// Returns the room for a name that is written in `len` bytes: less than `len`.
    fn room(&self, len: usize) -> usize {
        let mixed = self
            .chars
            .wrapping_mul(ROOM_STEP)
            .wrapping_add(self.width.wrapping_mul(WIDTH_STEP));
        if len == 0 { 0 } else { mixed % len }
    }

    /// Writes the name with the library. This function has no contract, so that the proofs of its callers do not
    /// apply one to their own printers.
    fn write<P: Print>(&self, p: &mut P, content: &str) -> Result<(), Error> {
        match self.form {
            Form::Chars => p.write_each_char(content)?,
            Form::Quoted => write_quoted(p, content)?,
            Form::Bytes => write_bytes(p, content.as_bytes())?,
        }
        Ok(())
    }

    /// Returns a text with room for `room` bytes after its old text.
    fn old_text(&self, alloc: Global, room: usize) -> Result<String, AllocError> {
        let mut text = String::with_capacity(alloc, self.old_len().saturating_add(room))?;
        for _ in 0..self.old_len() {
            text.push('o')?;
        }
        Ok(text)
    }

    /// Returns whether a text is the old text and then the first `len` bytes of this one.
    fn has_appended(&self, text: &str, whole: &str, len: usize) -> bool {
        let rest = text.trim_start_matches('o');
        let old_len = text.len().saturating_sub(rest.len());
        old_len == self.old_len() && rest.len() == len && whole.starts_with(rest)
    }

    /// Writes the name to a tracker. The first three allocations are the program's own, and the fourth is for the
    /// tracker's text.
    fn append(&self, alloc: Global) -> Result<Ending, AllocError> {
        let content = self.content(alloc)?;
        let whole = self.expected(alloc, &content)?;
        let room = self.room(whole.len());
        let text = self.old_text(alloc, room)?;
        let mut tracker = LineTracker::new(alloc, text);
        let written = self.write(&mut tracker, &content);
        let (text, _) = tracker.finish();
        Ok(match written {
            Ok(()) => Ending::of(self.has_appended(&text, &whole, whole.len()), "wrong text"),
            Err(error) => Ending::of(
                self.has_appended(&text, &whole, fitting_len(&whole, room)),
                "wrong text after a failed allocation",
            )
            .or(Ending::of_printer_error(error, ErrorKind::OutOfMemory)),
        })
    }

    /// Writes the name to a tracker, and returns the ending.
    pub fn ending(&self, alloc: Global) -> Ending {
        match self.append(alloc) {
            Ok(ending) => ending,
            Err(_) => Ending::Other("own request"),
        }
    }
}
