//! A printer for tests of how a text is split into calls. It keeps the calls separate, and can refuse one. The calls
//! for a module are compared with typed ones.
ghost use Rattle.std.specs.Prelude.{None, false};

use std::alloc::{AllocError, Global};
use std::io;
use std::io::{ErrorKind, Write};
use std::test::Fail;
use wasmprinter::{Config, Error, Print};
use wasmprinter_expecting::{expect_same, print_to};

/// How a function that makes the calls ended.
#[derive(Clone, Copy, PartialEq)]
pub enum Ending {
    /// No call failed.
    Whole,
    /// The function returned the error of the refused call.
    Refused,
    /// The function returned the error of a call after the refused one.
    Late,
    /// The function returned any other error.
    Other,
}

impl Ending {
    pub fn of(answer: Result<(), Error>) -> Ending {
        match answer {
            Ok(()) => Ending::Whole,
            Err(Error::Printer(e)) if e.kind() == ErrorKind::BrokenPipe => Ending::Refused,
            Err(Error::Printer(e)) if e.kind() == ErrorKind::TimedOut => Ending::Late,
            Err(_) => Ending::Other,
        }
    }
}

/// The calls so far, in order, in this encoding. The bytes that mark calls occur in no text:
///
/// - a text as it is, with `0xff` after it, so that two texts differ from their concatenation;
/// - `0xfe` for `start_literal`, `0xfd` for `reset_color`;
/// - `0xfc`, `0xfb`, `0xfa` and `0xf9` for the other styles, in the order of the trait's methods;
/// - `0xf8` for `newline`;
/// - `0xf7` for `start_line`, with `[0x1f]` or `[]` after it;
/// - `0xf6` for `print_custom_section`, with the name of the section, its place and the length of its data after
///   it.
#[derive(Drop)]
pub struct Calls {
    list: Vec<u8>,
    /// The number of calls so far that can fail.
    made: usize,
    /// The number of the call that is refused, counted from 1, or 0 for none. All calls after it are refused too, with
    /// another error.
    refused: usize,
    /// Whether a call could not be recorded.
    lost: bool,
}

impl Calls {
    /// Returns a printer that refuses the call with this number, or no call if the number is 0.
    pub fn new(alloc: Global, refused: usize) -> Calls {
        Calls {
            list: Vec::new(alloc),
            made: 0,
            refused,
            lost: false,
        }
    }

    /// Returns the recorded calls in their encoding.
    pub fn list(&self) -> &[u8] {
        self.list.as_slice()
    }

    /// Returns the number of calls so far that can fail.
    pub fn count(&self) -> usize {
        self.made
    }

    /// Reports whether each call was recorded.
    pub fn is_complete(&self) -> bool {
        !self.lost
    }

    /// Reports whether exactly these calls were made, and each was recorded.
    pub fn are(&self, list: &[u8]) -> bool {
        self.is_complete() && self.list() == list
    }

    /// Returns the calls in a form that can be typed and read.
    pub fn shown(&self, alloc: Global) -> Result<String, AllocError> {
        shown_calls(alloc, self.list())
    }

    /// Returns the result of a call, given whether it could be recorded.
    fn answer(&mut self, kept: Result<(), AllocError>) -> io::Result<()> {
        self.made = self.made.saturating_add(1);
        self.lost = self.lost || kept.is_err();
        if self.refused == 0 || self.made < self.refused {
            Ok(())
        } else if self.made == self.refused {
            Err(io::Error::from(ErrorKind::BrokenPipe))
        } else {
            Err(io::Error::from(ErrorKind::TimedOut))
        }
    }

    fn keep(&mut self, byte: u8) -> io::Result<()> {
        let kept = self.keep_byte(byte);
        self.answer(kept)
    }

    fn keep_byte(&mut self, byte: u8) -> Result<(), AllocError> {
        self.list.push(byte)?;
        Ok(())
    }

    fn keep_text(&mut self, s: &str) -> Result<(), AllocError> {
        self.list.extend_from_slice(s.as_bytes())?;
        self.keep_byte(0xff)
    }

    fn keep_line(&mut self, place: Option<u64>) -> Result<(), AllocError> {
        self.keep_byte(0xf7)?;
        match place {
            Some(place) => without_cause(write!(self.list, "[{place:#x}]")),
            None => self.list.extend_from_slice(b"[]"),
        }
    }

    fn keep_section(&mut self, name: &str, place: u64, len: usize) -> Result<(), AllocError> {
        self.keep_byte(0xf6)?;
        without_cause(write!(self.list, "{{? {name} {place:#x} {len}}}"))
    }
}

/// Checks that printing a module with these options makes exactly these calls, in the form of `Calls::shown`.
pub fn expect_calls(
    name: &'static str,
    config: &Config,
    alloc: Global,
    wasm: &[u8],
    typed: &str,
) -> Result<(), Fail> {
    let mut calls = Calls::new(alloc, 0);
    print_to(config, alloc, wasm, &mut calls)?;
    if !calls.is_complete() {
        return Err((name, "a call is lost"))?;
    }
    expect_same(name, calls.shown(alloc)?.as_str(), typed)
}

/// Converts the result of a write into memory, which fails only if an allocation fails.
fn without_cause(written: io::Result<()>) -> Result<(), AllocError> {
    match written {
        Ok(()) => Ok(()),
        Err(_) => Err(AllocError),
    }
}

/// Returns a list of calls in a form that can be typed and read:
///
/// - a text as it is, with a bar after it;
/// - a line feed for `newline`;
/// - `{L}`, `{N}`, `{K}`, `{T}`, `{C}` and `{R}` for the styles and for `reset_color`;
/// - `[0x1f]` or `[]` for `start_line`;
/// - `{? name 0x1f 2}` for `print_custom_section`: the name, the place and the length of the data.
pub fn shown_calls(alloc: Global, list: &[u8]) -> Result<String, AllocError> {
    let mut shown = String::new(alloc);
    for byte in list {
        show_byte(&mut shown, *byte)?;
    }
    Ok(shown)
}

/// Appends the readable form of one byte of the list of calls.
fn show_byte(shown: &mut String, byte: u8) -> Result<(), AllocError> {
    match byte {
        0xff => shown.push('|'),
        0xfe => shown.push_str("{L}"),
        0xfd => shown.push_str("{R}"),
        0xfc => shown.push_str("{N}"),
        0xfb => shown.push_str("{K}"),
        0xfa => shown.push_str("{T}"),
        0xf9 => shown.push_str("{C}"),
        0xf8 => shown.push('\n'),
        0xf6 | 0xf7 => Ok(()),
        _ => shown.push(char::from(byte)),
    }
}

impl Print for Calls {
    ghost meaning = { record {
      after = λ _ _ _. Unit {0};
      may_fail = λ _ _. Unit {0};
      partly = λ _ _ _ _. Unit {0};
      faults = λ _. None;
    } };

    ghost colors = { λ _. false };

    fn write_str(&mut self, s: &str) -> io::Result<()> {
        let kept = self.keep_text(s);
        self.answer(kept)
    }

    fn newline(&mut self) -> io::Result<()> {
        self.keep(0xf8)
    }

    fn start_line(&mut self, binary_offset: Option<u64>) {
        if self.keep_line(binary_offset).is_err() {
            self.lost = true;
        }
    }

    fn print_custom_section(
        &mut self,
        name: &str,
        binary_offset: u64,
        bytes: &[u8],
    ) -> io::Result<bool> {
        let kept = self.keep_section(name, binary_offset, bytes.len());
        self.answer(kept)?;
        Ok(false)
    }

    fn start_literal(&mut self) -> io::Result<()> {
        self.keep(0xfe)
    }

    fn start_name(&mut self) -> io::Result<()> {
        self.keep(0xfc)
    }

    fn start_keyword(&mut self) -> io::Result<()> {
        self.keep(0xfb)
    }

    fn start_type(&mut self) -> io::Result<()> {
        self.keep(0xfa)
    }

    fn start_comment(&mut self) -> io::Result<()> {
        self.keep(0xf9)
    }

    fn reset_color(&mut self) -> io::Result<()> {
        self.keep(0xfd)
    }

    fn supports_async_color(&self) -> bool {
        false
    }
}
