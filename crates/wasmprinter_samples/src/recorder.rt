//! A printer for tests that records each call and can be set to fail one call.

ghost use Rattle.std.specs.Prelude.{◌≡◌, false};
ghost use Rattle.wasmprinter_samples.specs.Counting.{Counts, counting};

use std::alloc::{AllocError, Global};
use std::io;
use std::io::ErrorKind;
use std::marker::Model;
use wasmprinter_print::Print;

/// The mark that is recorded after a call that failed.
pub const REFUSED: &str = "{!}";

/// A printer that records its calls in order, as follows:
///
/// - Text is recorded as it is, with a backslash before each brace, bracket and backslash, and `\n` for a line
///   feed. So the marks below denote calls only.
/// - A line feed is a call of `newline`.
/// - `[0x1f]` or `[]` is the start of a line, with its place or without.
/// - `{L}`, `{N}`, `{K}`, `{T}`, `{C}` and `{R}` are styles.
/// - `{? "name" 0x8 [1, 2]}` asks whether the printer claims a custom section.
/// - `{!}` follows the call that failed.
#[derive(Drop)]
pub struct Recorder {
    calls: String,
    /// The number of calls so far that can fail.
    made: u32,
    /// The number of the call that fails, and its error.
    refusal: Option<(u32, ErrorKind)>,
    /// The name of the custom sections that the recorder claims. If it is empty, the recorder claims none.
    taken: &'static str,
    /// Whether a call could not be recorded.
    lost: bool,
    /// The number of failed calls.
    faults: u64,
}

// Contracts see only the number of failed calls.
impl Model for Recorder {
    ghost use Rattle.std.specs.Prelude.{ℕ};

    ghost Value = { ℕ };

    ghost view = { λ r. r.faults };
}

impl Recorder {
    /// Returns a recorder that fails no call and claims no custom section. Contracts see a recorder as the number of
    /// calls that have failed, which is 0.
    pub fn new(alloc: Global) -> Recorder
        ensures { result ≡ 0 }
    {
        Recorder {
            calls: String::new(alloc),
            made: 0,
            refusal: None,
            taken: "",
            lost: false,
            faults: 0,
        }
    }

    /// Returns a recorder that fails the call with this number, with an error of this kind. Only calls that can fail
    /// are counted, from 1; the number 0 fails none.
    /// Contracts see a recorder as the number of calls that have failed, which is 0.
    pub fn with_refusal(alloc: Global, call: u32, kind: ErrorKind) -> Recorder
        ensures { result ≡ 0 }
    {
        let mut recorder = Recorder::new(alloc);
        recorder.refusal = Some((call, kind));
        recorder
    }

    /// Returns a recorder that claims the custom sections with this name; an empty name claims none. Contracts see a
    /// recorder as the number of calls that have failed, which is 0.
    pub fn with_section_taken(alloc: Global, name: &'static str) -> Recorder
        ensures { result ≡ 0 }
    {
        let mut recorder = Recorder::new(alloc);
        recorder.taken = name;
        recorder
    }

    /// Returns the recorded calls, in the form that [`Recorder`] describes. No contract says which they are.
    pub fn calls(&self) -> &str {
        self.calls.as_str()
    }

    /// Returns the number of calls so far that can fail. No contract says how many they are.
    pub fn call_count(&self) -> u32 {
        self.made
    }

    /// Reports whether every call was recorded: no allocation failed. No contract says so.
    pub fn is_complete(&self) -> bool {
        !self.lost
    }

    /// Returns the number of failed calls, at most 2^64 - 1: at this number the count stays.
    pub fn faults(&self) -> u64
        ensures { result ≡ self.now }
    {
        self.faults
    }

    /// Counts a call after the attempt to record it, and returns the call's result.
    fn answer(&mut self, written: Result<(), AllocError>) -> io::Result<()>
        ensures { Counts self.old self.new result }
    {
        self.made = self.made.saturating_add(1);
        if written.is_err() {
            self.lost = true;
        }
        match self.refusal {
            Some((call, kind)) if call == self.made => {
                if self.calls.push_str(REFUSED).is_err() {
                    self.lost = true;
                }
                self.faults = self.faults.saturating_add(1);
                Err(io::Error::from(kind))
            }
            _ => Ok(()),
        }
    }

    fn style(&mut self, word: &str) -> io::Result<()>
        ensures { Counts self.old self.new result }
    {
        let written = self.calls.push_str(word);
        self.answer(written)
    }
}

fn write_text(calls: &mut String, s: &str) -> Result<(), AllocError> {
    for c in s.chars() {
        match c {
            '\n' => calls.push_str("\\n")?,
            '{' | '}' | '[' | ']' | '\\' => write!(calls, "\\{c}")?,
            _ => write!(calls, "{c}")?,
        }
    }
    Ok(())
}

fn write_line(calls: &mut String, place: Option<u64>) -> Result<(), AllocError> {
    match place {
        Some(place) => write!(calls, "[{place:#x}]"),
        None => calls.push_str("[]"),
    }
}

impl Print for Recorder {
    ghost meaning = { counting };

    ghost colors = { λ _. false };

    fn write_str(&mut self, s: &str) -> io::Result<()> {
        let written = write_text(&mut self.calls, s);
        self.answer(written)
    }

    fn newline(&mut self) -> io::Result<()> {
        let written = self.calls.push_str("\n");
        self.answer(written)
    }

    fn start_line(&mut self, binary_offset: Option<u64>) {
        if write_line(&mut self.calls, binary_offset).is_err() {
            self.lost = true;
        }
    }

    fn print_custom_section(
        &mut self,
        name: &str,
        binary_offset: u64,
        bytes: &[u8],
    ) -> io::Result<bool> {
        let written = write!(self.calls, "{{? {name:?} {binary_offset:#x} {bytes:?}}}");
        self.answer(written)?;
        Ok(!name.is_empty() && name == self.taken)
    }

    fn start_literal(&mut self) -> io::Result<()> {
        self.style("{L}")
    }

    fn start_name(&mut self) -> io::Result<()> {
        self.style("{N}")
    }

    fn start_keyword(&mut self) -> io::Result<()> {
        self.style("{K}")
    }

    fn start_type(&mut self) -> io::Result<()> {
        self.style("{T}")
    }

    fn start_comment(&mut self) -> io::Result<()> {
        self.style("{C}")
    }

    fn reset_color(&mut self) -> io::Result<()> {
        self.style("{R}")
    }

    fn supports_async_color(&self) -> bool {
        false
    }
}
