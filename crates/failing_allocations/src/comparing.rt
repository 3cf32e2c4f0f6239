//! A printer that compares the text that it receives with an expected text. It allocates nothing.

ghost use Rattle.std.specs.Prelude.{None, false};

use std::fmt::Write;
use std::{fmt, io};
use wasmprinter::{OffsetsAndLines, Print};

#[derive(Drop)]
pub struct Comparing<'a> {
    /// The rest of the expected text.
    rest: &'a str,
    /// Whether the received text differs from the expected text.
    differs: bool,
    /// Whether the expected text has the calls that write no text.
    has_calls: bool,
}

impl<'a> Comparing<'a> {
    pub fn new(text: &'a str) -> Comparing<'a> {
        Comparing {
            rest: text,
            differs: false,
            has_calls: false,
        }
    }

    /// Returns a printer whose expected text contains every call, in the notation of the recorder of
    /// `wasmprinter_samples`: a line that starts at byte N is `[N]`, a line without a place is `[]`, a style is a
    /// letter in braces, and a claim is `{? NAME PLACE BYTES}`.
    pub fn with_calls(text: &'a str) -> Comparing<'a> {
        Comparing {
            rest: text,
            differs: false,
            has_calls: true,
        }
    }

    /// Compares a piece of text in which characters of the notation are escaped.
    fn compare_escaped(&mut self, s: &str) {
        for c in s.chars() {
            if matches!(c, '{' | '}' | '[' | ']' | '\\') {
                self.compare("\\");
            }
            self.compare(c.encode_utf8(&mut [0; 4]));
        }
    }

    /// Compares the notation of a call that writes no text.
    fn mark(&mut self, mark: &str) -> io::Result<()> {
        if self.has_calls {
            self.compare(mark);
        }
        Ok(())
    }

    /// Returns whether exactly the expected text was received.
    pub fn is_whole(&self) -> bool {
        self.is_prefix() && self.rest.is_empty()
    }

    /// Returns whether the received text is a prefix of the expected text.
    pub fn is_prefix(&self) -> bool {
        !self.differs
    }

    /// Returns the number of bytes of the expected text that were received.
    pub fn compared_len(&self, text: &str) -> usize {
        text.len().saturating_sub(self.rest.len())
    }

    /// Compares a piece of text.
    pub fn compare(&mut self, s: &str) {
        match self.rest.strip_prefix(s) {
            Some(rest) => self.rest = rest,
            None => self.differs = true,
        }
    }
}

impl fmt::Write for Comparing<'_> {
    fn write_str(&mut self, s: &str) -> fmt::Result {
        self.compare(s);
        Ok(())
    }
}

impl<'a> Print for Comparing<'a> {
    ghost meaning = { record {
      after = λ _ _ _. Unit {0};
      may_fail = λ _ _. Unit {0};
      partly = λ _ _ _ _. Unit {0};
      faults = λ _. None;
    } };

    ghost colors = { λ _. false };

    fn write_str(&mut self, s: &str) -> io::Result<()> {
        if self.has_calls {
            self.compare_escaped(s);
        } else {
            self.compare(s);
        }
        Ok(())
    }

    fn newline(&mut self) -> io::Result<()> {
        self.compare("\n");
        Ok(())
    }

    fn start_line(&mut self, binary_offset: Option<u64>) {
        if self.has_calls {
            let _ = match binary_offset {
                Some(place) => write!(self, "[{place:#x}]"),
                None => write!(self, "[]"),
            };
        }
    }

    fn print_custom_section(
        &mut self,
        name: &str,
        binary_offset: u64,
        bytes: &[u8],
    ) -> io::Result<bool> {
        if self.has_calls {
            let _ = write!(self, "{{? {name:?} {binary_offset:#x} {bytes:?}}}");
        }
        Ok(false)
    }

    fn start_literal(&mut self) -> io::Result<()> {
        self.mark("{L}")
    }

    fn start_name(&mut self) -> io::Result<()> {
        self.mark("{N}")
    }

    fn start_keyword(&mut self) -> io::Result<()> {
        self.mark("{K}")
    }

    fn start_type(&mut self) -> io::Result<()> {
        self.mark("{T}")
    }

    fn start_comment(&mut self) -> io::Result<()> {
        self.mark("{C}")
    }

    fn reset_color(&mut self) -> io::Result<()> {
        self.mark("{R}")
    }

    fn supports_async_color(&self) -> bool {
        false
    }
}

/// Returns whether these lines are the text.
pub fn are_text(lines: OffsetsAndLines<'_>, text: &str) -> bool {
    let mut comparing = Comparing::new(text);
    for (_, line) in lines {
        comparing.compare(line);
    }
    comparing.is_whole()
}
