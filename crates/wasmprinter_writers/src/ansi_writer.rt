//! A writer that shows colors as ANSI escape sequences.
ghost use Rattle.std.specs.Prelude.{◌≡◌, true, false, OnOk};
ghost use Rattle.std.specs.Io.KnownBytes.{Appends};
ghost use Rattle.wasmprinter_writers.specs.Writing.{WritesEach};
ghost use Rattle.wasmprinter_writers.specs.ColorCalls.{WritesSequences};
ghost use Rattle.wasmprinter_spec.specs.Looks.{foreground, bold_sequences, color_sequences};
ghost use Rattle.wasmprinter_writers.specs.Numbers.{number_of, color_of};

use crate::{Color, ColorSpec, WriteBytes, WriteColor};
use std::io;
use std::io::Write;

/// The sequence that ends all colors and bold text.
const RESET: &str = "\x1b[0m";

/// The sequence that starts bold text.
const BOLD: &str = "\x1b[1m";

/// A writer that forwards its bytes, and writes colors as ANSI escape sequences (Select Graphic Rendition of
/// ECMA-48).
#[derive(Debug, Drop)]
pub struct Ansi<W> {
    inner: W,
}

impl<W> Ansi<W> {
    /// Wraps a writer.
    pub fn new(inner: W) -> Ansi<W>
        ensures { result.inner ≡ inner }
    {
        Ansi { inner }
    }

    /// Returns the wrapped writer, to which nothing is written.
    pub fn into_inner(self) -> W
        ensures { result ≡ self.inner }
    {
        self.inner
    }
}

impl<W: WriteBytes> Write for Ansi<W> {
    ghost contents = { λ s. W.contents s.inner };

    fn write(&mut self, buf: &[u8]) -> io::Result<usize> {
        self.inner.write(buf)
    }

    fn flush(&mut self) -> io::Result<()> {
        self.inner.flush()
    }

    // Writes all bytes as one write of the wrapped writer, and returns its result (`exact`). On `Ok`, the wrapped
    // writer's contents, if it reports them, grow by the bytes (`bytes`).
    fn write_all(&mut self, buf: &[u8]) -> io::Result<()>
        ensures exact { W.takes self.old.inner buf.now result self.new.inner }
        ensures bytes { OnOk result (Appends (W.contents self.old.inner) (W.contents self.new.inner) buf.now) }
    {
        self.inner.write_bytes(buf)
    }
}

impl<W: WriteBytes> WriteColor for Ansi<W> {
    ghost sets_color = { WritesSequences (λ s. s.inner) W.takes };

    ghost is_colored = { λ _. true };

    ghost is_immediate = { λ _. false };

    fn supports_color(&self) -> bool {
        true
    }

    fn set_color(&mut self, spec: &ColorSpec) -> io::Result<()> {
        self.reset()?;
        write_bold(&mut self.inner, spec.bold())?;
        write_color(&mut self.inner, spec.fg(), spec.intense())
    }

    fn reset(&mut self) -> io::Result<()> {
        self.inner.write_bytes(RESET.as_bytes())
    }

    fn is_synchronous(&self) -> bool {
        false
    }
}

/// Writes the sequence for bold text if `is_bold` is set.
fn write_bold<W: WriteBytes>(w: &mut W, is_bold: bool) -> io::Result<()>
    ensures { WritesEach W.takes w.old (bold_sequences is_bold) result w.new }
{
    if is_bold {
        w.write_bytes(BOLD.as_bytes())
    } else {
        Ok(())
    }
}

/// Writes the sequence of the color, if there is one.
fn write_color<W: WriteBytes>(w: &mut W, fg: Option<Color>, is_intense: bool) -> io::Result<()>
    ensures { WritesEach W.takes w.old (color_sequences (color_of fg) is_intense) result w.new }
{
    match fg {
        Some(color) => w.write_bytes(sequence(color, is_intense).as_bytes()),
        None => Ok(()),
    }
}

/// Returns the escape sequence of a color. A normal color is one of the first eight, an intense color one of the
/// 256-color palette.
#[tactic(auto, using(crate::proofs::Decimals::decimals))]
fn sequence(color: Color, is_intense: bool) -> &'static str
    ensures { result.now ≡ foreground (number_of color) is_intense }
{
    match (color, is_intense) {
        (Color::Red, false) => "\x1b[31m",
        (Color::Green, false) => "\x1b[32m",
        (Color::Yellow, false) => "\x1b[33m",
        (Color::Magenta, false) => "\x1b[35m",
        (Color::Cyan, false) => "\x1b[36m",
        (Color::Red, true) => "\x1b[38;5;9m",
        (Color::Green, true) => "\x1b[38;5;10m",
        (Color::Yellow, true) => "\x1b[38;5;11m",
        (Color::Magenta, true) => "\x1b[38;5;13m",
        (Color::Cyan, true) => "\x1b[38;5;14m",
    }
}
