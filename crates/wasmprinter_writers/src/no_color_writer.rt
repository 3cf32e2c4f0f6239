//! A writer that shows no colors.
ghost use Rattle.std.specs.Prelude.{◌≡◌, false, OnOk};
ghost use Rattle.std.specs.Io.KnownBytes.{Appends};
ghost use Rattle.wasmprinter_writers.specs.ColorCalls.{KeepsColor};

use crate::{ColorSpec, WriteBytes, WriteColor};
use std::io;
use std::io::Write;

/// A writer that forwards its bytes, and writes nothing for colors.
#[derive(Debug, Drop)]
pub struct NoColor<W> {
    inner: W,
}

impl<W> NoColor<W> {
    /// Wraps a writer.
    pub fn new(inner: W) -> NoColor<W>
        ensures { result.inner ≡ inner }
    {
        NoColor { inner }
    }

    /// Returns the wrapped writer, to which nothing is written.
    pub fn into_inner(self) -> W
        ensures { result ≡ self.inner }
    {
        self.inner
    }
}

impl<W: WriteBytes> Write for NoColor<W> {
    ghost contents = { λ s. W.contents s.inner };

    fn write(&mut self, buf: &[u8]) -> io::Result<usize> {
        self.inner.write(buf)
    }

    fn flush(&mut self) -> io::Result<()> {
        self.inner.flush()
    }

    // Writes all bytes as one write of the wrapped writer, and returns its result (`exact`). On `Ok`, the wrapped
    // writer's contents, if it reports them, grow by the bytes (`bytes`).
    fn write_all(&mut self, buf: &[u8]) -> io::Result<()>
        ensures exact { W.takes self.old.inner buf.now result self.new.inner }
        ensures bytes { OnOk result (Appends (W.contents self.old.inner) (W.contents self.new.inner) buf.now) }
    {
        self.inner.write_bytes(buf)
    }
}

impl<W: WriteBytes> WriteColor for NoColor<W> {
    ghost sets_color = { KeepsColor };

    ghost is_colored = { λ _. false };

    ghost is_immediate = { λ _. false };

    fn supports_color(&self) -> bool {
        false
    }

    fn set_color(&mut self, _spec: &ColorSpec) -> io::Result<()> {
        Ok(())
    }

    fn reset(&mut self) -> io::Result<()> {
        Ok(())
    }

    fn is_synchronous(&self) -> bool {
        false
    }
}
