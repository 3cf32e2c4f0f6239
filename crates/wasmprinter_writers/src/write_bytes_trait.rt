//! Byte writers that write all bytes in one call.
ghost use Rattle.std.specs.Prelude.{Result, OnOk};
ghost use Rattle.std.specs.Io.KnownBytes.{Appends};
ghost use Rattle.wasmprinter_writers.specs.Writing.{Writing, TakesWhole};

use std::io;
use std::io::Write;

/// A byte writer as the printers of this crate use it: each call writes all of its bytes. Every `Write` is one.
///
/// The contract of `write_all` says nothing about a call that fails. The contract of `write_bytes` relates each
/// call to its result. So it can say which calls were made, that none was made after a failed one, and that the
/// error is that of the failed call.
pub trait WriteBytes: Write {
    // The results that a write of these bytes may have, and the states of the writer after it.
    ghost takes: { Writing Self };

    /// Writes all bytes. `takes` says which results and which states after the call are allowed (`exact`). On `Ok`, the
    /// writer's contents, if it reports them, grow by the bytes (`bytes`).
    ///
    /// # Errors
    ///
    /// - The writer's error. The contract of [`Write`] does not say how many of the bytes were then written.
    fn write_bytes(&mut self, bytes: &[u8]) -> io::Result<()>
        ensures exact { takes self.old bytes.now result self.new }
        ensures bytes { OnOk result (Appends (Self.contents self.old) (Self.contents self.new) bytes.now) };
}

// On success the writer's contents, if it reports them, grow by these bytes.
impl<W: Write> WriteBytes for W {
    ghost takes = { TakesWhole W.contents };

    fn write_bytes(&mut self, bytes: &[u8]) -> io::Result<()> {
        self.write_all(bytes)
    }
}
