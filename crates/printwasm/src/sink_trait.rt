//! The streams to which the program writes.
//!
//! The program is generic over the `Source` of files and over its `Sink`s. In generic code the prover knows of a write
//! only what the relation `takes` says. So the contract of the program can say which file was read, which text was
//! passed to a sink, and with which result.
ghost use Rattle.std.specs.Prelude.{ℕ, List, Some, Option, Result, OnOk, IfSome};
ghost use Rattle.std.specs.Io.KnownBytes.{Appends};
ghost use Rattle.std.specs.declared.io.Error.{Error};

use std::fmt::Display;
use std::io;
use std::io::Write;

/// A destination of texts.
pub trait Sink {
    // The possible results of writing this text, or a text that no contract specifies, with the state of the sink
    // after it.
    ghost takes: { Self → Option (List ℕ) → Result (Unit {0}) Error → Self → Type 0 };

    /// Writes a whole text, or returns an error. `takes` allows this result and the state after it, also for an error.
    fn write_text<D: Display + Drop>(&mut self, text: D) -> io::Result<()>
        ensures { takes self.old (D.output text) result self.new };

    /// Writes all bytes of a text, or returns an error. `takes` allows this result and the state after it, also for an
    /// error.
    fn write_bytes(&mut self, text: &[u8]) -> io::Result<()>
        ensures { takes self.old (Some text.now) result self.new };
}

// A writer gains exactly the text, if it reports its bytes and a contract specifies the text.
impl<W: Write> Sink for W {
    ghost takes = { λ old text result new. OnOk result (IfSome text (Appends (W.contents old) (W.contents new))) };

    fn write_text<D: Display + Drop>(&mut self, text: D) -> io::Result<()> {
        write!(self, "{text}")
    }

    fn write_bytes(&mut self, text: &[u8]) -> io::Result<()> {
        self.write_all(text)
    }
}
