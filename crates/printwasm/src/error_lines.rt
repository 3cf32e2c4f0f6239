//! The lines that report errors.
//!
//! The program is generic over `Render`. In generic code the prover knows of a text only which error it describes. So
//! the contract of the program can say which error it reports. The text goes directly to the sink: it needs no memory
//! and is never truncated.
ghost use Rattle.std.specs.Prelude.{◌≡◌, ℕ, List, Option, Some};
ghost use Rattle.std.specs.IoError.{error_kind};
ghost use Rattle.printwasm.specs.Messages.{words_error_text};
ghost use Rattle.printwasm.specs.Outcome.{error_line};

use crate::sink_trait::Sink;
use std::fmt::Display;
use std::io::ErrorKind;
use std::{fmt, io};

/// Writes the lines that report errors of a type.
pub trait Render<X> {
    // The text that this error may have, or `None` for a text that no contract specifies.
    ghost renders: { Self → X → Option (List ℕ) → Type 0 };

    /// Writes the line of an error in one write: `error: `, a text that `renders` allows for the error, and a line
    /// feed. Returns the result of this write.
    fn write_line<E: Sink>(&self, err: &mut E, error: &X) -> io::Result<()>
        ensures { (text : Option (List ℕ)) × renders self.now error.now text × E.takes err.old (error_line text) result err.new };
}

/// Writes the text that `Display` gives for an error.
#[derive(Clone, Copy)]
pub struct ByDisplay;

impl<X: Display> Render<X> for ByDisplay {
    ghost renders = { λ _ error text. text ≡ X.output error };

    fn write_line<E: Sink>(&self, err: &mut E, error: &X) -> io::Result<()> {
        err.write_text(format_args!("error: {error}\n"))
    }
}

/// An error in reading the program's arguments. It has its own texts, since no contract specifies the text of an
/// `io::Error`.
#[derive(Drop)]
pub struct WordsError {
    /// The error of the system.
    pub cause: io::Error,
}

impl Display for WordsError {
    ghost output = { λ e. Some (words_error_text (error_kind e.cause)) };

    fn fmt<W: fmt::Write>(&self, f: &mut fmt::Formatter<W>) -> fmt::Result {
        match self.cause.kind() {
            ErrorKind::OutOfMemory => f.write_str("out of memory"),
            ErrorKind::InvalidData => f.write_str("an argument is not UTF-8"),
            _ => f.write_str("the arguments can't be read"),
        }
    }
}
