//! The messages of the program, one line each.
ghost use Rattle.std.specs.Prelude.{ℕ, List, Option, Some, Result, OnOk, IfSome};
ghost use Rattle.std.specs.Io.KnownBytes.{Appends};
ghost use Rattle.std.specs.declared.io.Error.{Error};
ghost use Rattle.wasm2text.specs.Messages.{failure_line, misuse_line, MessagesAreLines};

use crate::cause::Cause;
use crate::escaped::Escaped;
use crate::misuse::ArgumentError;
use std::fmt::Display;
use std::io::Write;

/// A destination of messages.
pub trait Messages {
    // The states before and after a line, or after a line that no contract specifies.
    ghost sends: { Self → Option (List ℕ) → Self → Type 0 };

    /// Writes a line. A failure is ignored.
    fn send<D: Display + Drop>(&mut self, line: D)
        ensures { sends self.old (D.output line) self.new };
}

// A writer gains the line, if the write succeeds.
impl<W: Write> Messages for W {
    ghost sends = { λ old line new. (answer : Result (Unit {0}) Error) × OnOk answer (IfSome line (Appends (W.contents old) (W.contents new))) };

    fn send<D: Display + Drop>(&mut self, line: D) {
        let _ = write!(self, "{line}");
    }
}

/// Reports why a file is not printed.
pub fn report<E: Messages>(err: &mut E, name: &str, cause: &Cause)
    ensures { E.sends err.old (Some (failure_line (record { name = name.now; cause = cause.now }))) err.new }
{
    let name = Escaped(name);
    err.send(format_args!("wasm2text: {name}: {cause}\n"))
}

/// Reports an error of the command line.
pub fn report_misuse<E: Messages>(err: &mut E, error: &ArgumentError<'_>)
    ensures { E.sends err.old (Some (misuse_line error.now)) err.new }
{
    err.send(format_args!("wasm2text: {error}. Try 'wasm2text --help'.\n"))
}

/// States that a message is one line: its only line feed is its last character, and it has no other control character,
/// whatever the names and words in it are. Has no code: this is a law over the definitions of messages.
pub fn messages_are_lines()
    ensures { MessagesAreLines }
{}
