//! A printer that writes to a [`fmt::Write`].
ghost use Rattle.std.specs.Prelude.{◌≡◌, OnOk};
ghost use Rattle.std.specs.IoError.{error_kind};
ghost use Rattle.std.specs.declared.io.ErrorKind.TheVariants.{Other};
ghost use Rattle.wasmprinter_print.specs.Writers.{WritesFmt};

use crate::PrintText;
use std::io::ErrorKind;
use std::{fmt, io};

/// A text writer as [`PrintFmtWrite`] uses it. Every [`fmt::Write`] is one.
///
/// The contract of `fmt::Write::write_str` says nothing about a call that fails. The contract of `write_text`
/// relates each call to its result. So it can say which calls were made, that none was made after a failed one,
/// and that printing fails only if the writer does.
pub trait WriteText: fmt::Write {
    ghost use Rattle.std.specs.Prelude.{ℕ, List, Result};
    ghost use Rattle.std.specs.declared.fmt.Error.{Error as FmtError};

    // The results that a write of this text may have, and the states of the writer after it.
    ghost takes: { Self → List ℕ → Result (Unit {0}) FmtError → Self → Type 0 };

    /// Writes `text`. `takes` says which results and which states after the call are allowed (`exact`). On `Ok`, the
    /// contract of [`fmt::Write::write_str`] holds too (`text`).
    ///
    /// # Errors
    /// - [`fmt::Error`] if the writer failed.
    fn write_text(&mut self, text: &str) -> fmt::Result
        ensures exact { takes self.old text.now result self.new }
        ensures text { OnOk result (Self.write_str_gives self.old text.now self.new) };
}

// `fmt::Write` promises nothing about a write that fails.
impl<W: fmt::Write> WriteText for W {
    ghost takes = { λ old text result new. OnOk result (W.write_str_gives old text new) };

    #[inline(always)]
    fn write_text(&mut self, text: &str) -> fmt::Result {
        self.write_str(text)
    }
}

/// A printer that writes each piece of text and each line feed to a [`WriteText`]. Styles and line starts write
/// nothing.
#[derive(Drop)]
pub struct PrintFmtWrite<T>(pub T);

/// Converts the error of a writer. [`fmt::Error`] carries no cause, so the kind is `Other`.
fn error_of_refusal(_e: fmt::Error) -> io::Error
    ensures { error_kind result ≡ Other }
{
    io::Error::from(ErrorKind::Other)
}

impl<T: WriteText> PrintText for PrintFmtWrite<T> {
    ghost writes = { λ old bytes answer new. WritesFmt T.takes old.0 bytes answer new.0 };

    #[inline]
    fn write_str(&mut self, s: &str) -> io::Result<()> {
        self.0.write_text(s).map_err(error_of_refusal)
    }
}
