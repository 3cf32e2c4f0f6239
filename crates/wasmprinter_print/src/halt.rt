//! Why printing stopped.
ghost use Rattle.std.specs.Prelude.{◌≡◌};
ghost use Rattle.wasmprinter_print.specs.Errors.{error_of};

use std::io;
use wasmprinter_bytes::Error;

/// Why printing stopped before the end of a layout.
#[derive(Debug, Drop)]
pub enum Halt {
    /// A call on the printer failed with this error.
    Printer(io::Error),
    /// An allocation failed while operators were folded.
    Memory,
    /// A custom section `dylink.0` that the printer did not claim has a subsection with this unknown id.
    Refused(u8),
}

impl Halt {
    /// Returns the library's error for this: `Printer` with the error of the call, `Memory`, or `DylinkSubsection`
    /// with the id.
    pub fn into_error(self) -> Error
        ensures { result ≡ error_of self }
    {
        match self {
            Halt::Printer(error) => Error::Printer(error),
            Halt::Memory => Error::Memory,
            Halt::Refused(id) => Error::DylinkSubsection { id },
        }
    }
}
