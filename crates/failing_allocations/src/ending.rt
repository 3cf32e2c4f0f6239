//! The results of printing a module.

use std::io::ErrorKind;
use wasmprinter::Error;

/// The result of printing a module.
#[derive(Clone, Copy)]
pub enum Ending {
    /// Each call returned the expected result.
    Printed,
    /// A call reported a failed allocation, and left the expected state.
    OutOfMemory,
    /// The same, after this many bytes of the text were printed.
    OutOfMemoryAfter(usize),
    /// Something else.
    Other(&'static str),
}

impl Ending {
    pub fn word(self) -> &'static str {
        match self {
            Ending::Printed => "printed",
            Ending::OutOfMemory | Ending::OutOfMemoryAfter(_) => "out of memory",
            Ending::Other(word) => word,
        }
    }

    /// Returns the exit status of a program whose worst ending is this one.
    pub fn status(self) -> u8 {
        match self {
            Ending::Printed => 0,
            Ending::OutOfMemory | Ending::OutOfMemoryAfter(_) => 1,
            Ending::Other(_) => 2,
        }
    }

    /// Returns the number of bytes of the text that were printed before the allocation failed, if it is known.
    pub fn printed_len(self) -> Option<usize> {
        match self {
            Ending::OutOfMemoryAfter(len) => Some(len),
            _ => None,
        }
    }

    /// Adds the number of bytes of the text that were printed before the allocation failed.
    pub fn after(self, len: usize) -> Ending {
        match self {
            Ending::OutOfMemory => Ending::OutOfMemoryAfter(len),
            ending => ending,
        }
    }

    /// Returns the worse of two endings.
    pub fn or(self, other: Ending) -> Ending {
        if other.status() > self.status() {
            other
        } else {
            self
        }
    }

    /// Returns `Printed` if something holds, and this word otherwise.
    pub fn of(holds: bool, otherwise: &'static str) -> Ending {
        if holds {
            Ending::Printed
        } else {
            Ending::Other(otherwise)
        }
    }

    /// Returns the ending for an error, for a printer whose own errors of this kind mean that an allocation for
    /// its text failed.
    pub fn of_printer_error(error: Error, kind: ErrorKind) -> Ending {
        match error {
            Error::Printer(error) if error.kind() == kind => Ending::OutOfMemory,
            error => Ending::of_error(error),
        }
    }

    /// Returns the ending for an error.
    pub fn of_error(error: Error) -> Ending {
        match error {
            Error::Memory => Ending::OutOfMemory,
            Error::Printer(_) => Ending::Other("the printer failed"),
            Error::Malformed { .. } => Ending::Other("malformed"),
            Error::Component => Ending::Other("component"),
            _ => Ending::Other("another error"),
        }
    }
}
