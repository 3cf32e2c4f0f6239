//! The error of decoding and printing, its text, and what converts to it.
ghost use Rattle.std.specs.Prelude.{◌≡◌, Some};
ghost use Rattle.wasmprinter_bytes.specs.Messages.{error_text};
ghost use Rattle.wasmprinter_bytes.specs.declared.library_error.Error.TheVariants.{Malformed as AtPlace, Memory, Printer};

use crate::Malformed;
use std::alloc::{AllocError, AllocFailed};
use std::{fmt, io};

/// The error of a decoding or printing call. Places are byte offsets from the start of the module.
#[derive(Debug, Drop)]
pub enum Error {
    /// The bytes are not in the binary format.
    Malformed {
        /// The offset of the first unexpected byte, number or entry, or of bytes whose encoded length exceeds the
        /// bytes that remain. In these cases it is another offset:
        ///
        /// - A byte or number is missing: the end of the body, of the section or of the module.
        /// - A float, a vector or a list of lanes is cut off: its first byte.
        /// - The preamble is another one or is cut off: 0.
        /// - A name is not UTF-8: the first byte of its length.
        /// - Two sections disagree about a count: the end of the module.
        ///
        /// The contracts of readers only bound it: it isn't before the first byte of the value that is read, and not
        /// after the end of the bytes. Tests check which place it is.
        place: u64,
    },
    /// The bytes are marked as a component.
    Component,
    /// A function has too many locals. Parameters are not counted.
    TooManyLocals {
        /// The offset of the body of the first such function.
        place: u64,
    },
    /// The module defines too many functions.
    TooManyFunctions {
        /// The number of functions that the module defines.
        count: u32,
    },
    /// The initialiser of a table has no operators: its text would equal that of a table without an initialiser.
    EmptyTableInit {
        /// The offset of the first such table.
        place: u64,
    },
    /// Operators are folded, and a `try`, `catch`, `catch_all` or `delegate` would be printed.
    FoldLegacy {
        /// The offset of the first such operator, in the order of the bytes.
        place: u64,
    },
    /// Operators are folded, and folded text has nowhere to put a branch hint.
    FoldHint {
        /// The offset of the first byte of the first such hint, in the order of the operators.
        place: u64,
    },
    /// A subsection of `dylink.0` has an unknown id.
    DylinkSubsection {
        /// The first unknown id.
        id: u8,
    },
    /// Reading the file failed.
    Unreadable,
    /// A call on the printer failed.
    Printer(io::Error),
    /// An allocation failed.
    Memory,
}

impl fmt::Display for Error {
    ghost output = { λ e. Some (error_text e) };

    fn fmt<W: fmt::Write>(&self, f: &mut fmt::Formatter<W>) -> fmt::Result {
        match self {
            Error::Malformed { place } => write!(f, "malformed module at byte 0x{place:x}"),
            Error::Component => f.write_str("components are not supported"),
            Error::TooManyLocals { place } => {
                write!(f, "function at byte 0x{place:x} has more than 50000 locals")
            }
            Error::TooManyFunctions { count } => {
                write!(f, "module has {count} functions, more than 1000000")
            }
            Error::EmptyTableInit { place } => {
                write!(f, "table at byte 0x{place:x} has an empty initialiser")
            }
            Error::FoldLegacy { place } => {
                write!(
                    f,
                    "legacy exception operator at byte 0x{place:x} can't be folded"
                )
            }
            Error::FoldHint { place } => {
                write!(f, "branch hint at byte 0x{place:x} can't be folded")
            }
            Error::DylinkSubsection { id } => write!(f, "unknown dylink.0 subsection {id}"),
            Error::Unreadable => f.write_str("the file can't be read"),
            Error::Printer(_) => f.write_str("the printer failed"),
            Error::Memory => f.write_str("out of memory"),
        }
    }
}

impl std::error::Error for Error {}

impl From<Malformed> for Error {
    ghost from_gives = { λ m e. e ≡ AtPlace m.place };

    fn from(malformed: Malformed) -> Error {
        Error::Malformed {
            place: malformed.place,
        }
    }
}

impl From<io::Error> for Error {
    ghost from_gives = { λ x e. e ≡ Printer x };

    fn from(error: io::Error) -> Error {
        Error::Printer(error)
    }
}

impl From<AllocError> for Error {
    ghost from_gives = { λ _ e. e ≡ Memory };

    fn from(_error: AllocError) -> Error {
        Error::Memory
    }
}

impl<T: Drop> From<AllocFailed<T>> for Error {
    ghost from_gives = { λ _ e. e ≡ Memory };

    fn from(_error: AllocFailed<T>) -> Error {
        Error::Memory
    }
}
