//! Statuses: the numbers of errors, and their details.
ghost use Rattle.std.specs.Prelude.{◌≡◌};
ghost use Rattle.wasmprinter_c.specs.Refused.{number_of, detail_in};

use wasmprinter::Error;

/// The status after the module was printed.
pub(crate) const PRINTED: u32 = 0;

/// The status for an indent that is not UTF-8.
pub(crate) const BAD_INDENT: u32 = 12;

/// The status for flags that choose an option that this library does not know.
pub(crate) const UNKNOWN_OPTION: u32 = 13;

/// The status for a list of names that is cut off.
pub(crate) const BAD_LIST: u32 = 14;

/// Returns the number of an error.
pub(crate) fn status_of(error: &Error) -> u32
    ensures { result ≡ number_of error.now }
{
    match error {
        Error::Malformed { .. } => 1,
        Error::Component => 2,
        Error::TooManyLocals { .. } => 3,
        Error::TooManyFunctions { .. } => 4,
        Error::EmptyTableInit { .. } => 5,
        Error::FoldLegacy { .. } => 6,
        Error::FoldHint { .. } => 7,
        Error::DylinkSubsection { .. } => 8,
        Error::Unreadable => 9,
        Error::Printer(_) => 10,
        Error::Memory => 11,
    }
}

/// Returns the place, the count or the id of an error, or 0 if it has none.
pub(crate) fn detail_of(error: &Error) -> u64
    ensures { result ≡ detail_in error.now }
{
    match error {
        Error::Malformed { place }
        | Error::TooManyLocals { place }
        | Error::EmptyTableInit { place }
        | Error::FoldLegacy { place }
        | Error::FoldHint { place } => *place,
        Error::TooManyFunctions { count } => u64::from(*count),
        Error::DylinkSubsection { id } => u64::from(*id),
        Error::Component | Error::Unreadable | Error::Printer(_) | Error::Memory => 0,
    }
}
