//! The reasons why a module is refused, and the comparison of a printed module with its expected text or refusal.

use crate::{expect_printed, is_malformed, refusal_of};
use std::alloc::Global;
use std::test::Fail;
use wasmprinter::Error;

/// The reasons why a module is refused: the errors that depend only on its bytes and on the options.
#[derive(Clone, Copy, PartialEq)]
pub enum Refusal {
    Malformed { place: u64 },
    Component,
    TooManyLocals { place: u64 },
    TooManyFunctions { count: u32 },
    EmptyTableInit { place: u64 },
    FoldLegacy { place: u64 },
    FoldHint { place: u64 },
    DylinkSubsection { id: u8 },
}

impl Refusal {
    /// Returns the reason that an error reports.
    ///
    /// # Errors
    ///
    /// The error itself, if it is about a file, a printer or memory.
    pub fn of(error: Error) -> Result<Refusal, Error> {
        match error {
            Error::Malformed { place } => Ok(Refusal::Malformed { place }),
            Error::Component => Ok(Refusal::Component),
            Error::TooManyLocals { place } => Ok(Refusal::TooManyLocals { place }),
            Error::TooManyFunctions { count } => Ok(Refusal::TooManyFunctions { count }),
            Error::EmptyTableInit { place } => Ok(Refusal::EmptyTableInit { place }),
            Error::FoldLegacy { place } => Ok(Refusal::FoldLegacy { place }),
            Error::FoldHint { place } => Ok(Refusal::FoldHint { place }),
            Error::DylinkSubsection { id } => Ok(Refusal::DylinkSubsection { id }),
            error => Err(error),
        }
    }

    /// Reports whether a module is refused for this reason only if its operators are folded.
    pub fn is_for_folding(self) -> bool {
        matches!(self, Refusal::FoldLegacy { .. } | Refusal::FoldHint { .. })
    }

    /// Reports whether there is an error that reports this reason.
    pub fn is(self, error: Option<Error>) -> bool {
        match error {
            Some(error) => matches!(Refusal::of(error), Ok(reason) if reason == self),
            None => false,
        }
    }
}

/// The expected result of printing a module with the default options.
pub enum Expected {
    /// This text
    Text(&'static str),
    /// A refusal as malformed, at a byte offset within the module or at its end
    Malformed,
    /// A refusal for this reason
    Refused(Refusal),
}

/// Checks that printing a module with the default options has the expected result.
///
/// # Errors
///
/// - The module is refused, or is not refused as expected, or its text differs.
pub fn expect_result(
    name: &'static str,
    alloc: Global,
    wasm: &[u8],
    expected: &Expected,
) -> Result<(), Fail> {
    let is_refused = match expected {
        Expected::Text(typed) => return expect_printed(name, alloc, wasm, typed),
        Expected::Malformed => is_malformed(alloc, wasm),
        Expected::Refused(refusal) => refusal.is(refusal_of(alloc, wasm)),
    };
    if !is_refused {
        return Err((name, "is not refused as expected"))?;
    }
    Ok(())
}
