//! The result of a call on a module: a text, or the reason why the module is refused.

use wasmprinter::Error;
use wasmprinter_expecting::Refusal;

/// The result of a call.
#[derive(PartialEq, Drop)]
pub enum Outcome {
    Text(String),
    Refused(Refusal),
}

impl Outcome {
    /// Returns the outcome that a result represents.
    ///
    /// # Errors
    ///
    /// The error itself, if it is about a file, a printer or memory.
    pub fn of(returned: Result<String, Error>) -> Result<Outcome, Error> {
        match returned {
            Ok(text) => Ok(Outcome::Text(text)),
            Err(error) => Ok(Outcome::Refused(Refusal::of(error)?)),
        }
    }
}
