//! The function that a command line names.
ghost use Rattle.std.specs.Prelude.{MatchOption};
ghost use Rattle.wasm2text.specs.Arguments.{IsFunctionWord};
ghost use Rattle.wasm2text.specs.FunctionText.{Function, function_view};

use crate::offset::read_offset;

/// The start of an identifier.
const DOLLAR_SIGN: &str = "$";

/// The function that a command line names.
#[derive(Clone, Copy)]
pub enum FunctionRef<'a> {
    /// The function with this index. Imported functions are counted.
    Index(u64),
    /// The function whose identifier is a dollar sign and this text.
    Identifier(&'a str),
}

impl<'a> FunctionRef<'a> {
    /// Returns the function that a word names: by an identifier if the word starts with a dollar sign, and otherwise by an
    /// index. Returns `None` if the word does neither.
    pub fn named(word: &'a str) -> Option<FunctionRef<'a>>
        ensures { MatchOption result ((function : Function) → IsFunctionWord word.now function → ⊥)
            (λ function. IsFunctionWord word.now (function_view function)) }
    {
        match word.strip_prefix(DOLLAR_SIGN) {
            Some(content) => Some(FunctionRef::Identifier(content)),
            None => Some(FunctionRef::Index(read_offset(word)?)),
        }
    }
}
