//! The errors of the command line.
ghost use Rattle.std.specs.Prelude.{◌≡◌, Some};
ghost use Rattle.wasm2text.specs.Messages.{misuse_text};
ghost use Rattle.wasm2text.specs.declared.misuse.ArgumentError.TheVariants.{Memory};

use crate::escaped::Escaped;
use crate::options::Setting;
use std::alloc::AllocError;
use std::fmt;

/// An error of the command line.
#[derive(Clone, Copy)]
pub enum ArgumentError<'a> {
    /// This word starts with `-`, and is no option with its value.
    UnknownOption(&'a str),
    /// The value of the option with this name is missing.
    MissingValue(&'a str),
    /// The option does not have this value.
    InvalidValue {
        /// The option.
        setting: Setting,
        /// The value.
        value: &'a str,
    },
    /// An allocation failed.
    Memory,
}

impl fmt::Display for ArgumentError<'_> {
    ghost output = { λ e. Some (misuse_text e) };

    fn fmt<W: fmt::Write>(&self, f: &mut fmt::Formatter<W>) -> fmt::Result {
        match self {
            ArgumentError::UnknownOption(word) => {
                let word = Escaped(word);
                write!(f, "unknown option '{word}'")
            }
            ArgumentError::MissingValue(name) => {
                let name = Escaped(name);
                write!(f, "option '{name}' needs a value")
            }
            ArgumentError::InvalidValue { setting, value } => {
                let name = setting.long_name();
                let value = Escaped(value);
                write!(f, "option '{name}' can't have the value '{value}'")
            }
            ArgumentError::Memory => f.write_str("out of memory"),
        }
    }
}

impl From<AllocError> for ArgumentError<'_> {
    ghost from_gives = { λ _ e. e ≡ Memory };

    fn from(_error: AllocError) -> Self {
        ArgumentError::Memory
    }
}
