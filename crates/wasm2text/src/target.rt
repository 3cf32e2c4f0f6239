//! The byte of a module that an excerpt shows.
ghost use Rattle.std.specs.Prelude.{MatchOption};
ghost use Rattle.wasm2text.specs.Excerpt.{LacksCode, HasOffset};

use crate::code_section::code_start;

/// The byte of a module that an excerpt shows.
#[derive(Clone, Copy)]
pub enum Target {
    /// The byte at this offset from the start of the module.
    Byte(u64),
    /// The byte at this offset from the start of the code section's contents.
    CodeByte(u64),
}

impl Target {
    /// Returns the offset of the byte from the start of the module, or `u64::MAX` if it is greater. Returns `None` if the
    /// byte is counted from the code section, and the module has no code section.
    pub fn offset_in(self, wasm: &[u8]) -> Option<u64>
        ensures { MatchOption result (LacksCode self wasm.now) (HasOffset self wasm.now) }
    {
        match self {
            Target::Byte(offset) => Some(offset),
            Target::CodeByte(offset) => Some(code_start(wasm)?.saturating_add(offset)),
        }
    }
}
