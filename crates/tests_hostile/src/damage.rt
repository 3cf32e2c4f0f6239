//! Ways to damage a module at one of its bytes.

use std::alloc::{AllocError, Global};

/// A way to damage a module at a byte.
#[derive(Clone, Copy, Debug, PartialEq)]
pub enum Damage {
    /// The module is truncated before the byte.
    Cut,
    /// The byte is replaced by itself plus one, modulo 256.
    PlusOne,
    /// The byte is replaced by its complement: each of its bits is inverted.
    Complement,
}

impl Damage {
    /// Returns a copy of a module that is damaged at the byte with this offset.
    pub fn apply(self, alloc: Global, wasm: &[u8], at: usize) -> Result<Vec<u8>, AllocError> {
        let mut damaged = Vec::from_slice(alloc, wasm)?;
        let Some(byte) = damaged.get_mut(at) else {
            return Ok(damaged);
        };
        match self {
            Damage::Cut => damaged.truncate(at),
            Damage::PlusOne => *byte = byte.wrapping_add(1),
            Damage::Complement => *byte = !*byte,
        }
        Ok(damaged)
    }
}
