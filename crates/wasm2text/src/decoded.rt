//! The module of a text that was printed.
ghost use Rattle.std.specs.Prelude.{IfOk};
ghost use Rattle.wasmprinter_spec.specs.Binary.{Spells};

use std::alloc::{AllocError, Global};
use wasmprinter::wasm::{Module, decode};

/// Returns the module that these bytes encode. Every error is returned as `AllocError`: the text of the module was
/// printed before, so that only an allocation can fail.
pub fn decoded(alloc: Global, wasm: &[u8]) -> Result<Module<'_>, AllocError>
    ensures { IfOk result (λ m. Spells wasm.now m) }
{
    match decode(alloc, wasm) {
        Ok(module) => Ok(module),
        Err(_) => Err(AllocError),
    }
}
