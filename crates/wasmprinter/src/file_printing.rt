//! Printing the module in a file, from any source of files.
ghost use Rattle.std.specs.Prelude.{IfOk, IfErr, string_bytes};
ghost use Rattle.std.specs.Path.{path_bytes};
ghost use Rattle.wasmprinter_spec.specs.Options.{defaults};
ghost use Rattle.wasmprinter.specs.TextOfFile.{IsTextOfFile, IsRefusedBy};

use crate::source_trait::Source;
use crate::string_printing::print_bytes;
use std::alloc::Global;
use std::path::Path;
use wasmprinter_bytes::Error;

/// Returns the text of the module in a file, with the default options. The text is that of bytes that the source may
/// return for exactly this path (`S.may_read`).
///
/// The text is that of [`print_bytes`], with the same promises under the same conditions. No contract says what a file
/// of the system contains. For these files the contract says only that the text is that of some bytes, and that an
/// error is `Unreadable` or one of [`print_bytes`] for some bytes.
///
/// If `module.wasm` has the bytes of a module without fields:
///
/// ```
/// let text = print_file(&rt, rt.alloc(), Path::new("module.wasm"))?;
/// assert!(rt; text.as_str() == "(module)\n");
/// ```
///
/// # Errors
///
/// - `Unreadable`: the source could not read the file. Tests show that this is also the error if an allocation fails
///   while a file of the system is read.
/// - The errors of [`print_bytes`] for the bytes of the file.
pub fn print_file<S: Source>(source: &S, alloc: Global, file: Path<'_>) -> Result<String, Error>
    ensures printed { IfOk result (λ text. IsTextOfFile (S.may_read source.now (path_bytes file.entry)) (string_bytes text)) }
    ensures refused { IfErr result (IsRefusedBy defaults (S.may_read source.now (path_bytes file.entry))) }
{
    let wasm = source.read(file).map_err(|_| Error::Unreadable)?;
    print_bytes(alloc, &wasm)
}
