//! Printing a module as a string.
ghost use Rattle.std.specs.Prelude.{◌≡◌, ◌↔◌, IfOk, IfErr, IsErrOf, string_bytes};
ghost use Rattle.wasmprinter_spec.specs.Binary.{IsComponent};
ghost use Rattle.wasmprinter_spec.specs.Options.{defaults};
ghost use Rattle.wasmprinter.specs.Printed.{HasText, IsTextOf};
ghost use Rattle.wasmprinter.specs.Outcome.{without_printer, IsTextRefusal};

use crate::config::Config;
use crate::string_printer::Plain;
use std::alloc::Global;
use wasmprinter_bytes::Error;

/// Replaces `Printer` by `Memory`, and returns any other error unchanged. A printer that keeps its text in memory
/// fails only if an allocation fails.
pub(crate) fn without_printer(error: Error) -> Error
    ensures { result ≡ without_printer error }
{
    match error {
        Error::Printer(_) => Error::Memory,
        error => error,
    }
}

impl Config {
    /// Returns the text of a module in the binary format. The bytes then encode a module.
    ///
    /// If the indent consists of spaces and tabs, the text contains only tabs, line feeds and the characters from the
    /// space to the tilde. If `skeleton` is off too, the text has exactly the module's branch hints, if these are
    /// valid, and reads back as the module, if every index that the module uses is declared. [`Config::print`] says
    /// when hints are valid and indices declared.
    ///
    /// With a module `IDENTITY` whose only function returns its parameter:
    ///
    /// ```
    /// let mut config = Config::new();
    /// config.name_unnamed(true).fold_instructions(true);
    /// let text = config.print_to_string(rt.alloc(), IDENTITY)?;
    /// assert!(rt; text.lines().nth(4) == Some("    (local.get $#local0)"));
    /// ```
    ///
    /// # Errors
    ///
    /// The errors of [`Config::print`], with the causes that are listed there, except that `Printer` is never returned.
    /// `Memory` is also returned if the text can't grow. `DylinkSubsection` is returned for the first `dylink.0`
    /// section with an unknown subsection, since no section is claimed.
    pub fn print_to_string(&self, alloc: Global, wasm: &[u8]) -> Result<String, Error>
        ensures printed { IfOk result (λ text. IsTextOf self.now wasm.now (string_bytes text)) }
        ensures refused { IfErr result (IsTextRefusal self.now wasm.now) }
        ensures component { IsErrOf result Error.Component ↔ IsComponent wasm.now }
    {
        let mut printer = Plain::new(alloc);
        match self.print(alloc, wasm, &mut printer) {
            Ok(()) => Ok(printer.into_string()),
            Err(error) => Err(without_printer(error)),
        }
    }
}

/// Returns the text of a module in the binary format, with the default options. The bytes then encode a module, and
/// the text contains only tabs, line feeds and the characters from the space to the tilde. It has exactly the module's
/// branch hints, if these are valid, and reads back as the module, if every index that the module uses is declared.
/// [`Config::print`] says when hints are valid and indices declared.
///
/// ```
/// let text = print_bytes(rt.alloc(), b"\0asm\x01\0\0\0")?;
/// assert!(rt; text.as_str() == "(module)\n");
/// ```
///
/// # Errors
///
/// The errors of [`Config::print_to_string`] that are possible with the default options. No other error is returned:
///
/// - `Component`: the bytes are marked as a component. This error takes precedence over all others.
/// - `Malformed`: the bytes are not in the binary format.
/// - `TooManyLocals`, `TooManyFunctions`: the module exceeds a limit of this printer.
/// - `EmptyTableInit`: the initialiser of a table has no operators.
/// - `DylinkSubsection`: a custom section `dylink.0` has an unknown subsection. The id is that of the first such
///   subsection in the first such section.
/// - `Memory`: an allocation failed.
pub fn print_bytes(alloc: Global, wasm: &[u8]) -> Result<String, Error>
    ensures printed { IfOk result (λ text. HasText wasm.now (string_bytes text)) }
    ensures refused { IfErr result (IsTextRefusal defaults wasm.now) }
    ensures component { IsErrOf result Error.Component ↔ IsComponent wasm.now }
{
    Config::new().print_to_string(alloc, wasm)
}
