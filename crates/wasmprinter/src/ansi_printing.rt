//! Printing a module as text with ANSI escape sequences.
ghost use Rattle.std.specs.Prelude.{◌↔◌, IfOk, IfErr, IsErrOf};
ghost use Rattle.wasmprinter_spec.specs.Binary.{IsComponent};
ghost use Rattle.wasmprinter.specs.Colored.{HasColoredTextBy};
ghost use Rattle.wasmprinter.specs.Outcome.{IsTextRefusal};

use crate::ansi_memory_printer::AnsiText;
use crate::config::Config;
use crate::string_printing::without_printer;
use std::alloc::Global;
use wasmprinter_bytes::Error;

impl Config {
    /// Returns the text of a module in the binary format, with the ANSI escape sequences that
    /// [`crate::print::Ansi`] writes.
    ///
    /// The bytes then encode a module, and the text has the sequences of every style. If the indent consists of spaces
    /// and tabs, deleting the sequences gives the text that [`Config::print_to_string`] returns.
    ///
    /// # Errors
    ///
    /// The errors of [`Config::print_to_string`], with the causes that are listed there.
    pub fn print_to_ansi(&self, alloc: Global, wasm: &[u8]) -> Result<Vec<u8>, Error>
        ensures printed { IfOk result (λ text. HasColoredTextBy self.now wasm.now text.items) }
        ensures refused { IfErr result (IsTextRefusal self.now wasm.now) }
        ensures component { IsErrOf result Error.Component ↔ IsComponent wasm.now }
    {
        let mut printer = AnsiText::new(alloc);
        match self.print(alloc, wasm, &mut printer) {
            Ok(()) => Ok(printer.into_bytes()),
            Err(error) => Err(without_printer(error)),
        }
    }
}
