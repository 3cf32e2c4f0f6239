//! Printing a module as lines, each with its byte offset in the module: `Config::offsets_and_lines` returns an iterator,
//! and `Config::print_with_line_starts` the line starts.
ghost use Rattle.std.specs.Prelude.{◌↔◌, IfOk, IfErr, IsErrOf, string_bytes};
ghost use Rattle.wasmprinter_spec.specs.Binary.{IsComponent};
ghost use Rattle.wasmprinter_writers.specs.Cuts.{AreLineStarts};
ghost use Rattle.wasmprinter.specs.Lined.{HasLinesBy, HasLinesAt, LeavesStorage};
ghost use Rattle.wasmprinter.specs.Outcome.{IsTextRefusal};

use crate::config::Config;
use crate::string_printing::without_printer;
use std::alloc::Global;
use std::mem;
use wasmprinter_bytes::Error;
use wasmprinter_writers::{LineStart, LineTracker, OffsetsAndLines};

impl Config {
    /// Appends the text of a module in the binary format to `storage`, and returns where its lines begin.
    ///
    /// A [`LineStart`] holds the line's place, a byte offset from the start of the module or `None` if the line shows
    /// nothing of the module, and the byte offset in `storage` of the line's first byte. [`OffsetsAndLines::new`] makes
    /// an iterator over the lines from `storage` and the line starts; [`Config::offsets_and_lines`] does both steps.
    /// The old text of `storage` stays before the first line. The lines, joined, are the text that
    /// [`Config::print_to_string`] returns (`lines`). The line starts do not decrease, and each is at a character
    /// boundary of `storage` (`boundaries`).
    ///
    /// If `skeleton` and folding are off, each defined function has a line for its header, one for its locals, if it has
    /// any, and one for each of its operators except the last `end`, in this order (`lines`). Their places are the first
    /// bytes of the body after its size, of the first entry that declares a local, and of the operator. No other line
    /// has one of these places. Only lines of branch hints come between.
    ///
    /// Unlike the contract of [`Config::offsets_and_lines`], the contract of this method says what `storage` holds
    /// after an error.
    ///
    /// # Errors
    ///
    /// The errors of [`Config::print_to_string`]. `storage` keeps its old text, and gains this after it (`left`):
    ///
    /// - `Memory`: possibly a prefix of the text of the module, which may end within a line.
    /// - `DylinkSubsection`: the text before that `dylink.0` section.
    /// - Any other error: nothing.
    pub fn print_with_line_starts(
        &self,
        alloc: Global,
        wasm: &[u8],
        storage: &mut String,
    ) -> Result<Vec<LineStart>, Error>
        ensures lines { IfOk result (λ starts.
            HasLinesAt self.now wasm.now (string_bytes storage.old) (string_bytes storage.new) starts.items) }
        ensures boundaries { IfOk result (λ starts. AreLineStarts starts.items (string_bytes storage.new)) }
        ensures refused { IfErr result (IsTextRefusal self.now wasm.now) }
        ensures component { IsErrOf result Error.Component ↔ IsComponent wasm.now }
        ensures left { IfErr result (λ e. LeavesStorage self.now wasm.now e (string_bytes storage.old) (string_bytes storage.new)) }
    {
        let text = mem::replace(storage, String::new(alloc));
        let mut printer = LineTracker::new(alloc, text);
        let printed = self.print(alloc, wasm, &mut printer);
        let (text, starts) = printer.finish();
        *storage = text;
        match printed {
            Ok(()) => starts.map_err(|_| Error::Memory),
            Err(error) => Err(without_printer(error)),
        }
    }

    /// Appends the text of a module in the binary format to `storage`, and returns an iterator over its lines,
    /// each with its place.
    ///
    /// The place of a line is a byte offset from the start of the module, or `None` if the line shows nothing of
    /// the module. Each line ends with its line feed. The old text of `storage` stays before the first line and is
    /// part of no line. The lines, joined, are the text that [`Config::print_to_string`] returns. The lines of
    /// functions are as in [`Config::print_with_line_starts`]. In contracts, the iterator `it` is the text that
    /// `storage` then holds (`it.storage`) and the lines that it will return (`it.lines`), here all.
    ///
    /// With a module `IDENTITY` whose only function returns its parameter:
    ///
    /// ```
    /// let mut storage = String::new(rt.alloc());
    /// let mut lines = Config::new().offsets_and_lines(rt.alloc(), IDENTITY, &mut storage)?;
    /// assert!(rt; lines.next() == Some((Some(0), "(module\n")));
    /// assert!(rt; lines.nth(3) == Some((Some(0x20), "    local.get 0\n")));
    /// ```
    ///
    /// # Errors
    ///
    /// The errors of [`Config::print_to_string`]. `storage` then begins with its old text, and a prefix of the
    /// text of the module may follow. Only the contract of [`Config::print_with_line_starts`] states this.
    pub fn offsets_and_lines<'a>(
        &self,
        alloc: Global,
        wasm: &[u8],
        storage: &'a mut String,
    ) -> Result<OffsetsAndLines<'a>, Error>
        ensures lines { IfOk result (λ it. HasLinesBy self.now wasm.now (string_bytes storage.old) it.storage it.lines) }
        ensures refused { IfErr result (IsTextRefusal self.now wasm.now) }
        ensures component { IsErrOf result Error.Component ↔ IsComponent wasm.now }
    {
        let starts = self.print_with_line_starts(alloc, wasm, storage)?;
        Ok(OffsetsAndLines::new(storage.as_str(), starts))
    }
}
