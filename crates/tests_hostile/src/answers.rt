//! The results of the calls on one module, and whether they agree.

use crate::layout::Layout;
use crate::outcome::Outcome;
use std::alloc::{AllocError, Global};
use wasmprinter::wasm::decode;
use wasmprinter::{Config, Error, OffsetsAndLines, PrintFmtWrite};
use wasmprinter_expecting::{Refusal, print_to, text_of};

/// A disagreement between the calls on a module.
#[derive(Debug, Drop)]
pub enum Disagreement {
    /// Decoding is refused, and flat printing succeeds or is refused for another reason. Or decoding succeeds, and
    /// flat printing is refused for another reason than an unknown `dylink.0` subsection.
    DecodedAndFlat,
    /// The lines differ from the text of flat printing, or the errors differ.
    FlatAndLines,
    /// `print_bytes` returns another text or error than flat printing.
    FlatAndString,
    /// Only one of flat and folded printing is refused, or the errors differ; the reason is not that something can't
    /// be folded.
    FlatAndFolded,
    /// The storage of the lines does not start with its old text.
    OldTextLost,
    /// The damaged module equals the original.
    Undamaged,
    /// An error that does not depend on the bytes of the module alone.
    Other(Error),
}

impl From<Error> for Disagreement {
    fn from(error: Error) -> Disagreement {
        Disagreement::Other(error)
    }
}

impl From<AllocError> for Disagreement {
    fn from(error: AllocError) -> Disagreement {
        Disagreement::Other(Error::from(error))
    }
}

/// The results of the calls on one module.
#[derive(Drop)]
pub struct Answers {
    /// The reason why the module is not decoded, or `None` if it is.
    decoded: Option<Refusal>,
    flat: Outcome,
    folded: Outcome,
    /// The joined lines of `Config::offsets_and_lines`.
    lines: Outcome,
    /// The result of `print_bytes`.
    string: Outcome,
}

impl Answers {
    /// Makes each call on a module.
    pub fn of(alloc: Global, wasm: &[u8]) -> Result<Answers, Disagreement> {
        Ok(Answers {
            decoded: decoding_refusal(alloc, wasm)?,
            flat: Outcome::of(print_to_string(Layout::Flat, alloc, wasm))?,
            folded: Outcome::of(print_to_string(Layout::Folded, alloc, wasm))?,
            lines: lines_outcome(alloc, wasm)?,
            string: Outcome::of(text_of(alloc, wasm))?,
        })
    }

    /// Checks that the calls agree.
    pub fn check(&self) -> Result<(), Disagreement> {
        if !self.is_flat_as_decoded() {
            return Err(Disagreement::DecodedAndFlat);
        }
        if self.lines != self.flat {
            return Err(Disagreement::FlatAndLines);
        }
        if self.string != self.flat {
            return Err(Disagreement::FlatAndString);
        }
        if !self.is_folded_as_flat() {
            return Err(Disagreement::FlatAndFolded);
        }
        Ok(())
    }

    /// Returns whether the module is printed flat.
    pub fn is_printed(&self) -> bool {
        matches!(&self.flat, Outcome::Text(_))
    }

    fn is_flat_as_decoded(&self) -> bool {
        match (self.decoded, &self.flat) {
            (Some(refusal), Outcome::Refused(flat)) => refusal == *flat,
            (None, Outcome::Refused(flat)) => matches!(flat, Refusal::DylinkSubsection { .. }),
            (decoded, Outcome::Text(_)) => decoded.is_none(),
        }
    }

    /// Operators that can't be folded are found after the module is decoded and before it is printed.
    fn is_folded_as_flat(&self) -> bool {
        match (&self.folded, &self.flat) {
            (Outcome::Text(_), Outcome::Text(_)) => true,
            (Outcome::Refused(folded), _) if folded.is_for_folding() => self.decoded.is_none(),
            (Outcome::Refused(folded), Outcome::Refused(flat)) => folded == flat,
            _ => false,
        }
    }
}

/// Prints a module to a string through `PrintFmtWrite`.
fn print_to_string(layout: Layout, alloc: Global, wasm: &[u8]) -> Result<String, Error> {
    let mut printer = PrintFmtWrite(String::new(alloc));
    print_to(&layout.config(), alloc, wasm, &mut printer)?;
    Ok(printer.0)
}

/// Returns the reason why a module is not decoded, or `None` if it is.
fn decoding_refusal(alloc: Global, wasm: &[u8]) -> Result<Option<Refusal>, Error> {
    match decode(alloc, wasm) {
        Ok(_) => Ok(None),
        Err(error) => Ok(Some(Refusal::of(error)?)),
    }
}

/// The contents of a storage before lines are appended to it.
const OLD_TEXT: &str = "old\n";

/// Appends the lines of a module to a storage, and returns the joined lines.
fn append_lines(alloc: Global, wasm: &[u8], storage: &mut String) -> Result<String, Error> {
    let lines = Config::new().offsets_and_lines(alloc, wasm, storage)?;
    Ok(join(alloc, lines)?)
}

/// Appends the lines of a module to a storage with an old text, and returns the joined lines.
fn lines_outcome(alloc: Global, wasm: &[u8]) -> Result<Outcome, Disagreement> {
    let mut storage = String::from_str(alloc, OLD_TEXT)?;
    let outcome = Outcome::of(append_lines(alloc, wasm, &mut storage))?;
    let Some(appended) = storage.strip_prefix(OLD_TEXT) else {
        return Err(Disagreement::OldTextLost);
    };
    match &outcome {
        Outcome::Text(text) if text.as_str() != appended => Err(Disagreement::FlatAndLines),
        _ => Ok(outcome),
    }
}

/// Joins lines.
fn join(alloc: Global, lines: OffsetsAndLines<'_>) -> Result<String, AllocError> {
    let mut text = String::new(alloc);
    for (_, line) in lines {
        text.push_str(line)?;
    }
    Ok(text)
}
