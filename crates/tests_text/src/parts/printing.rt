//! Helpers shared by the tests of parts: the names that a section gives, and the end of printing.

use std::alloc::Global;
use wasmprinter_bytes::Error;
use wasmprinter_bytes::cursor::Cursor;
use wasmprinter_custom::{Names, NamesBuilder, read_names};
use wasmprinter_print::{LayoutOptions, Printer};

/// Returns the names that the content of a name section gives.
pub(crate) fn names_of<'a>(alloc: Global, section: &'a [u8]) -> Result<Names<'a>, Error> {
    let mut builder = NamesBuilder::new(alloc);
    read_names(alloc, &mut builder, Cursor::new(0, section))?;
    Ok(builder.finish(alloc)?)
}

/// Ends printing. Returns whether a line began, or the error.
pub(crate) fn finish<P, K: LayoutOptions>(out: Printer<'_, '_, P, K>) -> Result<bool, Error> {
    let begun = out.begun;
    out.finish()?;
    Ok(begun)
}
