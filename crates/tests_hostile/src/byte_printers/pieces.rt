//! Pieces of many lengths, written to printers over writers. Each piece is one call of `write_all` on a writer of
//! bytes, or of `write_str` on a writer of text. The error of that call is returned, and the next piece is written.

use crate::byte_printers::recording::{ByteRecorder, Call, Failure, TextRecorder, WORDS};
use crate::byte_printers::writers::digits;
use crate::layout::KINDS;
use std::alloc::{AllocError, Global};
use std::io;
use std::io::ErrorKind;
use std::test::Fail;
use wasmprinter::print::{Ansi, NoColor};
use wasmprinter::{Print, PrintFmtWrite, PrintIoWrite, PrintTermcolor};

/// The lengths of pieces in bytes: the least ones, those around the sizes of usual buffers and around 5,000, and one
/// of 1 MiB.
const LENGTHS: &[u32] = &[
    0, 1, 4_095, 4_096, 4_097, 4_999, 5_000, 5_001, 65_535, 65_536, 65_537, 1_048_576,
];

/// The length of a piece for which errors of all kinds are tried.
const SHORT: u32 = 3;

/// The kinds of errors of calls that fail. A writer that implements `write_all` itself may also return `Interrupted`.
const ALL_KINDS: &[ErrorKind] = &[
    ErrorKind::NotFound,
    ErrorKind::PermissionDenied,
    ErrorKind::ConnectionReset,
    ErrorKind::BrokenPipe,
    ErrorKind::WouldBlock,
    ErrorKind::InvalidInput,
    ErrorKind::InvalidData,
    ErrorKind::TimedOut,
    ErrorKind::WriteZero,
    ErrorKind::StorageFull,
    ErrorKind::FileTooLarge,
    ErrorKind::Interrupted,
    ErrorKind::Unsupported,
    ErrorKind::UnexpectedEof,
    ErrorKind::OutOfMemory,
    ErrorKind::Other,
];

/// A printer over a writer of bytes.
#[derive(Clone, Copy, Debug)]
enum Printer {
    /// `PrintIoWrite`.
    Plain,
    /// `PrintTermcolor` over `NoColor`.
    Uncolored,
    /// `PrintTermcolor` over `Ansi`.
    Colored,
}

const PRINTERS: &[Printer] = &[Printer::Plain, Printer::Uncolored, Printer::Colored];

/// The results of writing a piece and, after it, a line feed.
type Results = (io::Result<()>, io::Result<()>);

/// Writes a piece and a line feed to any printer, the line feed also if the piece fails. It has no contract, so that
/// callers need not prove anything about their printer.
fn write_to<P: Print>(printer: &mut P, piece: &str) -> Results {
    let written = printer.write_str(piece);
    (written, printer.newline())
}

impl Printer {
    /// Writes a piece and a line feed to a printer over the recorder, and returns the recorder.
    fn write(self, recorder: ByteRecorder, piece: &str) -> (ByteRecorder, Results) {
        match self {
            Printer::Plain => {
                let mut printer = PrintIoWrite(recorder);
                let results = write_to(&mut printer, piece);
                (printer.0, results)
            }
            Printer::Uncolored => {
                let mut printer = PrintTermcolor(NoColor::new(recorder));
                let results = write_to(&mut printer, piece);
                (printer.0.into_inner(), results)
            }
            Printer::Colored => {
                let mut printer = PrintTermcolor(Ansi::new(recorder));
                let results = write_to(&mut printer, piece);
                (printer.0.into_inner(), results)
            }
        }
    }
}

/// Reports whether a result is success if there is no kind, and otherwise an error of this kind.
fn has_kind(found: &io::Result<()>, kind: Option<ErrorKind>) -> bool {
    match (found, kind) {
        (Ok(()), None) => true,
        (Err(error), Some(kind)) => error.kind() == kind,
        _ => false,
    }
}

/// Reports whether a result is success, or an error with the words of a recorder's error.
fn has_words(alloc: Global, found: &io::Result<()>) -> bool {
    match found {
        Ok(()) => true,
        Err(error) => matches!(format!(in alloc; "{error}"), Ok(words) if words.as_str() == WORDS),
    }
}

/// Returns the kind of the error of the call with this number, or `None` if it succeeds.
fn kind_at(failure: Failure, number: usize) -> Option<ErrorKind> {
    match failure {
        Some((failing, kind)) if failing == number => Some(kind),
        _ => None,
    }
}

/// Reports whether the bytes are those of the piece and of the line feed, without those of a call that fails.
fn are_written(bytes: &[u8], piece: &[u8], failure: Failure) -> bool {
    match failure {
        Some((1, _)) => bytes == b"\n".as_slice(),
        Some(_) => bytes == piece,
        None => bytes.strip_prefix(piece) == Some(b"\n".as_slice()),
    }
}

/// Reports whether a printer makes one call of `write_all` for the piece and one for the line feed, and returns their
/// results.
fn writes_whole(alloc: Global, printer: Printer, piece: &str, failure: Failure) -> bool {
    let (recorder, results) = printer.write(ByteRecorder::new(alloc, failure), piece);
    let (of_piece, of_line_feed) = results;
    recorder.calls.as_slice() == [Call::WriteAll(piece.len()), Call::WriteAll(1)].as_slice()
        && are_written(&recorder.bytes, piece.as_bytes(), failure)
        && has_kind(&of_piece, kind_at(failure, 1))
        && has_kind(&of_line_feed, kind_at(failure, 2))
        && has_words(alloc, &of_piece)
        && has_words(alloc, &of_line_feed)
}

/// Reports whether a printer writes a piece whole if no call fails, and if the first or the second fails with an error
/// of each of these kinds.
fn writes_despite(alloc: Global, printer: Printer, piece: &str, kinds: &[ErrorKind]) -> bool {
    for kind in kinds {
        if !writes_whole(alloc, printer, piece, Some((1, *kind)))
            || !writes_whole(alloc, printer, piece, Some((2, *kind)))
        {
            return false;
        }
    }
    writes_whole(alloc, printer, piece, None)
}

/// Returns the first of these printers that does not write a piece whole with errors of these kinds, or `None` if there
/// is no such printer.
fn first_other(
    alloc: Global,
    printers: &[Printer],
    piece: &str,
    kinds: &[ErrorKind],
) -> Option<Printer> {
    for printer in printers {
        if !writes_despite(alloc, *printer, piece, kinds) {
            return Some(*printer);
        }
    }
    None
}

/// Checks that each printer writes a piece of this length whole with errors of these kinds.
///
/// # Errors
///
/// - A printer does not. The error has the printer and the length.
fn expect_whole(alloc: Global, len: u32, kinds: &[ErrorKind]) -> Result<(), Fail> {
    let piece = digits(alloc, len)?;
    match first_other(alloc, PRINTERS, piece.as_str(), kinds) {
        Some(printer) => Err((printer, len))?,
        None => Ok(()),
    }
}

#[test]
fn makes_one_call_for_each_piece_and_returns_its_error(rt: HostRuntime) -> Result<(), Fail> {
    for len in LENGTHS {
        expect_whole(rt.alloc(), *len, KINDS)?;
    }
    expect_whole(rt.alloc(), SHORT, ALL_KINDS)
}

/// Reports whether a printer makes one call of `write_str` for the piece and one for the line feed, and returns their
/// results. The error of a text writer has no kind, so the printer's error is `Other`.
fn writes_text(alloc: Global, piece: &str, failure: Failure) -> bool {
    let mut printer = PrintFmtWrite(TextRecorder::new(alloc, failure));
    let (of_piece, of_line_feed) = write_to(&mut printer, piece);
    printer.0.lengths.as_slice() == [piece.len(), 1].as_slice()
        && are_written(printer.0.text.as_bytes(), piece.as_bytes(), failure)
        && has_kind(&of_piece, kind_at(failure, 1))
        && has_kind(&of_line_feed, kind_at(failure, 2))
}

/// Reports whether a piece of this length is written whole to a text writer if no call fails, and if the first or the
/// second fails.
fn writes_text_of(alloc: Global, len: u32) -> Result<bool, AllocError> {
    let piece = digits(alloc, len)?;
    Ok(
        writes_text(alloc, piece.as_str(), None)
            && writes_text(alloc, piece.as_str(), Some((1, ErrorKind::Other)))
            && writes_text(alloc, piece.as_str(), Some((2, ErrorKind::Other))),
    )
}

#[test]
fn makes_one_call_for_each_piece_of_text(rt: HostRuntime) -> Result<(), Fail> {
    for len in LENGTHS {
        assert!(rt; writes_text_of(rt.alloc(), *len)?, "{len} bytes");
    }
    Ok(())
}
