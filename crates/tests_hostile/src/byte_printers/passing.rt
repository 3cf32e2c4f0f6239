//! Writers over other writers. They forward each call once and unchanged, and return its result.

use crate::byte_printers::scripted::{Asked, Scripted};
use crate::byte_printers::writers::digits;
use crate::layout::KINDS;
use std::alloc::Global;
use std::io;
use std::io::{ErrorKind, Write};
use std::test::Fail;
use wasmprinter::print::{Ansi, NoColor, WriteBytes};

/// The length in bytes up to which a piece of each length is forwarded.
const LONGEST: usize = 300;

const PIECES: &[u8] = &[b'x'; LONGEST];

/// The path by which a call reaches the underlying writer.
#[derive(Clone, Copy, Debug)]
enum Way {
    /// The underlying writer is called directly, through `WriteBytes`.
    Itself,
    Colored,
    Uncolored,
}

const WAYS: &[Way] = &[Way::Itself, Way::Colored, Way::Uncolored];

/// A call on a writer.
#[derive(Clone, Copy, Debug)]
enum Call {
    /// A write of a whole piece.
    All,
    /// A write that may accept a part of a piece.
    Part,
    /// A flush.
    Flush,
}

/// Makes a call with a piece, and returns the number of bytes that were accepted.
fn make<W: Write>(writer: &mut W, call: Call, piece: &[u8]) -> io::Result<usize> {
    match call {
        Call::All => {
            writer.write_all(piece)?;
            Ok(piece.len())
        }
        Call::Part => writer.write(piece),
        Call::Flush => {
            writer.flush()?;
            Ok(0)
        }
    }
}

impl Call {
    /// Returns the call that the underlying writer receives, given the length of the piece. A whole piece that is empty
    /// needs no call.
    fn received(self, len: usize) -> Option<Asked> {
        match self {
            Call::All if len == 0 => None,
            Call::All | Call::Part => Some(Asked::Write(len)),
            Call::Flush => Some(Asked::Flush),
        }
    }
}

impl Way {
    /// Makes a call with a piece, and returns the number of bytes that were accepted.
    fn call(self, writer: &mut Scripted, call: Call, piece: &[u8]) -> io::Result<usize> {
        match self {
            Way::Itself => match call {
                Call::All => {
                    writer.write_bytes(piece)?;
                    Ok(piece.len())
                }
                Call::Part | Call::Flush => make(writer, call, piece),
            },
            Way::Colored => make(&mut Ansi::new(writer), call, piece),
            Way::Uncolored => make(&mut NoColor::new(writer), call, piece),
        }
    }

    /// Reports whether a call is forwarded once, or not at all if none is needed, and returns the number of bytes that
    /// the writer accepts. The writer accepts at most this many.
    fn passes(self, alloc: Global, call: Call, piece: &[u8], most: usize) -> io::Result<bool> {
        let mut writer = Scripted::new(alloc, most);
        let taken = self.call(&mut writer, call, piece)?;
        let wanted = piece.len().min(most);
        let received = call.received(piece.len());
        Ok(taken == wanted && has_taken(&writer, received, &piece[..wanted]))
    }

    /// Reports whether a piece is forwarded once, to a writer that accepts all of it and to one that accepts a half.
    fn passes_piece(self, alloc: Global, piece: &[u8]) -> io::Result<bool> {
        Ok(
            self.passes(alloc, Call::All, piece, usize::MAX)?
                && self.passes(alloc, Call::Part, piece, usize::MAX)?
                && self.passes(alloc, Call::Part, piece, piece.len() / 2)?,
        )
    }

    /// Reports whether a call is forwarded once, and the error of the writer is returned.
    fn refuses(self, alloc: Global, call: Call, piece: &[u8], kind: ErrorKind) -> bool {
        let mut writer = Scripted::with_failure(alloc, usize::MAX, 1, kind);
        let refused = self.call(&mut writer, call, piece);
        matches!(refused, Err(e) if e.kind() == kind)
            && has_taken(&writer, call.received(piece.len()), b"")
    }

    /// Reports whether a piece is forwarded once, and the error of the writer is returned, if it is of any of these
    /// kinds.
    fn refuses_piece(self, alloc: Global, piece: &[u8], kinds: &[ErrorKind]) -> bool {
        for kind in kinds {
            if !self.refuses(alloc, Call::All, piece, *kind)
                || !self.refuses(alloc, Call::Part, piece, *kind)
            {
                return false;
            }
        }
        true
    }
}

/// Reports whether the writer received only this call, or none, and holds exactly these bytes.
fn has_taken(writer: &Scripted, call: Option<Asked>, bytes: &[u8]) -> bool {
    let is_called = match call {
        Some(call) => writer.calls.as_slice() == [call].as_slice(),
        None => writer.calls.is_empty(),
    };
    is_called && writer.bytes.as_slice() == bytes
}

/// Returns the first of these ways, and the length of the first start of these bytes, that is not forwarded. Returns
/// `None` if each is.
fn first_stopped(alloc: Global, ways: &[Way], bytes: &[u8]) -> io::Result<Option<(Way, usize)>> {
    for way in ways {
        for len in 0..=bytes.len() {
            if !way.passes_piece(alloc, &bytes[..len])? {
                return Ok(Some((*way, len)));
            }
        }
    }
    Ok(None)
}

#[test]
fn forwards_a_piece_of_each_length(rt: HostRuntime) -> Result<(), Fail> {
    let stopped = first_stopped(rt.alloc(), WAYS, PIECES)?;
    assert!(rt; stopped.is_none(), "{stopped:?}");
    Ok(())
}

/// Returns the first of these ways, and the length of the first start of these bytes that is not empty, by which the
/// error of the writer is not returned. Returns `None` if it always is.
fn first_taken(alloc: Global, ways: &[Way], bytes: &[u8]) -> Option<(Way, usize)> {
    for way in ways {
        for len in 1..=bytes.len() {
            if !way.refuses_piece(alloc, &bytes[..len], KINDS) {
                return Some((*way, len));
            }
        }
    }
    None
}

#[test]
fn returns_the_error_of_the_writer_for_a_piece_of_each_length(rt: HostRuntime) {
    let taken = first_taken(rt.alloc(), WAYS, PIECES);
    assert!(rt; taken.is_none(), "{taken:?}");
}

/// Returns the first of these ways by which a call with a piece is not forwarded once and unchanged, or the error of
/// the writer is not returned. Returns `None` if there is no such way.
fn first_other(alloc: Global, ways: &[Way], call: Call, piece: &[u8]) -> io::Result<Option<Way>> {
    for way in ways {
        if !way.passes(alloc, call, piece, usize::MAX)?
            || !way.refuses(alloc, call, piece, ErrorKind::BrokenPipe)
        {
            return Ok(Some(*way));
        }
    }
    Ok(None)
}

#[test]
fn flushes_the_writer_and_returns_its_result(rt: HostRuntime) -> Result<(), Fail> {
    let other = first_other(rt.alloc(), WAYS, Call::Flush, b"")?;
    assert!(rt; other.is_none(), "{other:?}");
    Ok(())
}

/// The calls with a piece.
const WRITES: &[Call] = &[Call::All, Call::Part];

/// The lengths of long pieces in bytes.
const LONG: &[u32] = &[4_999, 5_000, 5_001, 300_000];

/// Returns the first of these calls with a piece that is not forwarded once and unchanged, or whose error is not
/// returned, and its way. Returns `None` if there is no such call.
fn first_cut(
    alloc: Global,
    ways: &[Way],
    calls: &[Call],
    piece: &[u8],
) -> io::Result<Option<(Call, Way)>> {
    for call in calls {
        if let Some(way) = first_other(alloc, ways, *call, piece)? {
            return Ok(Some((*call, way)));
        }
    }
    Ok(None)
}

#[test]
fn forwards_a_long_piece_whole(rt: HostRuntime) -> Result<(), Fail> {
    for len in LONG {
        let piece = digits(rt.alloc(), *len)?;
        let cut = first_cut(rt.alloc(), WAYS, WRITES, piece.as_bytes())?;
        assert!(rt; cut.is_none(), "{len} bytes: {cut:?}");
        assert_eq!(rt; piece.len() as u64, u64::from(*len));
    }
    Ok(())
}
