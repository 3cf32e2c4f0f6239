//! Writers that record each of their calls and can be set to fail one: a writer of bytes, and a writer of text.

use std::alloc::Global;
use std::io::{ErrorKind, Write};
use std::{fmt, io};

/// The words of the error of a call that fails.
pub const WORDS: &str = "the call that fails";

/// The number of the call that fails, counted from 1, and the kind of its error, or `None` if no call fails.
pub type Failure = Option<(usize, ErrorKind)>;

/// A call on a writer of bytes.
#[derive(Clone, Copy, PartialEq)]
pub enum Call {
    /// A write of all of this many bytes.
    WriteAll(usize),
    /// A write of this many bytes, of which the writer may accept fewer.
    Write(usize),
    /// A flush.
    Flush,
}

/// A writer of bytes that implements each call itself.
#[derive(Drop)]
pub struct ByteRecorder {
    /// The bytes of the calls that succeeded.
    pub bytes: Vec<u8>,
    /// The calls, in order.
    pub calls: Vec<Call>,
    failure: Failure,
}

impl ByteRecorder {
    pub fn new(alloc: Global, failure: Failure) -> ByteRecorder {
        ByteRecorder {
            bytes: Vec::new(alloc),
            calls: Vec::new(alloc),
            failure,
        }
    }

    /// Records a call, and returns an error if this is the call that fails.
    fn record(&mut self, call: Call) -> io::Result<()> {
        self.calls.push(call)?;
        match self.failure {
            Some((number, kind)) if number == self.calls.len() => Err(io::Error::new(kind, WORDS)),
            _ => Ok(()),
        }
    }
}

impl Write for ByteRecorder {
    fn write(&mut self, buf: &[u8]) -> io::Result<usize> {
        self.record(Call::Write(buf.len()))?;
        self.bytes.extend_from_slice(buf)?;
        Ok(buf.len())
    }

    fn flush(&mut self) -> io::Result<()> {
        self.record(Call::Flush)
    }

    fn write_all(&mut self, buf: &[u8]) -> io::Result<()> {
        self.record(Call::WriteAll(buf.len()))?;
        self.bytes.extend_from_slice(buf)?;
        Ok(())
    }
}

/// A writer of text.
#[derive(Drop)]
pub struct TextRecorder {
    /// The text of the calls that succeeded.
    pub text: String,
    /// The lengths of the pieces, in order.
    pub lengths: Vec<usize>,
    /// The call that fails. The kind of its error is not used.
    failure: Failure,
}

impl TextRecorder {
    pub fn new(alloc: Global, failure: Failure) -> TextRecorder {
        TextRecorder {
            text: String::new(alloc),
            lengths: Vec::new(alloc),
            failure,
        }
    }
}

impl fmt::Write for TextRecorder {
    fn write_str(&mut self, s: &str) -> fmt::Result {
        let is_recorded = self.lengths.push(s.len()).is_ok();
        let number = self.lengths.len();
        if !is_recorded || matches!(self.failure, Some((failing, _)) if failing == number) {
            return Err(fmt::Error);
        }
        self.text.push_str(s)?;
        Ok(())
    }
}
