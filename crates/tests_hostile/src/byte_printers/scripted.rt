//! A byte writer that records each call and can be set to fail one.

use std::alloc::Global;
use std::io;
use std::io::{ErrorKind, Write};

/// A call on the writer.
#[derive(Clone, Copy, PartialEq)]
pub enum Asked {
    /// A write of this many bytes, of which the writer may accept fewer.
    Write(usize),
    /// A flush.
    Flush,
}

/// A writer that accepts a limited number of bytes per call, records its calls, and can fail one of them.
#[derive(Drop)]
pub struct Scripted {
    /// The bytes that the writer accepted.
    pub bytes: Vec<u8>,
    /// The calls on the writer, in order.
    pub calls: Vec<Asked>,
    /// The maximum number of bytes that the writer accepts in one call.
    most: usize,
    /// The number of the call that fails, counted from 1, and its error.
    failure: Option<(usize, ErrorKind)>,
}

impl Scripted {
    pub fn new(alloc: Global, most: usize) -> Scripted {
        Scripted {
            bytes: Vec::new(alloc),
            calls: Vec::new(alloc),
            most,
            failure: None,
        }
    }

    pub fn with_failure(alloc: Global, most: usize, call: usize, kind: ErrorKind) -> Scripted {
        let mut writer = Scripted::new(alloc, most);
        writer.failure = Some((call, kind));
        writer
    }

    /// Records a call, and returns an error if this is the call that fails.
    fn answer(&mut self, call: Asked) -> io::Result<()> {
        self.calls.push(call)?;
        match self.failure {
            Some((number, kind)) if number == self.calls.len() => Err(io::Error::from(kind)),
            _ => Ok(()),
        }
    }
}

impl Write for Scripted {
    fn write(&mut self, buf: &[u8]) -> io::Result<usize> {
        self.answer(Asked::Write(buf.len()))?;
        let taken = buf.len().min(self.most);
        self.bytes.extend_from_slice(&buf[..taken])?;
        Ok(taken)
    }

    fn flush(&mut self) -> io::Result<()> {
        self.answer(Asked::Flush)
    }
}
