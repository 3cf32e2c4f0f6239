//! A printer and a source of files as a user may define them.
ghost use Rattle.std.specs.Prelude.{⊤};

use std::alloc::Global;
use std::cell::Cell;
use std::io;
use std::io::ErrorKind;
use std::path::Path;
use wasmprinter::{PrintText, Source};

/// A printer that keeps the text.
#[derive(Drop)]
pub struct Keeping {
    text: Vec<u8>,
    has_failed: bool,
}

impl Keeping {
    pub fn new(alloc: Global) -> Keeping {
        Keeping {
            text: Vec::new(alloc),
            has_failed: false,
        }
    }

    /// Returns the text so far.
    pub fn text(&self) -> &[u8] {
        self.text.as_slice()
    }

    /// Returns whether an allocation for the text failed.
    pub fn has_failed(&self) -> bool {
        self.has_failed
    }
}

impl PrintText for Keeping {
    fn write_str(&mut self, s: &str) -> io::Result<()> {
        if self.text.extend_from_slice(s.as_bytes()).is_err() {
            self.has_failed = true;
            return Err(io::Error::from(ErrorKind::StorageFull));
        }
        Ok(())
    }
}

/// A source whose files all have these bytes. A read copies them.
#[derive(Drop)]
pub struct Copying {
    alloc: Global,
    bytes: &'static [u8],
    has_failed: Cell<bool>,
}

impl Copying {
    pub fn new(alloc: Global, bytes: &'static [u8]) -> Copying {
        Copying {
            alloc,
            bytes,
            has_failed: Cell::new(false),
        }
    }

    /// Returns whether an allocation failed in a read.
    pub fn has_failed(&self) -> bool {
        self.has_failed.get()
    }
}

impl Source for Copying {
    ghost may_read = { λ _ _ _. ⊤ };

    fn read(&self, _path: Path<'_>) -> io::Result<Vec<u8>> {
        let copied = self.bytes.to_vec(self.alloc);
        self.has_failed.set(copied.is_err());
        Ok(copied?)
    }
}
