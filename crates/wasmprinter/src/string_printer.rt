//! A printer that keeps its text in memory, without colors.
ghost use Rattle.wasmprinter.specs.Plain.{appends};

use std::alloc::{AllocError, Global};
use std::io;
use std::marker::Model;
use wasmprinter_print::PrintText;

/// A printer that keeps its text in memory, without colors.
///
/// Line starts are not recorded, and no custom section is claimed. If an allocation fails, the call returns an
/// error of the kind `OutOfMemory` and leaves the text unchanged.
#[derive(Drop)]
pub(crate) struct Plain {
    text: String,
}

impl Model for Plain {
    ghost use Rattle.std.specs.Prelude.{ℕ, List, string_bytes};

    ghost Value = { List ℕ };

    ghost view = { λ p. string_bytes p.text };
}

impl Plain {
    ghost use Rattle.std.specs.Prelude.{◌≡◌, [], ◌++◌, OnOk, OnErr, string_bytes};

    /// Returns a printer with an empty text. Allocates nothing.
    pub(crate) fn new(alloc: Global) -> Plain
        ensures { result ≡ [] }
    {
        Plain {
            text: String::new(alloc),
        }
    }

    /// Returns the text.
    pub(crate) fn into_string(self) -> String
        ensures { string_bytes result ≡ self }
    {
        self.text
    }

    /// Appends a text. If an allocation fails, returns an error and leaves the text unchanged.
    #[inline]
    fn append(&mut self, piece: &str) -> Result<(), AllocError>
        ensures ok { OnOk result (self.new ≡ self.old ++ piece.now) }
        ensures err { OnErr result (self.new ≡ self.old) }
    {
        self.text.push_str(piece)
    }
}

impl PrintText for Plain {
    ghost writes = { appends };

    #[inline]
    fn write_str(&mut self, s: &str) -> io::Result<()> {
        self.append(s)?;
        Ok(())
    }

    #[inline(always)]
    fn takes_runs(&self) -> bool {
        true
    }
}
