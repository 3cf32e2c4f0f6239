//! A printer that keeps its text in memory, with ANSI escape sequences for the styles.
ghost use Rattle.std.specs.Prelude.{◌≡◌, true};
ghost use Rattle.wasmprinter.specs.AnsiText.{ansi_text_meaning};

use std::alloc::{AllocError, Global};
use std::io;
use std::marker::Model;
use wasmprinter_print::Print;
use wasmprinter_print::ansi_sequences::{
    comment_sequences, keyword_sequences, literal_sequences, name_sequences, reset_sequences,
    type_sequences,
};

/// A printer that keeps its text in memory, with ANSI escape sequences for the styles.
///
/// All sequences of a style are appended at once. Line starts are not recorded, and no custom section is claimed.
/// If an allocation fails, the call returns an error of the kind `OutOfMemory` and leaves the text unchanged.
#[derive(Drop)]
pub(crate) struct AnsiText {
    text: Vec<u8>,
}

impl Model for AnsiText {
    ghost use Rattle.std.specs.Prelude.{ℕ, List};

    ghost Value = { List ℕ };

    ghost view = { λ p. p.text.items };
}

impl AnsiText {
    ghost use Rattle.std.specs.Prelude.{◌≡◌, [], ◌++◌, OnOk, OnErr};

    /// Returns a printer with an empty text. Allocates nothing.
    pub(crate) fn new(alloc: Global) -> AnsiText
        ensures { result ≡ [] }
    {
        AnsiText {
            text: Vec::new(alloc),
        }
    }

    /// Returns the bytes of the text.
    pub(crate) fn into_bytes(self) -> Vec<u8>
        ensures { result.items ≡ self }
    {
        self.text
    }

    /// Appends a text or escape sequences. If an allocation fails, returns an error and leaves the text unchanged.
    #[inline]
    fn append(&mut self, piece: &str) -> Result<(), AllocError>
        ensures ok { OnOk result (self.new ≡ self.old ++ piece.now) }
        ensures err { OnErr result (self.new ≡ self.old) }
    {
        self.text.extend_from_slice(piece.as_bytes())
    }
}

impl Print for AnsiText {
    ghost meaning = { ansi_text_meaning };

    ghost colors = { λ _. true };

    #[inline]
    fn write_str(&mut self, s: &str) -> io::Result<()> {
        self.append(s)?;
        Ok(())
    }

    #[inline]
    fn write_each_char(&mut self, s: &str) -> io::Result<()> {
        self.write_str(s)
    }

    #[inline(always)]
    fn takes_runs(&self) -> bool {
        true
    }

    #[inline]
    fn newline(&mut self) -> io::Result<()> {
        self.append("\n")?;
        Ok(())
    }

    #[inline]
    fn start_line(&mut self, _binary_offset: Option<u64>) {}

    fn print_custom_section(
        &mut self,
        _name: &str,
        _binary_offset: u64,
        _bytes: &[u8],
    ) -> io::Result<bool> {
        Ok(false)
    }

    #[inline]
    fn start_literal(&mut self) -> io::Result<()> {
        self.append(literal_sequences())?;
        Ok(())
    }

    #[inline]
    fn start_name(&mut self) -> io::Result<()> {
        self.append(name_sequences())?;
        Ok(())
    }

    #[inline]
    fn start_keyword(&mut self) -> io::Result<()> {
        self.append(keyword_sequences())?;
        Ok(())
    }

    #[inline]
    fn start_type(&mut self) -> io::Result<()> {
        self.append(type_sequences())?;
        Ok(())
    }

    #[inline]
    fn start_comment(&mut self) -> io::Result<()> {
        self.append(comment_sequences())?;
        Ok(())
    }

    #[inline]
    fn reset_color(&mut self) -> io::Result<()> {
        self.append(reset_sequences())?;
        Ok(())
    }

    fn supports_async_color(&self) -> bool {
        true
    }
}
