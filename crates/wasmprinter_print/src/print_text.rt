//! Text-only printers.
ghost use Rattle.std.specs.Prelude.{ℕ, List, false};
ghost use Rattle.wasmprinter_print.specs.TextOnly.{text_only, Grows, TextIsGained};

use crate::Print;
use std::io;

/// A printer that uses only the text. Every `PrintText` is a [`Print`] too.
///
/// Calls for lines and styles do nothing and succeed. The printer claims no custom section. A line feed is written
/// as text. A printer that needs more than the text implements `Print` itself.
pub trait PrintText {
    ghost use Rattle.std.specs.Prelude.{ℕ, List, Result};
    ghost use Rattle.std.specs.declared.io.Error.{Error as IoError};

    // The results that a write of these bytes may have, and the states of the printer after it. The default allows
    // every result and state.
    ghost writes: { Self → List ℕ → Result (Unit {0}) IoError → Self → Type 0 } = { λ _ _ _ _. Unit {0} };

    /// Writes a piece of text. `writes` says which results and which states after the call are allowed: by default all.
    ///
    /// # Errors
    /// - The printer's error. Printing stops and returns it.
    fn write_str(&mut self, s: &str) -> io::Result<()>
        ensures { writes self.old s.now result self.new };

    /// Reports whether several characters of a quoted string may be written in one call, as [`Print::takes_runs`]
    /// does. By default they may not, as there.
    #[inline(always)]
    fn takes_runs(&self) -> bool {
        false
    }
}

impl<T: PrintText> Print for T {
    ghost meaning = { text_only T.writes };

    ghost colors = { λ _. false };

    #[inline(always)]
    fn write_str(&mut self, s: &str) -> io::Result<()> {
        PrintText::write_str(self, s)
    }

    #[inline]
    #[tactic(auto, using(crate::specs::MadeLaws::does))]
    fn write_each_char(&mut self, s: &str) -> io::Result<()> {
        Print::write_str(self, s)
    }

    #[inline(always)]
    fn takes_runs(&self) -> bool {
        PrintText::takes_runs(self)
    }

    #[inline(always)]
    fn newline(&mut self) -> io::Result<()> {
        PrintText::write_str(self, "\n")
    }

    #[inline]
    fn start_line(&mut self, _binary_offset: Option<u64>) {}

    fn print_custom_section(
        &mut self,
        _name: &str,
        _binary_offset: u64,
        _bytes: &[u8],
    ) -> io::Result<bool> {
        Ok(false)
    }

    #[inline]
    fn start_literal(&mut self) -> io::Result<()> {
        Ok(())
    }

    #[inline]
    fn start_name(&mut self) -> io::Result<()> {
        Ok(())
    }

    #[inline]
    fn start_keyword(&mut self) -> io::Result<()> {
        Ok(())
    }

    #[inline]
    fn start_type(&mut self) -> io::Result<()> {
        Ok(())
    }

    #[inline]
    fn start_comment(&mut self) -> io::Result<()> {
        Ok(())
    }

    #[inline]
    fn reset_color(&mut self) -> io::Result<()> {
        Ok(())
    }

    fn supports_async_color(&self) -> bool {
        false
    }
}

/// States, for any function `view` from the printer to bytes: if each successful write appends its bytes to the view
/// (`Grows`), then calls that all succeed append their text to it (`TextIsGained`).
pub fn text_is_gained<T: PrintText>()
    ensures { (view : T → List ℕ) → Grows view T.writes → TextIsGained view T.writes }
{}
