//! A printer that keeps its text and the starts of its lines.
ghost use Rattle.std.specs.Prelude.{◌≡◌, ◌+◌, ◌≤◌, ◌↔◌, false, IsTrue, length};
ghost use Rattle.std.specs.String.{string_len, string_capacity};
ghost use Rattle.wasmprinter_writers.specs.Tracking.{tracked_meaning};

use crate::line_iterator::LineStart;
use std::alloc::{AllocError, Global};
use std::io;
use std::marker::Model;
use wasmprinter_print::Print;

/// A printer that appends to its own text, and records where each printed line starts.
///
/// Styles write nothing, and no custom section is claimed. If an allocation fails, a call that writes text returns an
/// error of the kind `OutOfMemory`, and leaves the text and its lines unchanged; `write_each_char` keeps the
/// characters before the failure. `start_line` allocates nothing: the line waits for its entry until the next call
/// that writes text. If another line starts before then, the new line is lost, and all later calls that write text fail
/// as if out of memory.
#[derive(Drop)]
pub struct LineTracker {
    text: String,
    /// The lines that have entries, in order.
    starts: Vec<LineStart>,
    /// The place of the line that waits for its entry, if one does. The line itself may have no place.
    waiting: Option<Option<u64>>,
    /// Whether a line started while another one waited.
    lost: bool,
}

impl Model for LineTracker {
    ghost use Rattle.std.specs.String.{string_bytes};
    ghost use Rattle.std.specs.Prelude.{◌++◌, length};
    ghost use Rattle.wasmprinter_writers.specs.Tracked.{Tracked, waiting_start, tracked_of};
    ghost use Rattle.wasmprinter_writers.specs.Cuts.{AreLineStarts};

    ghost Value = { Tracked };

    ghost view = { λ t. tracked_of (string_bytes t.text) t.starts.items t.waiting t.lost };

    ghost invariant = { λ t. AreLineStarts (t.starts.items ++ waiting_start t.waiting (length (string_bytes t.text))) (string_bytes t.text) };
}

/// Reports whether a piece fits into the remaining capacity of a text, so that appending it needs no allocation.
fn has_room(text: &String, piece: &str) -> bool
    ensures { IsTrue result ↔ (string_len text.now + length piece.now ≤ string_capacity text.now) }
{
    piece.len() <= text.capacity() - text.len()
}

impl LineTracker {
    ghost use Rattle.std.specs.Prelude.{◌≡◌, false, [], ◌∷◌, OnOk, OnErr, IfOk, IsOk};
    ghost use Rattle.std.specs.String.{string_bytes};
    ghost use Rattle.wasmprinter_spec.specs.Call.{Text};
    ghost use Rattle.wasmprinter_print.specs.MadeCalls.{MadeCalls, ending};
    ghost use Rattle.wasmprinter_writers.specs.Tracked.{without_lines, with_text};
    ghost use Rattle.wasmprinter_writers.specs.Cuts.{lines_at_starts, AreLineStarts};

    /// Returns a tracker that appends to `text`. It has no lines, none that waits for its entry, and has lost none.
    pub fn new(alloc: Global, text: String) -> LineTracker
        ensures { result ≡ without_lines (string_bytes text) }
    {
        LineTracker {
            text,
            starts: Vec::new(alloc),
            waiting: None,
            lost: false,
        }
    }

    /// Adds the entry of the line that waits. Returns an error and changes nothing if an allocation fails or a
    /// line was lost.
    fn enter(&mut self) -> Result<(), AllocError>
        ensures ok { OnOk result (self.new ≡ record self.old { new_line = false }) }
        ensures none_lost { OnOk result (self.new.lost ≡ false) }
        ensures err { OnErr result (self.new ≡ self.old) }
        ensures succeeds { self.old.new_line ≡ false → self.old.lost ≡ false → IsOk result }
    {
        if self.lost {
            return Err(AllocError);
        }
        if let Some(place) = self.waiting {
            let at = self.text.len();
            self.starts.push(LineStart { place, at })?;
            self.waiting = None;
        }
        Ok(())
    }

    /// Appends a piece of text, after the entry of the line that waits. Returns an error if an allocation fails or
    /// a line was lost. The text and its lines are then unchanged.
    fn push_str(&mut self, piece: &str) -> Result<(), AllocError>
        ensures ok { OnOk result (self.new ≡ with_text self.old piece.now) }
        ensures none_lost { OnOk result (self.new.lost ≡ false) }
        ensures text { OnErr result (self.new.text ≡ self.old.text) }
        ensures lines { OnErr result (self.new.lines ≡ self.old.lines) }
        ensures lost { OnErr result (self.new.lost ≡ self.old.lost) }
    {
        self.enter()?;
        self.text.push_str(piece)?;
        Ok(())
    }

    /// Appends a piece of text character by character. If an allocation fails, the characters before it have been
    /// appended.
    fn write_by_chars(&mut self, piece: &str) -> io::Result<()>
        ensures { MadeCalls tracked_meaning self.old self.new (ending result) (Text piece.now ∷ []) }
    {
        for c in piece.chars() {
            self.write_str(c.encode_utf8(&mut [0; 4]))?;
        }
        Ok(())
    }

    /// Returns the text and the starts of its lines. The text is returned even if the line starts are not (`text`). The
    /// starts do not decrease, and each is at a character boundary of the text, so the text can be cut at them
    /// (`boundaries`). This gives the lines of the tracker (`lines`).
    ///
    /// # Errors
    ///
    /// - [`AllocError`] if a line was lost before (`none_lost`), or if the last line has no text yet and an allocation
    ///   for its start failed. In no other case (`succeeds`).
    pub fn finish(mut self) -> (String, Result<Vec<LineStart>, AllocError>)
        ensures text { string_bytes result.0 ≡ self.text }
        ensures lines { IfOk result.1 (λ starts. lines_at_starts starts.items self.text ≡ self.lines) }
        ensures boundaries { IfOk result.1 (λ starts. AreLineStarts starts.items self.text) }
        ensures none_lost { OnOk result.1 (self.lost ≡ false) }
        ensures succeeds { self.new_line ≡ false → self.lost ≡ false → IsOk result.1 }
    {
        let entered = self.enter();
        let LineTracker {
            text,
            starts,
            waiting: _,
            lost: _,
        } = self;
        match entered {
            Ok(()) => (text, Ok(starts)),
            Err(e) => (text, Err(e)),
        }
    }
}

impl Print for LineTracker {
    ghost meaning = { tracked_meaning };

    ghost colors = { λ _. false };

    fn write_str(&mut self, s: &str) -> io::Result<()> {
        self.push_str(s)?;
        Ok(())
    }

    fn write_each_char(&mut self, s: &str) -> io::Result<()> {
        if has_room(&self.text, s) {
            self.write_str(s)
        } else {
            self.write_by_chars(s)
        }
    }

    #[inline(always)]
    fn takes_runs(&self) -> bool {
        true
    }

    fn newline(&mut self) -> io::Result<()> {
        self.push_str("\n")?;
        Ok(())
    }

    fn start_line(&mut self, binary_offset: Option<u64>) {
        if self.waiting.is_some() {
            self.lost = true;
        } else {
            self.waiting = Some(binary_offset);
        }
    }

    fn print_custom_section(
        &mut self,
        _name: &str,
        _binary_offset: u64,
        _bytes: &[u8],
    ) -> io::Result<bool> {
        Ok(false)
    }

    fn start_literal(&mut self) -> io::Result<()> {
        Ok(())
    }

    fn start_name(&mut self) -> io::Result<()> {
        Ok(())
    }

    fn start_keyword(&mut self) -> io::Result<()> {
        Ok(())
    }

    fn start_type(&mut self) -> io::Result<()> {
        Ok(())
    }

    fn start_comment(&mut self) -> io::Result<()> {
        Ok(())
    }

    fn reset_color(&mut self) -> io::Result<()> {
        Ok(())
    }

    fn supports_async_color(&self) -> bool {
        false
    }
}
