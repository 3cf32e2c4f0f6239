//! The lines of a printed text, each with its place in the module.
ghost use Rattle.std.specs.Prelude.{◌≡◌};

use std::marker::Model;

/// The start of a line.
#[derive(Clone, Copy, Debug, PartialEq, Eq)]
pub struct LineStart {
    /// The place of the line: a byte offset from the start of the module, or `None` if the line shows nothing of
    /// the module.
    pub place: Option<u64>,
    /// The byte offset of the line's first byte from the start of the text.
    pub at: usize,
}

/// An iterator over the lines of a printed text.
///
/// Each line comes with its place: a byte offset from the start of the module, or `None` if the line shows nothing
/// of the module. Its text includes the line feed at its end. Text before the first line start is on no line.
#[derive(Drop)]
pub struct OffsetsAndLines<'a> {
    text: &'a str,
    starts: Vec<LineStart>,
    next: usize,
}

impl<'a> Model for OffsetsAndLines<'a> {
    ghost use Rattle.std.specs.Prelude.{drop};
    ghost use Rattle.wasmprinter_writers.specs.Lined.{Lined};

    ghost Value = { Lined };

    ghost use Rattle.wasmprinter_writers.specs.Cuts.{lines_at_starts, AreLineStarts};

    ghost view = { λ it. record { storage = it.text.now; lines = lines_at_starts (drop it.next it.starts.items) it.text.now } };

    ghost invariant = { λ it. AreLineStarts (drop it.next it.starts.items) it.text.now };
}

impl<'a> OffsetsAndLines<'a> {
    ghost use Rattle.std.specs.Prelude.{◌≡◌};
    ghost use Rattle.wasmprinter_writers.specs.Cuts.{lines_at_starts, AreLineStarts};

    /// Returns an iterator over the lines of `text` that start at `starts`. The starts must not decrease, and each must
    /// be at a character boundary of `text`. A line ends where the next one starts, the last line at the end of `text`.
    /// In contracts, the iterator is the text (`storage`) and the lines that are left (`lines`).
    pub fn new(text: &'a str, starts: Vec<LineStart>) -> OffsetsAndLines<'a>
        requires { AreLineStarts starts.items text.now }
        ensures { result ≡ record { storage = text.now; lines = lines_at_starts starts.items text.now } }
    {
        OffsetsAndLines {
            text,
            starts,
            next: 0,
        }
    }
}

impl<'a> Iterator for OffsetsAndLines<'a> {
    ghost use Rattle.std.specs.Iterator.{YieldsFirstBy, item_count};

    type Item = (Option<u64>, &'a str);

    ghost next_gives = { YieldsFirstBy (λ line. (line.0, line.1.now)) (λ it. it.lines) };

    ghost remaining = { item_count (λ it. it.lines) };

    fn next(&mut self) -> Option<(Option<u64>, &'a str)> {
        let start = *self.starts.get(self.next)?;
        let end = match self.starts.get(self.next + 1) {
            Some(following) => following.at,
            None => self.text.len(),
        };
        self.next += 1;
        Some((start.place, &self.text[start.at..end]))
    }
}
