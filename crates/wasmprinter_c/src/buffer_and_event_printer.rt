//! A printer that writes over a buffer and a table of the caller. It keeps what fits, counts all bytes and events, and
//! fails before the text gets longer than a limit.
ghost use Rattle.std.specs.Prelude.{◌≡◌, ◌+◌, ◌<◌, ◌∷◌, [], false, length, OnOk, OnErr};
ghost use Rattle.wasmprinter_c.specs.Over.{over_from};
ghost use Rattle.wasmprinter_c.specs.Copied.{Grows, Records, copied_meaning};
ghost use Rattle.wasmprinter_c.specs.Events.{event, noted, line_event};

use crate::omitted_names::is_listed;
use std::io;
use std::io::ErrorKind;
use wasmprinter::Print;

/// The kind of an event: a line without a place starts.
const LINE: u32 = 0;

/// The kind of an event: a line with a place starts.
const LINE_AT_PLACE: u32 = 1;

/// The kind of an event: the style of names starts.
const NAME: u32 = 2;

/// The kind of an event: the style of literals starts.
const LITERAL: u32 = 3;

/// The kind of an event: the style of keywords starts.
const KEYWORD: u32 = 4;

/// The kind of an event: the style of types starts.
const TYPE: u32 = 5;

/// The kind of an event: the style of comments starts.
const COMMENT: u32 = 6;

/// The kind of an event: the style ends.
const RESET: u32 = 7;

/// The kind of an event: a custom section begins.
const CUSTOM_SECTION: u32 = 8;

/// An event of the text.
#[repr(C)]
#[derive(Clone, Copy)]
pub struct WasmprinterEvent {
    /// The offset in bytes from the start of the text.
    pub start: usize,
    /// The place of the line or of the custom section's data, a byte offset from the start of the module, or 0 if the
    /// event has no place.
    pub place: u64,
    /// The kind. It is a number and not an `enum`, so that any bytes are a valid event.
    pub kind: u32,
}

/// A printer that writes over a buffer and a table. It keeps what fits, and counts all bytes and events. The text has
/// at most `limit` bytes. It claims exactly the custom sections whose names are in the list `omitted`.
#[derive(Drop)]
pub(crate) struct Copier<'a> {
    out: &'a mut [u8],
    written: usize,
    limit: usize,
    /// A list of names in the form that `omitted_names` reads.
    omitted: &'a [u8],
    /// Whether the table gets all events, or only the starts of lines.
    all_events: bool,
    table: &'a mut [WasmprinterEvent],
    count: usize,
}

/// Writes the entry with this index, if the table has room for it.
fn enter(table: &mut [WasmprinterEvent], index: usize, entry: WasmprinterEvent)
    ensures { table.new ≡ over_from index (entry ∷ []) table.old }
{
    if index < table.len() {
        table[index] = entry;
    }
}

/// Writes the first bytes of a piece over the buffer from offset `place` on, as many as fit.
fn copy_over(out: &mut [u8], place: usize, piece: &[u8])
    ensures { out.new ≡ over_from place piece.now out.old }
{
    if place < out.len() {
        let room = out.len() - place;
        if piece.len() <= room {
            out[place..place + piece.len()].copy_from_slice(piece);
        } else {
            out[place..].copy_from_slice(&piece[..room]);
        }
    }
}

impl<'a> Copier<'a> {
    /// Returns a printer over a buffer and a table, for a text of at most `limit` bytes without the custom sections whose
    /// names are in a list. Nothing is written yet.
    pub(crate) fn new(
        all_events: bool,
        limit: usize,
        omitted: &'a [u8],
        out: &'a mut [u8],
        table: &'a mut [WasmprinterEvent],
    ) -> Copier<'a>
        ensures same_buffer { result.out.ghost_name ≡ out.entry.ghost_name }
        ensures same_table { result.table.ghost_name ≡ table.entry.ghost_name }
        ensures kept_buffer { result.out.now ≡ out.old }
        ensures kept_table { result.table.now ≡ table.old }
        ensures no_text { result.written ≡ 0 }
        ensures no_event { result.count ≡ 0 }
        ensures limited { result.limit ≡ limit }
        ensures omits { result.omitted ≡ omitted.entry }
        ensures listed { result.all_events ≡ all_events }
    {
        Copier {
            out,
            written: 0,
            limit,
            omitted,
            all_events,
            table,
            count: 0,
        }
    }

    /// Returns the length of the text so far in bytes.
    pub(crate) fn length(&self) -> usize
        ensures { result ≡ self.now.written }
    {
        self.written
    }

    /// Returns the number of events so far.
    pub(crate) fn count(&self) -> usize
        ensures { result ≡ self.now.count }
    {
        self.count
    }

    /// Records an event. It is not entered if there are `usize::MAX` events already.
    fn record(&mut self, kind: u32, place: u64)
        ensures { Records self.old (event kind place self.old.written ∷ []) self.new }
    {
        if self.count < usize::MAX {
            let start = self.written;
            enter(
                self.table,
                self.count,
                WasmprinterEvent { start, place, kind },
            );
            self.count += 1;
        }
    }

    /// Records an event that starts no line, if all events are recorded.
    fn note(&mut self, kind: u32, place: u64)
        ensures { Records self.old (noted self.old.all_events (event kind place self.old.written)) self.new }
    {
        if self.all_events {
            self.record(kind, place);
        }
    }

    /// Records the start of a line.
    fn start(&mut self, place: Option<u64>)
        ensures { Records self.old (line_event place self.old.written ∷ []) self.new }
    {
        match place {
            Some(place) => self.record(LINE_AT_PLACE, place),
            None => self.record(LINE, 0),
        }
    }

    /// Writes the first bytes of a piece after the text so far, as many as fit.
    ///
    /// # Errors
    ///
    /// Returns an error if the text would be longer than the limit. Nothing is written then.
    fn append(&mut self, piece: &[u8]) -> io::Result<()>
        ensures ok { OnOk result (Grows self.old piece.now self.new) }
        ensures may_fail { OnErr result (self.old.limit < self.old.written + length piece.now) }
        ensures unchanged { OnErr result (self.new ≡ self.old) }
    {
        match self.written.checked_add(piece.len()) {
            Some(written) if written <= self.limit => {
                copy_over(self.out, self.written, piece);
                self.written = written;
                Ok(())
            }
            _ => Err(io::Error::from(ErrorKind::Other)),
        }
    }
}

impl Print for Copier<'_> {
    ghost meaning = { copied_meaning };

    ghost colors = { λ _. false };

    #[inline]
    fn write_str(&mut self, s: &str) -> io::Result<()> {
        self.append(s.as_bytes())
    }

    #[inline]
    fn write_each_char(&mut self, s: &str) -> io::Result<()> {
        self.write_str(s)
    }

    #[inline(always)]
    fn takes_runs(&self) -> bool {
        true
    }

    #[inline]
    fn newline(&mut self) -> io::Result<()> {
        self.append(b"\n")
    }

    #[inline]
    fn start_line(&mut self, binary_offset: Option<u64>) {
        self.start(binary_offset);
    }

    fn print_custom_section(
        &mut self,
        name: &str,
        binary_offset: u64,
        _bytes: &[u8],
    ) -> io::Result<bool> {
        self.note(CUSTOM_SECTION, binary_offset);
        Ok(is_listed(self.omitted, name.as_bytes()))
    }

    #[inline]
    fn start_literal(&mut self) -> io::Result<()> {
        self.note(LITERAL, 0);
        Ok(())
    }

    #[inline]
    fn start_name(&mut self) -> io::Result<()> {
        self.note(NAME, 0);
        Ok(())
    }

    #[inline]
    fn start_keyword(&mut self) -> io::Result<()> {
        self.note(KEYWORD, 0);
        Ok(())
    }

    #[inline]
    fn start_type(&mut self) -> io::Result<()> {
        self.note(TYPE, 0);
        Ok(())
    }

    #[inline]
    fn start_comment(&mut self) -> io::Result<()> {
        self.note(COMMENT, 0);
        Ok(())
    }

    #[inline]
    fn reset_color(&mut self) -> io::Result<()> {
        self.note(RESET, 0);
        Ok(())
    }

    fn supports_async_color(&self) -> bool {
        false
    }
}
