//! The data of sections with branch hints (Code Metadata, a document that accompanies the standard).
//!
//! [`wasmprinter_custom::Hints`] only gives the hints that operators take, and no hints for data with an error. So the
//! data is read here.
ghost use Rattle.std.specs.Prelude.{◌≡◌, ◌==◌, IfOk, option_map};
ghost use Rattle.wasmprinter_spec.specs.Grammar.{value_with_place};
ghost use Rattle.wasmprinter_spec.specs.Customs.Hints.{hint as hint_grammar, function_hints, hint_section, hints_after};
ghost use Rattle.wasmprinter_hidden.specs.Lengths.{hint_len};
ghost use Rattle.wasmprinter_hidden.specs.HiddenHints.{has_hints};

use crate::excess::{Excess, Shortest, unsigned_len};
use crate::list_lengths::take_list;
use std::alloc::{AllocError, Global};
use std::marker::Model;
use wasmprinter_bytes::cursor::Cursor;
use wasmprinter_bytes::decode_traits::{Decode, DecodeIn, read_list};
use wasmprinter_bytes::lazy_items::{Items, read_items};
use wasmprinter_bytes::{Error, Malformed};
use wasmprinter_custom::Hint;

/// Data with more functions has an error.
const MOST_FUNCTIONS: u32 = 1_000_000;

/// Data with more hints of one function has an error.
const MOST_HINTS: u32 = 131_071;

/// The number of bytes of a hint after its offset: the size of its flag, and the flag.
const BYTES_AFTER_OFFSET: u64 = 2;

/// A branch hint, with the place of its first byte.
#[derive(Drop)]
pub(crate) struct HintEntry {
    /// The offset of the operator from the first byte of the body.
    offset: u32,
    hint: Hint,
}

impl Model for HintEntry {
    ghost use Rattle.wasmprinter_spec.specs.Grammar.{Placed};
    ghost use Rattle.wasmprinter_spec.specs.Customs.Hints.{Hint as HintValue};

    ghost Value = { Placed HintValue };

    ghost view = { λ e. record { place = e.hint.place; value = record { offset = e.offset; taken = e.hint.value.taken } } };
}

impl Decode for HintEntry {
    ghost parse = { (value_with_place hint_grammar).parse };

    fn read(cursor: &mut Cursor) -> Result<HintEntry, Malformed> {
        let offset = cursor.fork().u32()?;
        let hint = Hint::read(cursor)?;
        Ok(HintEntry { offset, hint })
    }
}

impl HintEntry {
    /// Returns the place of the hint's first byte: a byte offset from the start of the module.
    pub(crate) fn place(&self) -> u64
        ensures { result ≡ self.now.place }
    {
        self.hint.place()
    }

    /// Returns the number of bytes of the hint's shortest encoding.
    pub(crate) fn len(&self) -> u64
        ensures { result ≡ hint_len self.now.value }
    {
        unsigned_len(u64::from(self.offset)) + BYTES_AFTER_OFFSET
    }
}

impl Shortest for HintEntry {
    ghost use Rattle.wasmprinter_hidden.specs.Lengths.{hint_len};

    ghost len = { λ h. hint_len h.value };

    fn take_from(&self, excess: &mut Excess) {
        excess.take(self.len());
    }
}

/// Hints of one function.
pub(crate) type HintEntries<'a> = Items<'a, HintEntry>;

/// The hints of one function, with its index.
#[derive(Drop)]
pub(crate) struct FunctionEntry<'a> {
    function: u32,
    /// The hints, in order.
    pub(crate) hints: HintEntries<'a>,
}

impl<'a> Model for FunctionEntry<'a> {
    ghost use Rattle.wasmprinter_spec.specs.Customs.Hints.{FunctionHints};

    ghost Value = { FunctionHints };

    ghost view = { λ e. record { function = e.function; hints = e.hints } };
}

impl<'a> DecodeIn<'a> for FunctionEntry<'a> {
    ghost parse = { function_hints.parse };

    fn read(cursor: &mut Cursor<'a>) -> Result<FunctionEntry<'a>, Malformed> {
        let place = cursor.place();
        let function = cursor.u32()?;
        let hints = read_items(cursor)?;
        if hints.len() > MOST_HINTS {
            return Err(Malformed { place });
        }
        Ok(FunctionEntry { function, hints })
    }
}

impl<'a> FunctionEntry<'a> {
    /// Reports whether these are the hints of the function with this index. Imported functions are counted.
    pub(crate) fn is_of(&self, number: u64) -> bool
        ensures { result ≡ (self.now.function == number) }
    {
        u64::from(self.function) == number
    }

    /// Reports whether the function has hints.
    pub(crate) fn has_hints(&self) -> bool
        ensures { result ≡ has_hints self.now }
    {
        self.hints.len() != 0
    }
}

impl Shortest for FunctionEntry<'_> {
    ghost use Rattle.wasmprinter_hidden.specs.Lengths.{function_hints_len};

    ghost len = { function_hints_len };

    fn take_from(&self, excess: &mut Excess) {
        self.function.take_from(excess);
        take_list(&self.hints, excess);
    }
}

// No text shows functions without hints. The shortest encoding does not have them.
impl Shortest for Vec<FunctionEntry<'_>> {
    ghost use Rattle.std.specs.List.{filter};
    ghost use Rattle.wasmprinter_hidden.specs.Lengths.{list_len, function_hints_len};
    ghost use Rattle.wasmprinter_hidden.specs.HiddenHints.{has_hints};

    ghost len = { λ entries. list_len function_hints_len (filter has_hints entries.items) };

    fn take_from(&self, excess: &mut Excess) {
        let mut count: u64 = 0;
        for entry in self {
            if entry.has_hints() {
                count = count.saturating_add(1);
                entry.take_from(excess);
            }
        }
        count.take_from(excess);
    }
}

/// Reads the data of a section with branch hints. Returns `None` if it has an error. The entries are in memory, so their
/// count is tested before they are read.
pub(crate) fn read_entries<'a>(
    alloc: Global,
    data: Cursor<'a>,
) -> Result<Option<Vec<FunctionEntry<'a>>>, AllocError>
    ensures { IfOk result (λ entries. option_map (λ v. v.items) entries ≡ hint_section.parse «data».entry) }
{
    match data.fork().u32() {
        Ok(count) if count <= MOST_FUNCTIONS => {}
        _ => return Ok(None),
    }
    let mut cursor = data;
    match read_list::<FunctionEntry>(alloc, &mut cursor) {
        Ok(entries) if cursor.is_empty() => Ok(Some(entries)),
        Err(Error::Memory) => Err(AllocError),
        _ => Ok(None),
    }
}

/// Removes the next hint if its operator is at this offset from the first byte of the body.
pub(crate) fn take_at(hints: &mut HintEntries<'_>, offset: u64)
    ensures { hints.new ≡ hints_after offset hints.old }
{
    let mut after = hints.iter();
    match after.next() {
        Some(hint) if u64::from(hint.offset) == offset => *hints = after,
        _ => {}
    }
}
