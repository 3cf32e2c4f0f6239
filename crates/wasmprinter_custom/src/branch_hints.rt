//! Branch hints (Code Metadata): for each listed function, which operators are likely to branch.
ghost use Rattle.std.specs.Prelude.{◌≡◌, ◌+◌, ◌<◌, ◌^◌, [], length, codes, bytes_eq};
ghost use Rattle.wasmprinter_spec.specs.Grammar.{value_with_place};
ghost use Rattle.wasmprinter_spec.specs.Customs.Hints.{hint as hint_grammar, flag, function_hints, hint_section, hints_given};
ghost use Rattle.wasmprinter_spec.specs.Customs.Hints.{hints_of_next, entries_after, next_hint, hints_after};
ghost use Rattle.wasmprinter_spec.specs.FirstByte.{only};
ghost use Rattle.wasmprinter_bytes.specs.Reads.{Decodes};

use crate::lazy_borrowing_items::{ItemsIn, ReadFrom};
use std::marker::Model;
use wasmprinter_bytes::Malformed;
use wasmprinter_bytes::cursor::Cursor;
use wasmprinter_bytes::decode_traits::Decode;
use wasmprinter_bytes::lazy_items::{Items, no_items, read_items};

/// The name of sections with branch hints. If there are several, the last one counts.
pub(crate) const HINT_SECTION: &str = "metadata.code.branch_hint";

/// A section with more functions is treated as malformed.
const MOST_FUNCTIONS: u32 = 1_000_000;

/// A section with more hints in one function is treated as malformed.
const MOST_HINTS: u32 = 131_071;

/// The size of a hint in bytes.
const HINT_SIZE: u8 = 0x01;

/// Reports whether sections with this name hold branch hints: whether it is `metadata.code.branch_hint`.
pub fn is_hint_section(name: &str) -> bool
    ensures { result ≡ bytes_eq name.now (codes "metadata.code.branch_hint") }
{
    name == HINT_SECTION
}

/// A branch hint, with the place of its first byte.
#[derive(Drop)]
pub struct Hint {
    place: u64,
    offset: u32,
    taken: bool,
}

impl Model for Hint {
    ghost use Rattle.wasmprinter_spec.specs.Grammar.{Placed};
    ghost use Rattle.wasmprinter_spec.specs.Customs.Hints.{Hint as HintValue};

    ghost Value = { Placed HintValue };

    ghost view = { λ h. record { place = h.place; value = record { offset = h.offset; taken = h.taken } } };
}

/// Reads the size of a hint, which must be 1.
fn read_size(cursor: &mut Cursor) -> Result<u8, Malformed>
    ensures { Decodes (λ b. b) (only 1).parse cursor.old result cursor.new }
{
    let place = cursor.place();
    let size = cursor.u8()?;
    if size == HINT_SIZE {
        Ok(size)
    } else {
        Err(Malformed { place })
    }
}

/// Returns whether the operator is likely to branch, or `None` if the byte is not a valid flag.
fn flag_of(byte: u8) -> Option<bool>
    ensures { result ≡ flag byte }
{
    match byte {
        0x00 => Some(false),
        0x01 => Some(true),
        _ => None,
    }
}

impl Decode for Hint {
    ghost parse = { (value_with_place hint_grammar).parse };

    fn read(cursor: &mut Cursor) -> Result<Hint, Malformed> {
        let place = cursor.place();
        let offset = cursor.u32()?;
        read_size(cursor)?;
        match flag_of(cursor.u8()?) {
            Some(taken) => Ok(Hint {
                place,
                offset,
                taken,
            }),
            None => Err(Malformed { place }),
        }
    }
}

impl Hint {
    /// Returns the place of the hint's first byte, in the custom section: a byte offset from the start of the module.
    pub fn place(&self) -> u64
        ensures { result ≡ self.now.place }
    {
        self.place
    }

    /// Reports whether the operator is likely to branch.
    pub fn is_taken(&self) -> bool
        ensures { result ≡ self.now.value.taken }
    {
        self.taken
    }
}

/// The remaining hints of a function. They are taken in order, so a hint that no operator
/// takes blocks those after it.
#[derive(Drop)]
pub struct FunctionHints<'a> {
    hints: Items<'a, Hint>,
}

impl<'a> Model for FunctionHints<'a> {
    ghost use Rattle.std.specs.Prelude.{List};
    ghost use Rattle.wasmprinter_spec.specs.Grammar.{Placed};
    ghost use Rattle.wasmprinter_spec.specs.Customs.Hints.{Hint as HintValue};

    ghost Value = { List (Placed HintValue) };

    ghost view = { λ h. h.hints };
}

impl<'a> FunctionHints<'a> {
    /// Returns an empty list of hints.
    pub fn none() -> Self
        ensures { result ≡ [] }
    {
        FunctionHints {
            hints: no_items(&Cursor::new(0, &[])),
        }
    }

    /// Removes the next hint and returns it if its operator is `offset` bytes after the first byte of the body, which
    /// is the one after the body's size. Otherwise returns `None` and changes nothing.
    pub fn next_at(&mut self, offset: u64) -> Option<Hint>
        ensures gives { result ≡ next_hint offset self.old }
        ensures after { self.new ≡ hints_after offset self.old }
    {
        let mut after = self.hints.iter();
        match after.next() {
            Some(hint) if u64::from(hint.offset) == offset => {
                self.hints = after;
                Some(hint)
            }
            _ => None,
        }
    }
}

/// The hints of one function.
#[derive(Drop)]
struct Entry<'a> {
    function: u32,
    hints: Items<'a, Hint>,
}

impl<'a> Model for Entry<'a> {
    ghost use Rattle.wasmprinter_spec.specs.Customs.Hints.{FunctionHints as FunctionHintsValue};

    ghost Value = { FunctionHintsValue };

    ghost view = { λ e. record { function = e.function; hints = e.hints } };
}

impl<'a> ReadFrom for Entry<'a> {
    type Source = Cursor<'a>;

    ghost parse = { function_hints.parse };

    fn read(cursor: &mut Cursor<'a>) -> Result<Entry<'a>, Malformed> {
        let place = cursor.place();
        let function = cursor.u32()?;
        let hints = read_items(cursor)?;
        if hints.len() > MOST_HINTS {
            return Err(Malformed { place });
        }
        Ok(Entry { function, hints })
    }
}

/// Reads the entries of a section, which must take all of its bytes.
fn read_entries<'a>(section: Cursor<'a>) -> Option<ItemsIn<Entry<'a>>>
    ensures { result ≡ hint_section.parse section.entry }
{
    let mut cursor = section;
    match ItemsIn::<Entry>::read(&mut cursor) {
        Ok(entries) if entries.len() <= MOST_FUNCTIONS && cursor.is_empty() => Some(entries),
        _ => None,
    }
}

/// The functions with hints that remain. They are taken in order, so an entry that no function
/// takes blocks those after it.
#[derive(Drop)]
pub struct Hints<'a> {
    /// The next entry, kept so that it is read only once.
    next: Option<Entry<'a>>,
    after: ItemsIn<Entry<'a>>,
}

impl<'a> Model for Hints<'a> {
    ghost use Rattle.std.specs.Prelude.{List};
    ghost use Rattle.wasmprinter_spec.specs.Customs.Hints.{FunctionHints as FunctionHintsValue};
    ghost use Rattle.wasmprinter_custom.specs.Entries.{entries_left};

    ghost Value = { List FunctionHintsValue };

    ghost view = { λ h. entries_left h.next h.after };
}

impl<'a> Hints<'a> {
    /// Returns an empty list of hints.
    pub fn none() -> Self
        ensures { result ≡ [] }
    {
        Hints {
            next: None,
            after: ItemsIn::none(Cursor::new(0, &[])),
        }
    }

    /// Returns the hints of these entries.
    #[tactic(auto, using(crate::proofs::NextEntry::next_is_first))]
    fn of(entries: ItemsIn<Entry<'a>>) -> Self
        ensures { result ≡ entries.entry }
    {
        let mut after = entries;
        let next = after.next();
        Hints { next, after }
    }

    /// Returns the hints of a section, or no hints if the section is malformed. `place` is the place of
    /// its bytes after the name. The place of their end must be below 2^64.
    ///
    /// A section counts as malformed too if it lists more than 1,000,000 functions, or more than 131,071 hints of one
    /// function. Whether the functions and operators of the hints exist isn't checked.
    pub fn of_section(place: u64, bytes: &'a [u8]) -> Self
        requires { place + length bytes.now < 2 ^ 64 }
        ensures { result ≡ hints_given (record { place = place; value = bytes.now }) }
    {
        match read_entries(Cursor::new(place, bytes)) {
            Some(entries) => Hints::of(entries),
            None => Hints::none(),
        }
    }

    /// Removes the next entry and returns its hints if it is that of the function with this index (imports counted).
    /// Otherwise returns no hints and changes nothing.
    #[tactic(auto, using(crate::proofs::NextEntry::next_is_first))]
    pub fn next_function(&mut self, number: u64) -> FunctionHints<'a>
        ensures gives { result ≡ hints_of_next number self.old }
        ensures after { self.new ≡ entries_after number self.old }
    {
        match &self.next {
            Some(entry) if u64::from(entry.function) == number => {
                let hints = entry.hints.iter();
                self.next = self.after.next();
                FunctionHints { hints }
            }
            _ => FunctionHints::none(),
        }
    }
}
