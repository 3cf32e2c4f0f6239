//! Lists of findings in parts of a module that follow each other.
ghost use Rattle.std.specs.Prelude.{◌≡◌, ◌++◌, ◌∷◌, [], IfOk, OnOk};
ghost use Rattle.wasmprinter_hidden.specs.Findings.{finding};
ghost use Rattle.wasmprinter_hidden.specs.OpenParts.{capped, open_part, lengths, in_open, HasRead};

use crate::excess::{Excess, Shortest};
use crate::finding::{Finding, Part};
use std::alloc::{AllocError, Global};
use std::marker::Model;

/// An item with the place where it starts.
pub(crate) trait Entry: Shortest {
    ghost use Rattle.std.specs.Prelude.{ℕ};

    /// The byte offset from the start of the module.
    ghost place: { Self → ℕ };

    /// Returns the place of the item's first byte.
    fn place(&self) -> u64
        ensures { result ≡ place self.now };
}

/// A part of a module that ends where the next part starts.
#[derive(Clone, Copy)]
pub(crate) struct OpenPart {
    pub(crate) part: Part,
    pub(crate) place: u64,
    /// The number of bytes of the shortest encoding, or `u64::MAX` if that number is greater.
    pub(crate) len: u64,
}

impl OpenPart {
    /// Returns the part that consists of an item at this place.
    pub(crate) fn of_item<T: Shortest>(part: Part, place: u64, item: &T) -> Self
        ensures { result ≡ open_part part place (T.len item.now) }
    {
        OpenPart {
            part,
            place,
            len: shortest_len(item),
        }
    }
}

/// Returns the number of bytes of the shortest encoding, or `u64::MAX` if that number is greater.
pub(crate) fn shortest_len<T: Shortest>(item: &T) -> u64
    ensures { result ≡ capped (T.len item.now) }
{
    let mut excess = Excess { bytes: u64::MAX };
    item.take_from(&mut excess);
    u64::MAX - excess.bytes
}

/// Findings, in the order in which their parts were read.
#[derive(Drop)]
pub(crate) struct Findings {
    list: Vec<Finding>,
}

impl Model for Findings {
    ghost use Rattle.std.specs.Prelude.{List};
    ghost use Rattle.wasmprinter_hidden.specs.declared.finding.Finding.{Finding as FindingValue};

    ghost Value = { List FindingValue };

    ghost view = { λ f. f.list.items };
}

impl Findings {
    /// Returns an empty list.
    pub(crate) fn new(alloc: Global) -> Self
        ensures { result ≡ [] }
    {
        Findings {
            list: Vec::new(alloc),
        }
    }

    /// Returns the findings.
    pub(crate) fn into_list(self) -> Vec<Finding>
        ensures { result.items ≡ self }
    {
        self.list
    }

    /// Appends a finding.
    pub(crate) fn push(&mut self, place: u64, part: Part, extra: u64) -> Result<(), AllocError>
        ensures { OnOk result (self.new ≡ self.old ++ finding place part extra ∷ []) }
    {
        self.list.push(Finding { place, part, extra })?;
        Ok(())
    }

    /// Appends a finding if the part has more bytes up to the place `end` than its shortest encoding.
    pub(crate) fn close(&mut self, last: OpenPart, end: u64) -> Result<(), AllocError>
        ensures { OnOk result (self.new ≡ self.old ++ in_open last end) }
    {
        let bytes = end.saturating_sub(last.place);
        if last.len < bytes {
            self.push(last.place, last.part, bytes - last.len)?;
        }
        Ok(())
    }

    /// Appends the findings in the part `first` and in the items that follow it, except in the last item, or in `first`
    /// if there is no item. Returns the part that is left out.
    pub(crate) fn add_items<T: Entry>(
        &mut self,
        first: OpenPart,
        part: Part,
        items: &[T],
    ) -> Result<OpenPart, AllocError>
        ensures { IfOk result (HasRead part self.old first (lengths T.place T.len items.now) self.new) }
    {
        let mut last = first;
        for item in items {
            let place = item.place();
            self.close(last, place)?;
            last = OpenPart::of_item(part, place, item);
        }
        Ok(last)
    }
}
