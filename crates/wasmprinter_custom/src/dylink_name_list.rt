//! Lists of names in subsections of a `dylink.0` section (tool conventions, "Dynamic Linking").
ghost use Rattle.std.specs.Prelude.{◌≡◌};
ghost use Rattle.wasmprinter_spec.specs.Name.{vec, name};
ghost use Rattle.wasmprinter_bytes.specs.Reads.{Reads};

use crate::lazy_borrowing_items::{ItemsIn, ReadFrom};
use std::marker::Model;
use wasmprinter_bytes::Malformed;
use wasmprinter_bytes::cursor::Cursor;

/// A name.
#[derive(Drop)]
struct Name<'a> {
    text: &'a str,
}

impl<'a> Model for Name<'a> {
    ghost use Rattle.std.specs.Prelude.{ℕ, List};

    ghost Value = { List ℕ };

    ghost view = { λ n. n.text.now };
}

impl<'a> ReadFrom for Name<'a> {
    type Source = Cursor<'a>;

    ghost parse = { name.parse };

    fn read(cursor: &mut Cursor<'a>) -> Result<Name<'a>, Malformed> {
        let text = cursor.name()?;
        Ok(Name { text })
    }
}

/// A list of names.
#[derive(Drop)]
pub struct DylinkNames<'a> {
    names: ItemsIn<Name<'a>>,
}

impl<'a> Model for DylinkNames<'a> {
    ghost use Rattle.std.specs.Prelude.{ℕ, List};

    ghost Value = { List (List ℕ) };

    ghost view = { λ n. n.names };
}

impl<'a> DylinkNames<'a> {
    /// Reads a count and that many names.
    pub(crate) fn read(cursor: &mut Cursor<'a>) -> Result<Self, Malformed>
        ensures { Reads (λ n. n) (vec name).parse cursor.old result cursor.new }
    {
        let names = ItemsIn::read(cursor)?;
        Ok(DylinkNames { names })
    }

    /// Returns the names in order.
    /// They are those that are left, without those that `next` has returned.
    pub fn iter(&self) -> DylinkNames<'a>
        ensures { result ≡ self.now }
    {
        DylinkNames {
            names: self.names.iter(),
        }
    }
}

impl<'a> Iterator for DylinkNames<'a> {
    ghost use Rattle.std.specs.Iterator.{YieldsFirstBy, item_count};

    type Item = &'a str;

    ghost next_gives = { YieldsFirstBy (λ name. name.now) (λ names. names) };

    ghost remaining = { item_count (λ names. names) };

    fn next(&mut self) -> Option<&'a str> {
        let name = self.names.next()?;
        Some(name.text)
    }
}
