//! Lists whose encoding was checked, and whose values are read again from the bytes when they are requested (section
//! 5.1 of the WebAssembly Core Specification, "Lists").
ghost use Rattle.std.specs.Prelude.{◌≡◌, [], length};
ghost use Rattle.wasmprinter_bytes.specs.Reads.{Decodes};
ghost use Rattle.wasmprinter_bytes.specs.Lists.{vec_at};

use crate::Malformed;
use crate::cursor::Cursor;
use crate::decode_traits::Decode;
use std::alloc::AllocError;
use std::fmt;
use std::marker::{Model, PhantomData};

/// A list of values whose encoding was checked. Each value is read again from the bytes when it is requested.
#[derive(Drop)]
pub struct Items<'a, T: Decode> {
    left: u32,
    cursor: Cursor<'a>,
    item: PhantomData<T>,
}

impl<'a, T: Decode> Model for Items<'a, T> {
    ghost use Rattle.std.specs.Prelude.{List};
    ghost use Rattle.wasmprinter_bytes.specs.Items.{items_of, HasItems};

    ghost Value = { List T };

    ghost view = { λ t. items_of T.parse t.left t.cursor };

    ghost invariant = { λ t. HasItems T.parse t.left t.cursor };
}

/// Returns an empty list, whatever the position and the bytes of `cursor` are.
pub fn no_items<'a, T: Decode>(cursor: &Cursor<'a>) -> Items<'a, T>
    ensures { result ≡ [] }
{
    Items {
        left: 0,
        cursor: cursor.fork(),
        item: PhantomData,
    }
}

/// Reads a list: a count, and that many values. On `Ok`, the result has all of them, and the cursor is then after them.
/// After an error, the cursor may have advanced.
///
/// # Errors
///
/// `Malformed` if the bytes do not encode the count or one of the values, with a place
/// as [`Error::Malformed`](crate::Error::Malformed) describes it.
pub fn read_items<'a, T: Decode>(cursor: &mut Cursor<'a>) -> Result<Items<'a, T>, Malformed>
    ensures { Decodes (λ t. t) (vec_at T.parse) cursor.old result cursor.new }
{
    let count = cursor.u32()?;
    let start = cursor.fork();
    for _ in 0..count {
        T::read(cursor)?;
    }
    Ok(Items {
        left: count,
        cursor: start,
        item: PhantomData,
    })
}

impl<'a, T: Decode> Items<'a, T> {
    /// Returns the number of values that are left, without those that `next` has returned.
    pub fn len(&self) -> u32
        ensures { result ≡ length self.now }
    {
        self.left
    }

    /// Returns the values in order.
    /// They are those that are left, without those that `next` has returned.
    pub fn iter(&self) -> Items<'a, T>
        ensures { result ≡ self.now }
    {
        Items {
            left: self.left,
            cursor: self.cursor.fork(),
            item: PhantomData,
        }
    }
}

impl<'a, T: Decode> Iterator for Items<'a, T> {
    ghost use Rattle.std.specs.Iterator.{YieldsFirst, item_count};

    type Item = T;

    ghost next_gives = { YieldsFirst (λ values. values) };

    ghost remaining = { item_count (λ values. values) };

    fn next(&mut self) -> Option<T> {
        if self.left == 0 {
            return None;
        }
        self.left -= 1;
        match T::read(&mut self.cursor) {
            Ok(value) => Some(value),
            Err(_) => unreachable!(),
        }
    }
}

// A clone is a second view of the same bytes, and allocates nothing.
impl<T: Decode> Clone for Items<'_, T> {
    ghost use Rattle.std.specs.Prelude.{◌≡◌, ⊤};

    ghost is_clone = { λ s r. r ≡ s };

    ghost is_infallible = { λ _. ⊤ };

    fn clone(&self) -> Result<Self, AllocError> {
        Ok(self.iter())
    }
}

// Two lists are equal if their values are equal; the places of the values do not matter.
impl<T: Decode + PartialEq> PartialEq for Items<'_, T> {
    ghost use Rattle.std.specs.Cmp.Lexicographic.{pointwise, lists_per};

    ghost eq = { λ x y. pointwise T.eq x y };

    ghost laws = { lists_per T.laws };

    fn eq(&self, other: &Self) -> bool {
        let mut others = other.iter();
        for value in self.iter() {
            match others.next() {
                Some(other) if value == other => {}
                _ => return false,
            }
        }
        others.next().is_none()
    }
}

// Formats the values as a list.
impl<T: Decode + fmt::Debug> fmt::Debug for Items<'_, T> {
    fn fmt<W: fmt::Write>(&self, f: &mut fmt::Formatter<W>) -> fmt::Result {
        f.debug_list().entries(self.iter()).finish()
    }
}
