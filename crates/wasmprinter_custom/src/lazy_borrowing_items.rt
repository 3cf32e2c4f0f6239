//! Lists of values that borrow the bytes (section 5.1 of the WebAssembly Core Specification, "Lists").
ghost use Rattle.std.specs.Prelude.{◌≡◌, [], length};
ghost use Rattle.wasmprinter_spec.specs.Name.{u32 as u32_grammar};
ghost use Rattle.wasmprinter_bytes.specs.Reads.{Reads};
ghost use Rattle.wasmprinter_bytes.specs.Lists.{vec_at};

use std::marker::Model;
use wasmprinter_bytes::Malformed;
use wasmprinter_bytes::cursor::Cursor;

/// A cursor from which values are read. This trait keeps the cursor's lifetime out of the trait of the values.
pub trait ValueSource: Drop {
    ghost use Rattle.wasmprinter_spec.specs.Grammar.{Input};

    /// The input at the cursor.
    ghost input: { Self → Input };

    /// Returns a second cursor over the same bytes, at the same place.
    fn again(&self) -> Self
        ensures { input result ≡ input self.now };

    /// Reads the number of values. On `Ok`, the cursor is then after it.
    ///
    /// # Errors
    ///
    /// `Malformed` if the bytes do not encode a number. The contract then says nothing of its place or of the cursor.
    fn count(&mut self) -> Result<u32, Malformed>
        ensures { Reads (λ n. n) u32_grammar.parse (input self.old) result (input self.new) };
}

impl<'a> ValueSource for Cursor<'a> {
    ghost input = { λ cursor. cursor };

    fn again(&self) -> Cursor<'a> {
        self.fork()
    }

    fn count(&mut self) -> Result<u32, Malformed> {
        self.u32()
    }
}

/// A value that can be read from bytes without allocating, and that may borrow the bytes.
pub trait ReadFrom: Drop {
    ghost use Rattle.std.specs.Prelude.{Option};
    ghost use Rattle.wasmprinter_spec.specs.Grammar.{Input};

    /// The type of the cursor, with the lifetime of the bytes that the value borrows.
    type Source: ValueSource;

    /// The grammar's reader for the value.
    ghost parse: { Input → Option (Self × Input) };

    /// Reads the value at the cursor. On `Ok`, the cursor is then after it.
    ///
    /// # Errors
    ///
    /// `Malformed` if the bytes do not encode a value. The contract then says nothing of its place or of the cursor.
    fn read(source: &mut Self::Source) -> Result<Self, Malformed>
        ensures { Reads (λ x. x) parse (Self.Source.input source.old) result (Self.Source.input source.new) };
}

/// A list of values whose encoding was checked. Each value is read again from the bytes when it is requested.
#[derive(Drop)]
pub struct ItemsIn<T: ReadFrom> {
    left: u32,
    source: <T as ReadFrom>::Source,
}

impl<T: ReadFrom> Model for ItemsIn<T> {
    ghost use Rattle.std.specs.Prelude.{List};
    ghost use Rattle.wasmprinter_bytes.specs.Items.{items_of, HasItems};

    ghost Value = { List T };

    ghost view = { λ t. items_of T.parse t.left (T.Source.input t.source) };

    ghost invariant = { λ t. HasItems T.parse t.left (T.Source.input t.source) };
}

impl<T: ReadFrom> ItemsIn<T> {
    /// Returns an empty list.
    pub(crate) fn none(source: <T as ReadFrom>::Source) -> Self
        ensures { result ≡ [] }
    {
        ItemsIn { left: 0, source }
    }

    /// Reads a count and that many values. Returns an error if the bytes do not encode them.
    pub(crate) fn read(source: &mut <T as ReadFrom>::Source) -> Result<Self, Malformed>
        ensures { Reads (λ t. t) (vec_at T.parse) (T.Source.input source.old) result (T.Source.input source.new) }
    {
        let count = source.count()?;
        let start = source.again();
        for _ in 0..count {
            T::read(source)?;
        }
        Ok(ItemsIn {
            left: count,
            source: start,
        })
    }

    /// Returns the number of values that are left, without those that `next` has returned.
    pub fn len(&self) -> u32
        ensures { result ≡ length self.now }
    {
        self.left
    }

    /// Returns the values in order.
    /// They are those that are left, without those that `next` has returned.
    pub fn iter(&self) -> ItemsIn<T>
        ensures { result ≡ self.now }
    {
        ItemsIn {
            left: self.left,
            source: self.source.again(),
        }
    }
}

impl<T: ReadFrom> Iterator for ItemsIn<T> {
    ghost use Rattle.std.specs.Iterator.{YieldsFirst, item_count};

    type Item = T;

    ghost next_gives = { YieldsFirst (λ values. values) };

    ghost remaining = { item_count (λ values. values) };

    fn next(&mut self) -> Option<T> {
        if self.left == 0 {
            return None;
        }
        self.left -= 1;
        match T::read(&mut self.source) {
            Ok(value) => Some(value),
            Err(_) => unreachable!(),
        }
    }
}
