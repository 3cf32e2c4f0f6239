//! Lengths of the shortest encodings of lists (section 5.1 of the WebAssembly Core Specification, "Lists").
ghost use Rattle.std.specs.Prelude.{◌≡◌, ◌-◌};
ghost use Rattle.wasmprinter_hidden.specs.Lengths.{list_len, bytes_len};

use crate::excess::{Excess, Shortest, unsigned_len};
use wasmprinter_bytes::decode_traits::Decode;
use wasmprinter_bytes::lazy_items::Items;
use wasmprinter_custom::{ItemsIn, ReadFrom};

/// Takes the bytes of a count and the items away.
pub(crate) fn take_list<T: Decode + Shortest>(items: &Items<'_, T>, excess: &mut Excess)
    ensures { excess.new.bytes ≡ excess.old.bytes - list_len T.len items.now }
{
    items.len().take_from(excess);
    for item in items.iter() {
        item.take_from(excess);
    }
}

/// Takes the bytes of a count and the items of a list that borrow the bytes away.
pub(crate) fn take_list_in<T: ReadFrom + Shortest>(list: &ItemsIn<T>, excess: &mut Excess)
    ensures { excess.new.bytes ≡ excess.old.bytes - list_len T.len list.now }
{
    list.len().take_from(excess);
    for item in list.iter() {
        item.take_from(excess);
    }
}

/// Takes the bytes of a count and the items of a list in memory away.
pub(crate) fn take_slice<T: Shortest>(items: &[T], excess: &mut Excess)
    ensures { excess.new.bytes ≡ excess.old.bytes - list_len T.len items.now }
{
    excess.take(unsigned_len(items.len() as u64));
    for item in items {
        item.take_from(excess);
    }
}

/// Takes the bytes of a length and of that many bytes away.
pub(crate) fn take_bytes(bytes: &[u8], excess: &mut Excess)
    ensures { excess.new.bytes ≡ excess.old.bytes - bytes_len bytes.now }
{
    let len = bytes.len() as u64;
    excess.take(unsigned_len(len));
    excess.take(len);
}
