//! The sections of a module one after the other (section 5.5 of the WebAssembly Core Specification, "Sections").
ghost use Rattle.std.specs.Prelude.{◌≡◌, ◌<◌, OnOk, length};
ghost use Rattle.wasmprinter_bytes.specs.Reads.{Decodes};
ghost use Rattle.wasmprinter_hidden.specs.Extents.{extent_at};

use std::marker::Model;
use wasmprinter_bytes::Malformed;
use wasmprinter_bytes::cursor::Cursor;

/// A section by its places, which are byte offsets from the start of the module.
#[derive(Clone, Copy)]
pub(crate) struct Extent {
    /// The place of the section's id.
    pub(crate) place: u64,
    pub(crate) id: u8,
    /// The place after the section's size.
    pub(crate) contents: u64,
    /// The place after the section.
    pub(crate) end: u64,
}

impl Model for Extent {
    ghost use Rattle.std.specs.Prelude.{◌<◌};
    ghost use Rattle.wasmprinter_hidden.specs.Hidden.{Extent as ExtentValue, extent};

    ghost Value = { ExtentValue };

    ghost view = { λ x. extent x.place x.id x.contents x.end };

    ghost inverse = { λ x. record { place = x.place; id = x.id; contents = x.contents; end = x.end } };

    ghost invariant = { λ x. x.place < x.contents };
}

impl Extent {
    /// Reads a section of any kind. Reads nothing of its contents.
    pub(crate) fn read(cursor: &mut Cursor<'_>) -> Result<Self, Malformed>
        ensures reads { Decodes (λ x. x) extent_at cursor.old result cursor.new }
        ensures advances { OnOk result (length cursor.new.bytes < length cursor.old.bytes) }
    {
        let place = cursor.place();
        let id = cursor.u8()?;
        let size = cursor.u32()?;
        let contents = cursor.place();
        cursor.take(size as usize)?;
        Ok(Extent {
            place,
            id,
            contents,
            end: cursor.place(),
        })
    }
}
