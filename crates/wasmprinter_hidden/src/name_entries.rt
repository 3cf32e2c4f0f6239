//! What the subsections of a name section consist of, as bytes (appendix "Name Section" of the WebAssembly Core
//! Specification).
ghost use Rattle.std.specs.Prelude.{◌≡◌, ◌+◌, ◌<◌, IfOk, OnOk, length};
ghost use Rattle.wasmprinter_spec.specs.Names.Section.{association};
ghost use Rattle.wasmprinter_spec.specs.Name.{name};
ghost use Rattle.wasmprinter_bytes.specs.Reads.{Decodes};
ghost use Rattle.wasmprinter_hidden.specs.Findings.{any_section};

use crate::excess::{Excess, Shortest};
use crate::list_lengths::take_bytes;
use std::marker::Model;
use wasmprinter_bytes::Malformed;
use wasmprinter_bytes::cursor::Cursor;

/// An index and its name.
#[derive(Drop)]
pub(crate) struct Association<'a> {
    pub(crate) index: u32,
    pub(crate) name: &'a str,
}

impl<'a> Model for Association<'a> {
    ghost use Rattle.std.specs.Prelude.{ℕ, List};

    ghost Value = { ℕ × List ℕ };

    ghost view = { λ a. (a.index, a.name.now) };
}

impl<'a> Association<'a> {
    /// Reads an index and its name. On `Ok`, the cursor is then after them.
    pub(crate) fn read(cursor: &mut Cursor<'a>) -> Result<Self, Malformed>
        ensures { Decodes (λ a. a) association.parse cursor.old result cursor.new }
    {
        let index = cursor.u32()?;
        let name = cursor.name()?;
        Ok(Association { index, name })
    }
}

impl Shortest for Association<'_> {
    ghost use Rattle.wasmprinter_hidden.specs.Lengths.{association_len};

    ghost len = { association_len };

    fn take_from(&self, excess: &mut Excess) {
        self.index.take_from(excess);
        take_bytes(self.name.as_bytes(), excess);
    }
}

/// The name of the module.
#[derive(Drop)]
pub(crate) struct ModuleName<'a> {
    pub(crate) name: &'a str,
}

impl<'a> Model for ModuleName<'a> {
    ghost use Rattle.std.specs.Prelude.{ℕ, List};

    ghost Value = { List ℕ };

    ghost view = { λ m. m.name.now };
}

impl<'a> ModuleName<'a> {
    /// Reads the name of the module. On `Ok`, the cursor is then after it.
    pub(crate) fn read(cursor: &mut Cursor<'a>) -> Result<Self, Malformed>
        ensures { Decodes (λ m. m) name.parse cursor.old result cursor.new }
    {
        let name = cursor.name()?;
        Ok(ModuleName { name })
    }
}

impl Shortest for ModuleName<'_> {
    ghost use Rattle.wasmprinter_hidden.specs.Lengths.{bytes_len};

    ghost len = { bytes_len };

    fn take_from(&self, excess: &mut Excess) {
        take_bytes(self.name.as_bytes(), excess);
    }
}

/// A subsection.
#[derive(Drop)]
pub(crate) struct Subsection<'a> {
    pub(crate) id: u8,
    /// The place of the number that encodes the size.
    pub(crate) size_place: u64,
    pub(crate) content: Cursor<'a>,
}

impl<'a> Subsection<'a> {
    /// Reads a subsection with any id. Reads nothing of its content.
    pub(crate) fn read(cursor: &mut Cursor<'a>) -> Result<Self, Malformed>
        ensures reads { Decodes (λ s. (s.id, record { place = s.content.place; value = s.content.bytes })) any_section.parse
            cursor.old result cursor.new }
        ensures size { IfOk result (λ s. s.size_place ≡ cursor.old.place + 1) }
        ensures advances { OnOk result (length cursor.new.bytes < length cursor.old.bytes) }
    {
        let id = cursor.u8()?;
        let size_place = cursor.place();
        let size = cursor.u32()?;
        let content = cursor.part(size as usize)?;
        Ok(Subsection {
            id,
            size_place,
            content,
        })
    }
}
