//! The export section (section 5.5, "Export Section").
ghost use Rattle.std.specs.Prelude.{◌≡◌, option_map};
ghost use Rattle.wasmprinter_spec.specs.Grammar.{value_with_place};
ghost use Rattle.wasmprinter_spec.specs.Binary.Exports.{export, extern_kind, extern_kind_of};
ghost use Rattle.wasmprinter_spec.specs.Sections.{ExportSection};
ghost use Rattle.wasmprinter_bytes.specs.Reads.{Decodes};
ghost use Rattle.wasmprinter_decoder.specs.Contents.{DecodesContent};
ghost use Rattle.wasmprinter_decoder.specs.Externs.{kind_view};

use crate::byte_checks::expect_end;
use std::alloc::Global;
use std::marker::Model;
use wasmprinter_bytes::cursor::Cursor;
use wasmprinter_bytes::decode_traits::{DecodeIn, read_list};
use wasmprinter_bytes::{Error, Malformed};

/// The kinds of items that a module can import and export (section 2.3, "External Types").
#[derive(Clone, Copy, Debug, PartialEq, Eq)]
pub enum ExternKind {
    /// A function.
    Func,
    /// A table.
    Table,
    /// A memory.
    Memory,
    /// A global.
    Global,
    /// A tag.
    Tag,
}

impl ExternKind {
    /// Returns the kind that the byte encodes.
    fn of_byte(byte: u8) -> Option<ExternKind>
        ensures { option_map kind_view result ≡ extern_kind_of byte }
    {
        match byte {
            0x00 => Some(ExternKind::Func),
            0x01 => Some(ExternKind::Table),
            0x02 => Some(ExternKind::Memory),
            0x03 => Some(ExternKind::Global),
            0x04 => Some(ExternKind::Tag),
            _ => None,
        }
    }

    /// Reads a kind.
    fn read(cursor: &mut Cursor) -> Result<ExternKind, Malformed>
        ensures { Decodes kind_view extern_kind.parse cursor.old result cursor.new }
    {
        let place = cursor.place();
        let byte = cursor.u8()?;
        ExternKind::of_byte(byte).ok_or(Malformed { place })
    }
}

/// An export, with the place of its entry.
#[derive(Drop)]
pub struct Export<'a> {
    place: u64,
    name: &'a str,
    kind: ExternKind,
    index: u32,
}

impl<'a> Model for Export<'a> {
    ghost use Rattle.wasmprinter_spec.specs.Grammar.{Placed};
    ghost use Rattle.wasmprinter_spec.specs.Placed.{Export as ExportValue};
    ghost use Rattle.wasmprinter_decoder.specs.Externs.{kind_view};

    ghost Value = { Placed ExportValue };

    ghost view = { λ e. record { place = e.place; value = record { name = e.name.now; kind = kind_view e.kind; index = e.index } } };
}

impl<'a> DecodeIn<'a> for Export<'a> {
    ghost parse = { (value_with_place export).parse };

    fn read(cursor: &mut Cursor<'a>) -> Result<Export<'a>, Malformed> {
        let place = cursor.place();
        let name = cursor.name()?;
        let kind = ExternKind::read(cursor)?;
        let index = cursor.u32()?;
        Ok(Export {
            place,
            name,
            kind,
            index,
        })
    }
}

impl<'a> Export<'a> {
    /// Returns the place of the entry's first byte: a byte offset from the start of the module.
    pub fn place(&self) -> u64
        ensures { result ≡ self.now.place }
    {
        self.place
    }

    /// Returns the name of the export.
    pub fn name(&self) -> &'a str
        ensures { result.now ≡ self.now.value.name }
    {
        self.name
    }

    /// Returns the kind of the exported item.
    pub fn kind(&self) -> ExternKind
        ensures { kind_view result ≡ self.now.value.kind }
    {
        self.kind
    }

    /// Returns the index of the exported item in the index space of its kind. It may refer to no item.
    pub fn index(&self) -> u32
        ensures { result ≡ self.now.value.index }
    {
        self.index
    }
}

/// Reads the content of an export section. On `Ok`, the result is the value that the grammar gives for all
/// remaining bytes.
///
/// # Errors
///
/// - `Malformed` if the bytes do not encode a list of exports and nothing after it, with a place as
///   [`Error::Malformed`](wasmprinter_bytes::Error::Malformed) describes it.
/// - `Memory` if an allocation fails, which happens only if the bytes begin with a count above zero.
pub fn read_exports<'a>(alloc: Global, cursor: &mut Cursor<'a>) -> Result<Vec<Export<'a>>, Error>
    ensures { DecodesContent ExportSection (λ v. v.items) cursor.old result }
{
    let exports = read_list(alloc, cursor)?;
    expect_end(cursor)?;
    Ok(exports)
}
