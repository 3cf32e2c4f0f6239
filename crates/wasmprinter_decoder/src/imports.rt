//! The import section (section 5.5, "Import Section"), with the types of imports (section 5.3, "External Types").
ghost use Rattle.std.specs.Prelude.{◌≡◌, ◌↔◌, IsTrue, IfOk};
ghost use Rattle.wasmprinter_spec.specs.Grammar.{value_with_place};
ghost use Rattle.wasmprinter_spec.specs.Binary.Imports.{extern_type as extern_type_grammar, import as import_grammar};
ghost use Rattle.wasmprinter_spec.specs.Sections.{ImportSection};
ghost use Rattle.wasmprinter_bytes.specs.Reads.{Decodes};
ghost use Rattle.wasmprinter_decoder.specs.Contents.{DecodesContent};
ghost use Rattle.wasmprinter_decoder.specs.Externs.{extern_view, HasPageExponent, kind_view, kind_of_type};

use crate::byte_checks::expect_end;
use crate::exports::ExternKind;
use crate::global_types::GlobalType;
use crate::memories::MemoryType;
use crate::table_types::TableType;
use crate::tags::read_tag_type;
use std::alloc::Global;
use std::marker::Model;
use wasmprinter_bytes::cursor::Cursor;
use wasmprinter_bytes::decode_traits::{DecodeIn, read_list};
use wasmprinter_bytes::{Error, Malformed};

/// The type of an import (section 2.3, "External Types").
#[derive(Clone, Copy, Debug, PartialEq, Eq)]
pub enum ExternType {
    /// A function, with the index of its type.
    Func(u32),
    /// A table.
    Table(TableType),
    /// A memory.
    Memory(MemoryType),
    /// A global.
    Global(GlobalType),
    /// A tag, with the index of its type.
    Tag(u32),
}

impl ExternType {
    /// Reads the byte of a kind, and a type of that kind.
    fn read(cursor: &mut Cursor) -> Result<ExternType, Malformed>
        ensures decodes { Decodes extern_view extern_type_grammar.parse cursor.old result cursor.new }
        ensures page { IfOk result HasPageExponent }
    {
        let place = cursor.place();
        match cursor.u8()? {
            0x00 => Ok(ExternType::Func(cursor.u32()?)),
            0x01 => Ok(ExternType::Table(TableType::read(cursor)?)),
            0x02 => Ok(ExternType::Memory(MemoryType::read(cursor)?)),
            0x03 => Ok(ExternType::Global(GlobalType::read(cursor)?)),
            0x04 => Ok(ExternType::Tag(read_tag_type(cursor)?)),
            _ => Err(Malformed { place }),
        }
    }

    /// Returns the kind of the items that have this type.
    pub fn kind(&self) -> ExternKind
        ensures { kind_view result ≡ kind_of_type (extern_view self.now) }
    {
        match self {
            ExternType::Func(_) => ExternKind::Func,
            ExternType::Table(_) => ExternKind::Table,
            ExternType::Memory(_) => ExternKind::Memory,
            ExternType::Global(_) => ExternKind::Global,
            ExternType::Tag(_) => ExternKind::Tag,
        }
    }
}

/// An import, with the place of its entry (section 2.5, "Imports").
#[derive(Drop)]
pub struct Import<'a> {
    place: u64,
    module: &'a str,
    name: &'a str,
    ty: ExternType,
}

impl<'a> Model for Import<'a> {
    ghost use Rattle.wasmprinter_spec.specs.Grammar.{Placed};
    ghost use Rattle.wasmprinter_spec.specs.Placed.{Import as ImportValue, import_of};
    ghost use Rattle.wasmprinter_decoder.specs.Externs.{extern_view, HasPageExponent};

    ghost Value = { Placed ImportValue };

    ghost view = { λ i. record { place = i.place; value = import_of i.module.now i.name.now (extern_view i.ty) } };

    ghost invariant = { λ i. HasPageExponent i.ty };
}

impl<'a> DecodeIn<'a> for Import<'a> {
    ghost parse = { (value_with_place import_grammar).parse };

    fn read(cursor: &mut Cursor<'a>) -> Result<Import<'a>, Malformed> {
        let place = cursor.place();
        let module = cursor.name()?;
        let name = cursor.name()?;
        let ty = ExternType::read(cursor)?;
        Ok(Import {
            place,
            module,
            name,
            ty,
        })
    }
}

impl<'a> Import<'a> {
    /// Returns the place of the entry's first byte: a byte offset from the start of the module.
    pub fn place(&self) -> u64
        ensures { result ≡ self.now.place }
    {
        self.place
    }

    /// Returns the name of the module that the import comes from.
    pub fn module(&self) -> &'a str
        ensures { result.now ≡ self.now.value.source }
    {
        self.module
    }

    /// Returns the name of the import in that module.
    pub fn name(&self) -> &'a str
        ensures { result.now ≡ self.now.value.name }
    {
        self.name
    }

    /// Reports whether the import has this kind.
    pub fn is_of(&self, kind: ExternKind) -> bool
        ensures { IsTrue result ↔ (kind_of_type self.now.value.type ≡ kind_view kind) }
    {
        self.ty.kind() == kind
    }

    /// Returns the type of the import (`is`). If it is a memory, the exponent of its page size, if given, is below 64
    /// (`page`). The type index of a function or a tag may refer to no type, or to a type that is not a function type.
    pub fn ty(&self) -> ExternType
        ensures is { extern_view result ≡ self.now.value.type }
        ensures page { HasPageExponent result }
    {
        self.ty
    }
}

/// Reads the content of an import section. On `Ok`, the result is the value that the grammar gives for all
/// remaining bytes.
///
/// # Errors
///
/// - `Malformed` if the bytes do not encode a list of imports and nothing after it, with a place as
///   [`Error::Malformed`](wasmprinter_bytes::Error::Malformed) describes it.
/// - `Memory` if an allocation fails, which happens only if the bytes begin with a count above zero.
pub fn read_imports<'a>(alloc: Global, cursor: &mut Cursor<'a>) -> Result<Vec<Import<'a>>, Error>
    ensures { DecodesContent ImportSection (λ v. v.items) cursor.old result }
{
    let imports = read_list(alloc, cursor)?;
    expect_end(cursor)?;
    Ok(imports)
}
