//! The `dylink.0` section (tool conventions, "Dynamic Linking"): subsections, each with an id, a
//! size and that many bytes.
ghost use Rattle.std.specs.Prelude.{◌≡◌, IfOk};
ghost use Rattle.wasmprinter_spec.specs.Customs.Dylink.{mem_info, export_info, import_info, content_by_id};
ghost use Rattle.wasmprinter_spec.specs.Customs.Dylink.{is_known, subsection, judgement_of};
ghost use Rattle.wasmprinter_bytes.specs.Reads.{Reads};
ghost use Rattle.wasmprinter_custom.specs.Contents.{content_view};
ghost use Rattle.wasmprinter_custom.specs.Flags.{bits_of};
ghost use Rattle.wasmprinter_custom.specs.Judgements.{found_view, HasKnownId, judgement_view};

use crate::dylink_name_list::DylinkNames;
use crate::lazy_borrowing_items::{ItemsIn, ReadFrom};
use crate::symbol_flags::SymbolFlags;
use bitflags::Flags;
use std::marker::Model;
use wasmprinter_bytes::Malformed;
use wasmprinter_bytes::cursor::Cursor;

/// The id of the subsection `MemInfo`.
const MEM_INFO: u8 = 1;

/// The id of the subsection with the names of libraries.
const NEEDED: u8 = 2;

/// The id of the subsection with exports.
const EXPORT_INFO: u8 = 3;

/// The id of the subsection with imports.
const IMPORT_INFO: u8 = 4;

/// The id of the subsection with paths.
const RUNTIME_PATH: u8 = 5;

/// The memory and table elements that a module requires.
#[derive(Drop)]
pub struct MemInfo {
    memory_size: u32,
    memory_alignment: u32,
    table_size: u32,
    table_alignment: u32,
}

impl Model for MemInfo {
    ghost use Rattle.wasmprinter_spec.specs.Customs.Dylink.{MemInfo as MemInfoValue};

    ghost Value = { MemInfoValue };

    ghost view = { λ m. record {
      memory_size = m.memory_size;
      memory_alignment = m.memory_alignment;
      table_size = m.table_size;
      table_alignment = m.table_alignment;
    } };
}

impl MemInfo {
    /// Reads a size and an alignment for the memory, then for the table.
    fn read(cursor: &mut Cursor) -> Result<Self, Malformed>
        ensures { Reads (λ m. m) mem_info.parse cursor.old result cursor.new }
    {
        let memory_size = cursor.u32()?;
        let memory_alignment = cursor.u32()?;
        let table_size = cursor.u32()?;
        let table_alignment = cursor.u32()?;
        Ok(MemInfo {
            memory_size,
            memory_alignment,
            table_size,
            table_alignment,
        })
    }

    /// Returns the required memory size in bytes.
    pub fn memory_size(&self) -> u32
        ensures { result ≡ self.now.memory_size }
    {
        self.memory_size
    }

    /// Returns the exponent `n` of the memory alignment: the memory must be aligned to 2^n bytes. `n` may be any `u32`.
    pub fn memory_alignment(&self) -> u32
        ensures { result ≡ self.now.memory_alignment }
    {
        self.memory_alignment
    }

    /// Returns the required number of table elements.
    pub fn table_size(&self) -> u32
        ensures { result ≡ self.now.table_size }
    {
        self.table_size
    }

    /// Returns the exponent `n` of the table alignment: the table must be aligned to 2^n elements.
    /// `n` may be any `u32`.
    pub fn table_alignment(&self) -> u32
        ensures { result ≡ self.now.table_alignment }
    {
        self.table_alignment
    }
}

/// An export with its flags.
#[derive(Drop)]
pub struct ExportInfo<'a> {
    name: &'a str,
    flags: u32,
}

impl<'a> Model for ExportInfo<'a> {
    ghost use Rattle.wasmprinter_spec.specs.Customs.Dylink.{ExportInfo as ExportInfoValue};

    ghost Value = { ExportInfoValue };

    ghost view = { λ e. record { name = e.name.now; flags = e.flags } };
}

impl<'a> ReadFrom for ExportInfo<'a> {
    type Source = Cursor<'a>;

    ghost parse = { export_info.parse };

    fn read(cursor: &mut Cursor<'a>) -> Result<ExportInfo<'a>, Malformed> {
        let name = cursor.name()?;
        let flags = cursor.u32()?;
        Ok(ExportInfo { name, flags })
    }
}

impl<'a> ExportInfo<'a> {
    /// Returns the name of the export.
    pub fn name(&self) -> &'a str
        ensures { result.now ≡ self.now.name }
    {
        self.name
    }

    /// Returns the flags of the export, including bits that belong to no known flag.
    pub fn flags(&self) -> SymbolFlags
        ensures { bits_of result ≡ self.now.flags }
    {
        SymbolFlags::from_bits_retain(self.flags)
    }
}

/// An import with its flags.
#[derive(Drop)]
pub struct ImportInfo<'a> {
    source: &'a str,
    name: &'a str,
    flags: u32,
}

impl<'a> Model for ImportInfo<'a> {
    ghost use Rattle.wasmprinter_spec.specs.Customs.Dylink.{ImportInfo as ImportInfoValue};

    ghost Value = { ImportInfoValue };

    ghost view = { λ i. record { source = i.source.now; name = i.name.now; flags = i.flags } };
}

impl<'a> ReadFrom for ImportInfo<'a> {
    type Source = Cursor<'a>;

    ghost parse = { import_info.parse };

    fn read(cursor: &mut Cursor<'a>) -> Result<ImportInfo<'a>, Malformed> {
        let source = cursor.name()?;
        let name = cursor.name()?;
        let flags = cursor.u32()?;
        Ok(ImportInfo {
            source,
            name,
            flags,
        })
    }
}

impl<'a> ImportInfo<'a> {
    /// Returns the name of the module that the import comes from.
    pub fn source(&self) -> &'a str
        ensures { result.now ≡ self.now.source }
    {
        self.source
    }

    /// Returns the name of the import in that module.
    pub fn name(&self) -> &'a str
        ensures { result.now ≡ self.now.name }
    {
        self.name
    }

    /// Returns the flags of the import, including bits that belong to no known flag.
    pub fn flags(&self) -> SymbolFlags
        ensures { bits_of result ≡ self.now.flags }
    {
        SymbolFlags::from_bits_retain(self.flags)
    }
}

/// The content of a subsection.
#[derive(Drop)]
pub enum Content<'a> {
    /// The memory and table elements that the module requires.
    MemInfo(MemInfo),
    /// The names of the libraries that the module needs.
    Needed(DylinkNames<'a>),
    /// Exports with their flags.
    Exports(ItemsIn<ExportInfo<'a>>),
    /// Imports with their flags.
    Imports(ItemsIn<ImportInfo<'a>>),
    /// The paths at which libraries are searched.
    RuntimePath(DylinkNames<'a>),
}

/// A subsection with the place of its id.
#[derive(Drop)]
pub struct Subsection<'a> {
    place: u64,
    content: Content<'a>,
}

impl<'a> Model for Subsection<'a> {
    ghost use Rattle.wasmprinter_spec.specs.Customs.Dylink.{Subsection as SubsectionValue};
    ghost use Rattle.wasmprinter_custom.specs.Contents.{content_view};

    ghost Value = { SubsectionValue };

    ghost view = { λ s. record { place = s.place; value = content_view s.content } };
}

/// Reports whether the id is known.
fn is_known(id: u8) -> bool
    ensures { result ≡ is_known id }
{
    matches!(
        id,
        MEM_INFO | NEEDED | EXPORT_INFO | IMPORT_INFO | RUNTIME_PATH
    )
}

impl<'a> Content<'a> {
    /// Reads the content of a subsection with a known id.
    fn read(id: u8, cursor: &mut Cursor<'a>) -> Result<Self, Malformed>
        ensures { Reads content_view (content_by_id id).parse cursor.old result cursor.new }
    {
        match id {
            MEM_INFO => Ok(Content::MemInfo(MemInfo::read(cursor)?)),
            NEEDED => Ok(Content::Needed(DylinkNames::read(cursor)?)),
            EXPORT_INFO => Ok(Content::Exports(ItemsIn::read(cursor)?)),
            IMPORT_INFO => Ok(Content::Imports(ItemsIn::read(cursor)?)),
            _ => Ok(Content::RuntimePath(DylinkNames::read(cursor)?)),
        }
    }
}

/// The next subsection, whose id is known or not.
#[derive(Drop)]
enum Found<'a> {
    /// A subsection with a known id.
    Known(Subsection<'a>),
    /// The place and the id of a subsection with an unknown id.
    Other { place: u64, id: u8 },
}

impl<'a> Found<'a> {
    /// Reads an id, a size and that many bytes. If the id is known and bytes remain after the content, returns
    /// `Malformed` with the place of the id.
    fn read(cursor: &mut Cursor<'a>) -> Result<Self, Malformed>
        ensures reads { Reads found_view subsection.parse cursor.old result cursor.new }
        ensures known { IfOk result HasKnownId }
    {
        let place = cursor.place();
        let id = cursor.u8()?;
        let size = cursor.u32()?;
        let mut part = cursor.part(size as usize)?;
        if !is_known(id) {
            return Ok(Found::Other { place, id });
        }
        let content = Content::read(id, &mut part)?;
        if !part.is_empty() {
            return Err(Malformed { place });
        }
        Ok(Found::Known(Subsection { place, content }))
    }
}

impl<'a> Subsection<'a> {
    /// Returns the place of the id: a byte offset from the start of the module.
    pub fn place(&self) -> u64
        ensures { result ≡ self.now.place }
    {
        self.place
    }

    /// Returns the content.
    pub fn content(&self) -> &Content<'a>
        ensures { content_view result.now ≡ self.now.value }
    {
        &self.content
    }
}

/// The subsections of a well-formed section in which each id is known.
#[derive(Drop)]
pub struct Dylink<'a> {
    cursor: Cursor<'a>,
}

impl<'a> Model for Dylink<'a> {
    ghost use Rattle.std.specs.Prelude.{List};
    ghost use Rattle.wasmprinter_spec.specs.Customs.Dylink.{Subsection as SubsectionValue, judgement_of};
    ghost use Rattle.wasmprinter_custom.specs.Sound.{subsections_in, IsFaultless};

    ghost Value = { List SubsectionValue };

    ghost view = { λ d. subsections_in (judgement_of d.cursor) };

    ghost invariant = { λ d. IsFaultless (judgement_of d.cursor) };
}

impl<'a> Dylink<'a> {
    /// Returns the subsections in order.
    /// They are those that are left, without those that `next` has returned.
    pub fn iter(&self) -> Dylink<'a>
        ensures { result ≡ self.now }
    {
        Dylink {
            cursor: self.cursor.fork(),
        }
    }
}

impl<'a> Iterator for Dylink<'a> {
    ghost use Rattle.std.specs.Iterator.{YieldsFirst, item_count};

    type Item = Subsection<'a>;

    ghost next_gives = { YieldsFirst (λ subsections. subsections) };

    ghost remaining = { item_count (λ subsections. subsections) };

    fn next(&mut self) -> Option<Subsection<'a>> {
        if self.cursor.is_empty() {
            return None;
        }
        match Found::read(&mut self.cursor) {
            Ok(Found::Known(subsection)) => Some(subsection),
            _ => unreachable!(),
        }
    }
}

/// The result of checking a section. The first subsection with an unknown id, or the first error, decides.
#[derive(Drop)]
pub(crate) enum DylinkContents<'a> {
    /// A well-formed section: each subsection has a known id.
    Whole(Dylink<'a>),
    /// The first unknown id, with no error before it.
    Unknown(u8),
    /// An error, with no unknown id before it.
    Faulty,
}

impl<'a> DylinkContents<'a> {
    /// Reads the content of a section after its name, and returns whether it is well formed: its subsections, the first
    /// unknown id, or that there is an error before any unknown id.
    pub(crate) fn of(section: Cursor<'a>) -> Self
        ensures { judgement_view result ≡ judgement_of section.entry }
    {
        let mut cursor = section.fork();
        'subsections: while !cursor.is_empty() {
            let Ok(found) = Found::read(&mut cursor) else {
                return DylinkContents::Faulty;
            };
            if let Found::Other { id, .. } = found {
                return DylinkContents::Unknown(id);
            }
        }
        DylinkContents::Whole(Dylink { cursor: section })
    }
}
