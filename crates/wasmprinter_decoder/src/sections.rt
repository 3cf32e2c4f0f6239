//! Sections (section 5.5, "Sections"): an id, a size, and content of exactly that many bytes.
ghost use Rattle.std.specs.Prelude.{◌≡◌, ◌≤◌, None};
ghost use Rattle.wasmprinter_spec.specs.Sections.{kind_of, section_kind, rank, kind_after};
ghost use Rattle.wasmprinter_bytes.specs.Reads.{end_of};
ghost use Rattle.wasmprinter_decoder.specs.Places.{after_view};
ghost use Rattle.wasmprinter_decoder.specs.Sections.{section_view, TakesContent, TakesSection};

use crate::code::{Body, read_code};
use crate::custom_section_positions::SectionKind;
use crate::custom_sections::Custom;
use crate::data_segments::{Data, read_data, read_data_count};
use crate::elements::{Element, read_elements};
use crate::exports::{Export, read_exports};
use crate::function_section::read_functions;
use crate::globals::{Global as GlobalVariable, read_globals};
use crate::imports::{Import, read_imports};
use crate::memories::{Memory, read_memories};
use crate::start::{Start, read_start};
use crate::tables::{Table, read_tables};
use crate::tags::{Tag, read_tags};
use crate::type_section::Types;
use std::alloc::Global;
use wasmprinter_bytes::Error;
use wasmprinter_bytes::cursor::Cursor;

/// The id of custom sections.
const CUSTOM: u8 = 0;

/// The id of the type section.
const TYPE: u8 = 1;

/// The id of the import section.
const IMPORT: u8 = 2;

/// The id of the function section.
const FUNCTION: u8 = 3;

/// The id of the table section.
const TABLE: u8 = 4;

/// The id of the memory section.
const MEMORY: u8 = 5;

/// The id of the global section.
const GLOBAL: u8 = 6;

/// The id of the export section.
const EXPORT: u8 = 7;

/// The id of the start section.
const START: u8 = 8;

/// The id of the element section.
const ELEMENT: u8 = 9;

/// The id of the code section.
const CODE: u8 = 10;

/// The id of the data section.
const DATA: u8 = 11;

/// The id of the data count section, which comes before the code section.
const DATA_COUNT: u8 = 12;

/// The id of the tag section, which comes after the memory section.
const TAG: u8 = 13;

/// A section with its content.
#[derive(Drop)]
pub(crate) enum Section<'a> {
    /// A custom section.
    Custom(Custom<'a>),
    /// Types.
    Types(Types<'a>),
    /// Imports.
    Imports(Vec<Import<'a>>),
    /// The type index of each defined function.
    Functions(Vec<u32>),
    /// Tables.
    Tables(Vec<Table<'a>>),
    /// Memories.
    Memories(Vec<Memory>),
    /// Tags.
    Tags(Vec<Tag>),
    /// Global variables.
    Globals(Vec<GlobalVariable<'a>>),
    /// Exports.
    Exports(Vec<Export<'a>>),
    /// The start function.
    Start(Start),
    /// Element segments.
    Elements(Vec<Element<'a>>),
    /// The number of data segments.
    DataCount(u32),
    /// The bodies of the defined functions.
    Code(Vec<Body<'a>>),
    /// Data segments.
    Data(Vec<Data<'a>>),
}

/// Reads the content of a section with this id. An unknown id is malformed at `place`, the byte offset of the id.
fn read_content<'a>(
    alloc: Global,
    place: u64,
    id: u8,
    cursor: &mut Cursor<'a>,
) -> Result<Section<'a>, Error>
    ensures { TakesContent place (kind_of id) cursor.old result }
{
    match id {
        CUSTOM => Ok(Section::Custom(Custom::read(cursor)?)),
        TYPE => Ok(Section::Types(Types::read(alloc, cursor)?)),
        IMPORT => Ok(Section::Imports(read_imports(alloc, cursor)?)),
        FUNCTION => Ok(Section::Functions(read_functions(alloc, cursor)?)),
        TABLE => Ok(Section::Tables(read_tables(alloc, cursor)?)),
        MEMORY => Ok(Section::Memories(read_memories(alloc, cursor)?)),
        TAG => Ok(Section::Tags(read_tags(alloc, cursor)?)),
        GLOBAL => Ok(Section::Globals(read_globals(alloc, cursor)?)),
        EXPORT => Ok(Section::Exports(read_exports(alloc, cursor)?)),
        START => Ok(Section::Start(read_start(cursor)?)),
        ELEMENT => Ok(Section::Elements(read_elements(alloc, cursor)?)),
        DATA_COUNT => Ok(Section::DataCount(read_data_count(cursor)?)),
        CODE => Ok(Section::Code(read_code(alloc, cursor)?)),
        DATA => Ok(Section::Data(read_data(alloc, cursor)?)),
        _ => Err(Error::Malformed { place }),
    }
}

impl<'a> Section<'a> {
    /// Reads a section.
    pub(crate) fn read(alloc: Global, cursor: &mut Cursor<'a>) -> Result<Self, Error>
        ensures reads { TakesSection cursor.old result cursor.new }
        ensures end { end_of cursor.new ≡ end_of cursor.old }
        ensures forward { cursor.old.place ≤ cursor.new.place }
    {
        let place = cursor.place();
        let id = cursor.u8()?;
        let size = cursor.u32()?;
        let mut part = cursor.part(size as usize)?;
        read_content(alloc, place, id, &mut part)
    }

    /// Returns the rank of this kind of section in the prescribed order, or `None` for custom sections, which may
    /// occur anywhere.
    pub(crate) fn rank(&self) -> Option<u8>
        ensures { result ≡ rank (section_kind (section_view self.now)) }
    {
        match self {
            Section::Custom(_) => None,
            Section::Types(_) => Some(1),
            Section::Imports(_) => Some(2),
            Section::Functions(_) => Some(3),
            Section::Tables(_) => Some(4),
            Section::Memories(_) => Some(5),
            Section::Tags(_) => Some(6),
            Section::Globals(_) => Some(7),
            Section::Exports(_) => Some(8),
            Section::Start(_) => Some(9),
            Section::Elements(_) => Some(10),
            Section::DataCount(_) => Some(11),
            Section::Code(_) => Some(12),
            Section::Data(_) => Some(13),
        }
    }

    /// Returns the kind of this section if it has items or is a start section: custom sections that follow it are
    /// printed after that kind.
    pub(crate) fn kind_with_fields(&self) -> Option<SectionKind>
        ensures { after_view result ≡ kind_after None (section_view self.now) }
    {
        match self {
            Section::Types(types) => (!types.groups().is_empty()).then_some(SectionKind::Type),
            Section::Imports(imports) => (!imports.is_empty()).then_some(SectionKind::Import),
            Section::Functions(indices) => (!indices.is_empty()).then_some(SectionKind::Function),
            Section::Tables(tables) => (!tables.is_empty()).then_some(SectionKind::Table),
            Section::Memories(memories) => (!memories.is_empty()).then_some(SectionKind::Memory),
            Section::Tags(tags) => (!tags.is_empty()).then_some(SectionKind::Tag),
            Section::Globals(globals) => (!globals.is_empty()).then_some(SectionKind::Global),
            Section::Exports(exports) => (!exports.is_empty()).then_some(SectionKind::Export),
            Section::Start(_) => Some(SectionKind::Start),
            Section::Elements(elements) => (!elements.is_empty()).then_some(SectionKind::Element),
            Section::Code(bodies) => (!bodies.is_empty()).then_some(SectionKind::Code),
            Section::Data(data_segments) => (!data_segments.is_empty()).then_some(
                SectionKind::Data,
            ),
            Section::Custom(_) | Section::DataCount(_) => None,
        }
    }
}
