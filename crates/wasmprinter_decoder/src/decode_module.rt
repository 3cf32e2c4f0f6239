//! Decoding a module: a preamble, then sections up to the end of the bytes (section 5.5, "Modules").
ghost use Rattle.std.specs.Prelude.{◌≡◌, ◌↔◌, length, IsTrue, IsOk, IfOk, IfErr, OnOk, IsErrOf, IsOkUnless};
ghost use Rattle.wasmprinter_spec.specs.Placed.{PlacedModule};
ghost use Rattle.wasmprinter_spec.specs.Binary.{Spells, IsComponent, preamble, preamble_bytes, counts_data};
ghost use Rattle.wasmprinter_spec.specs.Sections.{CustomSection, section_kind, rank, follows};
ghost use Rattle.wasmprinter_spec.specs.Limits.{IsWithinLimits};
ghost use Rattle.wasmprinter_bytes.specs.Reads.{Decodes};
ghost use Rattle.wasmprinter_decoder.specs.Sections.{section_view};
ghost use Rattle.wasmprinter_decoder.specs.Gathering.{none_gathered, with_section, IsWhole, TakesSections};
ghost use Rattle.wasmprinter_decoder.specs.Decoding.{HasDecodingReason, HoldsNothing, TakesModule};

use crate::code::Body;
use crate::custom_section_positions::{CustomEntry, SectionKind};
use crate::data_segments::Data;
use crate::elements::Element;
use crate::exports::Export;
use crate::globals::Global as GlobalVariable;
use crate::imports::Import;
use crate::memories::Memory;
use crate::module::Module;
use crate::sections::Section;
use crate::start::Start;
use crate::tables::Table;
use crate::tags::Tag;
use crate::type_section::Types;
use std::alloc::{AllocError, Global};
use std::marker::Model;
use wasmprinter_bytes::cursor::Cursor;
use wasmprinter_bytes::{Error, Malformed};

/// The preamble: the magic number and the version.
const PREAMBLE: [u8; 8] = [0x00, 0x61, 0x73, 0x6d, 0x01, 0x00, 0x00, 0x00];

/// Reports whether the bytes are marked as a component: whether they begin with the magic number, any two bytes, and
/// the bytes 01 00. [`decode`] then returns `Error::Component`.
pub fn is_component(wasm: &[u8]) -> bool
    ensures { IsTrue result ↔ IsComponent wasm.now }
{
    matches!(wasm, [0x00, 0x61, 0x73, 0x6d, _, _, 0x01, 0x00, ..])
}

/// Reads the preamble. Any other bytes are malformed at their first byte.
fn read_preamble(cursor: &mut Cursor) -> Result<(), Malformed>
    ensures { Decodes (λ _. preamble_bytes) preamble.parse cursor.old result cursor.new }
{
    let place = cursor.place();
    let bytes = cursor.take(PREAMBLE.len())?;
    if bytes == PREAMBLE.as_slice() {
        Ok(())
    } else {
        Err(Malformed { place })
    }
}

/// The contents of the sections read so far.
#[derive(Drop)]
struct Gathered<'a> {
    /// The rank of the last section that is not a custom section, 0 before the first.
    rank: u8,
    /// The position of the next custom section: the kind of the last section before it that holds an item or the
    /// start function.
    after: Option<SectionKind>,
    types: Types<'a>,
    imports: Vec<Import<'a>>,
    type_indices: Vec<u32>,
    tables: Vec<Table<'a>>,
    memories: Vec<Memory>,
    tags: Vec<Tag>,
    globals: Vec<GlobalVariable<'a>>,
    exports: Vec<Export<'a>>,
    start: Option<Start>,
    elements: Vec<Element<'a>>,
    data_count: Option<u32>,
    bodies: Vec<Body<'a>>,
    data_segments: Vec<Data<'a>>,
    customs: Vec<CustomEntry<'a>>,
}

impl<'a> Model for Gathered<'a> {
    ghost use Rattle.wasmprinter_decoder.specs.Places.{after_view};
    ghost use Rattle.wasmprinter_decoder.specs.Gathering.{Gathered as GatheredValue};

    ghost Value = { GatheredValue };

    ghost view = { λ g. record {
      rank = g.rank;
      after = after_view g.after;
      types = g.types;
      imports = g.imports.items;
      type_indices = g.type_indices.items;
      tables = g.tables.items;
      memories = g.memories.items;
      tags = g.tags.items;
      globals = g.globals.items;
      exports = g.exports.items;
      start = g.start;
      elements = g.elements.items;
      data_count = g.data_count;
      bodies = g.bodies.items;
      data_segments = g.data_segments.items;
      customs = g.customs.items;
    } };
}

impl<'a> Gathered<'a> {
    /// Returns the state before the first section.
    fn new(alloc: Global) -> Self
        ensures { result ≡ none_gathered }
    {
        Gathered {
            rank: 0,
            after: None,
            types: Types::new(alloc),
            imports: Vec::new(alloc),
            type_indices: Vec::new(alloc),
            tables: Vec::new(alloc),
            memories: Vec::new(alloc),
            tags: Vec::new(alloc),
            globals: Vec::new(alloc),
            exports: Vec::new(alloc),
            start: None,
            elements: Vec::new(alloc),
            data_count: None,
            bodies: Vec::new(alloc),
            data_segments: Vec::new(alloc),
            customs: Vec::new(alloc),
        }
    }

    /// Reports whether the section may follow the sections read so far.
    fn may_precede(&self, section: &Section) -> bool
        ensures { result ≡ follows self.now.rank (rank (section_kind (section_view section.now))) }
    {
        match section.rank() {
            Some(rank) => self.rank < rank,
            None => true,
        }
    }

    /// Stores the content of a section. Only a custom section needs an allocation.
    #[tactic(auto, using(crate::proofs::OrderedSections::kind_joined))]
    fn add(&mut self, section: Section<'a>) -> Result<(), AllocError>
        ensures added { OnOk result (self.new ≡ with_section self.old (section_view section.entry)) }
        ensures needed { IfErr result (λ _. section_kind (section_view section.entry) ≡ CustomSection) }
    {
        self.rank = section.rank().unwrap_or(self.rank);
        self.after = section.kind_with_fields().or(self.after);
        match section {
            Section::Custom(section) => self.customs.push(CustomEntry {
                after: self.after,
                section,
            })?,
            Section::Types(types) => self.types.replace(types),
            Section::Imports(imports) => self.imports = imports,
            Section::Functions(type_indices) => self.type_indices = type_indices,
            Section::Tables(tables) => self.tables = tables,
            Section::Memories(memories) => self.memories = memories,
            Section::Tags(tags) => self.tags = tags,
            Section::Globals(globals) => self.globals = globals,
            Section::Exports(exports) => self.exports = exports,
            Section::Start(start) => self.start = Some(start),
            Section::Elements(elements) => self.elements = elements,
            Section::DataCount(count) => self.data_count = Some(count),
            Section::Code(bodies) => self.bodies = bodies,
            Section::Data(data_segments) => self.data_segments = data_segments,
        }
        Ok(())
    }

    /// Reports whether the data count, if there is one, is the number of data segments.
    fn counts_data(&self) -> bool
        ensures { result ≡ counts_data self.now.data_count (length self.now.data_segments) }
    {
        match self.data_count {
            Some(count) => count as usize == self.data_segments.len(),
            None => true,
        }
    }

    /// Reports whether there are as many bodies as type indices, and as many data segments as the data count says.
    fn is_whole(&self) -> bool
        ensures { IsTrue result ↔ IsWhole self.now }
    {
        self.type_indices.len() == self.bodies.len() && self.counts_data()
    }

    /// Reads sections up to the end of the bytes.
    fn read(alloc: Global, cursor: &mut Cursor<'a>) -> Result<Self, Error>
        ensures { TakesSections cursor.old result }
    {
        let mut gathered = Gathered::new(alloc);
        'sections: while !cursor.is_empty() {
            let place = cursor.place();
            let section = Section::read(alloc, cursor)?;
            if !gathered.may_precede(&section) {
                return Err(Error::Malformed { place });
            }
            gathered.add(section)?;
        }
        Ok(gathered)
    }
}

/// Reads the preamble and the sections, and assembles the module.
fn read_module<'a>(alloc: Global, wasm: &'a [u8]) -> Result<Module<'a>, Error>
    ensures { TakesModule wasm.now result }
{
    let mut cursor = Cursor::new(0, wasm);
    read_preamble(&mut cursor)?;
    let gathered = Gathered::read(alloc, &mut cursor)?;
    let size = wasm.len() as u64;
    if !gathered.is_whole() {
        return Err(Error::Malformed { place: size });
    }
    Ok(Module {
        types: gathered.types,
        imports: gathered.imports,
        type_indices: gathered.type_indices,
        tables: gathered.tables,
        memories: gathered.memories,
        tags: gathered.tags,
        globals: gathered.globals,
        exports: gathered.exports,
        start: gathered.start,
        elements: gathered.elements,
        bodies: gathered.bodies,
        data_segments: gathered.data_segments,
        customs: gathered.customs,
        size,
    })
}

/// Decodes a module. On `Ok`, the bytes encode the module, and it is within the limits: at most 50,000 locals in a
/// function, not counting parameters, at most 1,000,000 defined functions, and no table with an empty initialiser
/// (`ok`).
///
/// # Errors
///
/// Each error has the cause that is listed here (`refused`); of `Memory`, the contract says only when an allocation is
/// possible.
///
/// - `Component` exactly if the bytes are marked as a component, as [`is_component`] reports (`component`).
/// - `Malformed` if the bytes do not encode a module. The contract says of the place only that it is at most the
///   number of bytes.
/// - `TooManyLocals` if a function has too many locals. The place is that of the first such body.
/// - `TooManyFunctions` if the module defines too many functions. The count is that of the functions.
/// - `EmptyTableInit` if a table has an empty initialiser. The place is that of the first such table.
/// - `Memory` if an allocation failed. This can happen only if the bytes contain a section of items with a count
///   above zero, or a custom section.
///
/// If several errors other than `Component` apply, any of them may be returned. If the bytes encode no module, the
/// contract says of the three errors before `Memory` only that the bytes contain such a list of locals or such a table
/// at the place, or the start of a function section with that count anywhere.
///
/// If the bytes encode a module within the limits, only `Memory` is possible (`within`). A module without items and
/// custom sections is always decoded (`empty`).
pub fn decode<'a>(alloc: Global, wasm: &'a [u8]) -> Result<Module<'a>, Error>
    ensures ok { IfOk result (λ m. Spells wasm.now m × IsWithinLimits m) }
    ensures refused { IfErr result (HasDecodingReason wasm.now) }
    ensures component { IsErrOf result Error.Component ↔ IsComponent wasm.now }

    // If the bytes encode a module within the limits, the only possible error is `Memory`.
    ensures within { (m : PlacedModule) → Spells wasm.now m → IsWithinLimits m → IsOkUnless result Error.Memory }

    // If the bytes encode a module without items and custom sections, decoding succeeds.
    ensures empty { (m : PlacedModule) → Spells wasm.now m → HoldsNothing m → IsOk result }
{
    if is_component(wasm) {
        return Err(Error::Component);
    }
    read_module(alloc, wasm)
}
