//! A decoded module, with access to its items for code that prints it.
ghost use Rattle.std.specs.Prelude.{◌≡◌, ◌<◌, ◌^◌, length, Some, option_map, slice_get};
ghost use Rattle.wasmprinter_spec.specs.Types.{all_types, signature_at, fields_at};
ghost use Rattle.wasmprinter_spec.specs.Module.{groups_of};
ghost use Rattle.wasmprinter_decoder.specs.Externs.{kind_view, imported_count};
ghost use Rattle.wasmprinter_decoder.specs.Modules.{body_at};

use crate::code::Body;
use crate::custom_section_positions::CustomEntry;
use crate::data_segments::Data;
use crate::defined_function::Function;
use crate::elements::Element;
use crate::exports::{Export, ExternKind};
use crate::globals::Global;
use crate::imports::Import;
use crate::memories::Memory;
use crate::start::Start;
use crate::tables::Table;
use crate::tags::Tag;
use crate::type_section::{TypeGroup, Types};
use std::marker::Model;
use wasmprinter_ops::composite_types::FuncType;

/// A decoded module. Its names, expressions and data are slices of the bytes that were decoded. It is not validated:
/// an index in it may refer to nothing, or to an item of another kind than required.
#[derive(Drop)]
pub struct Module<'a> {
    pub(crate) types: Types<'a>,
    pub(crate) imports: Vec<Import<'a>>,
    pub(crate) type_indices: Vec<u32>,
    pub(crate) tables: Vec<Table<'a>>,
    pub(crate) memories: Vec<Memory>,
    pub(crate) tags: Vec<Tag>,
    pub(crate) globals: Vec<Global<'a>>,
    pub(crate) exports: Vec<Export<'a>>,
    pub(crate) start: Option<Start>,
    pub(crate) elements: Vec<Element<'a>>,
    pub(crate) bodies: Vec<Body<'a>>,
    pub(crate) data_segments: Vec<Data<'a>>,
    pub(crate) customs: Vec<CustomEntry<'a>>,
    pub(crate) size: u64,
}

impl<'a> Model for Module<'a> {
    ghost use Rattle.wasmprinter_spec.specs.Placed.{PlacedModule};
    ghost use Rattle.wasmprinter_decoder.specs.Modules.{functions_of, IsPaired, HasFewItems};

    ghost Value = { PlacedModule };

    ghost view = { λ m. record {
      types = m.types;
      imports = m.imports.items;
      tables = m.tables.items;
      memories = m.memories.items;
      tags = m.tags.items;
      globals = m.globals.items;
      exports = m.exports.items;
      start = m.start;
      elements = m.elements.items;
      functions = functions_of m.type_indices.items m.bodies.items;
      data_segments = m.data_segments.items;
      customs = m.customs.items;
      size = m.size;
    } };

    ghost invariant = { λ m.
        IsPaired m.type_indices.items m.bodies.items
        × HasFewItems m.imports.items m.tables.items m.memories.items m.tags.items m.globals.items };
}

impl<'a> Module<'a> {
    /// Returns the number of functions that the module defines. Imported functions are not counted.
    pub fn function_count(&self) -> u32
        ensures { result ≡ length self.now.functions }
    {
        self.bodies.len() as u32
    }

    /// Returns the body of the function with index `i` among the defined functions, or `None` if at most `i` functions
    /// are defined. Imported functions are not counted.
    pub fn body(&self, i: u32) -> Option<Body<'a>>
        ensures { result ≡ body_at self.now.functions i }
    {
        match self.bodies.get(i as usize) {
            Some(body) => Some(body.fork()),
            None => None,
        }
    }
}

/// The items of a module, for code that prints it.
pub trait Fields<'a> {
    ghost use Rattle.std.specs.Prelude.{ℕ};

    /// The module defines a function with this index among its defined functions.
    ghost defines: { Self → ℕ → Type 0 };

    /// Returns the function with this index among the defined functions. Imported functions are not counted. The
    /// module must define more than `number` functions ([`Module::function_count`]).
    fn function(&self, number: u32) -> Function<'a>
        requires { defines self.now number };

    /// Returns the groups of types. All their types together are fewer than 2^64 (`few`).
    fn types(&self) -> &[TypeGroup<'a>];

    /// Returns the function type with this index, or `None` if there is no such type or it is not a function type.
    /// Type indices run across recursive groups.
    ///
    /// The time is the same for every index, but the contract does not say so.
    fn signature(&self, index: u32) -> Option<FuncType<'a>>;

    /// Returns the number of fields of the structure type with this index, or `None` if there is no such type or
    /// it is not a structure type. Type indices run across recursive groups.
    ///
    /// The time is the same for every index, but the contract does not say so.
    fn field_count(&self, index: u32) -> Option<u32>;

    /// Returns the imports, fewer than 2^32 (`few`).
    fn imports(&self) -> &[Import<'a>];

    /// Returns the number of imports of this kind (`is`), which is below 2^32 (`few`).
    ///
    /// Each call goes through all imports, but the contract does not say so.
    fn imported_count(&self, kind: ExternKind) -> u64;

    /// Returns the tables that the module defines, fewer than 2^32 (`few`).
    fn tables(&self) -> &[Table<'a>];

    /// Returns the memories that the module defines, fewer than 2^32 (`few`).
    fn memories(&self) -> &[Memory];

    /// Returns the tags that the module defines, fewer than 2^32 (`few`).
    fn tags(&self) -> &[Tag];

    /// Returns the global variables that the module defines, fewer than 2^32 (`few`).
    fn globals(&self) -> &[Global<'a>];

    /// Returns the exports.
    fn exports(&self) -> &[Export<'a>];

    /// Returns the start function, or `None` if there is no start section.
    fn start(&self) -> Option<Start>;

    /// Returns the element segments.
    fn elements(&self) -> &[Element<'a>];

    /// Returns the data segments.
    fn data_segments(&self) -> &[Data<'a>];

    /// Returns the custom sections in order, each with its position: the kind of the last section before it that
    /// holds an item or the start function, if there is one. Custom sections are not items here.
    fn customs(&self) -> &[CustomEntry<'a>];

    /// Returns the size of the module in bytes.
    fn size(&self) -> u64;
}

impl<'a> Fields<'a> for Module<'a> {
    ghost defines = { λ m number. number < length m.functions };

    fn function(&self, number: u32) -> Function<'a>
        requires { number < length self.now.functions }
        ensures { slice_get self.now.functions number ≡ Some result }
    {
        Function {
            type_index: self.type_indices[number as usize],
            body: self.bodies[number as usize].fork(),
        }
    }

    fn types(&self) -> &[TypeGroup<'a>]
        ensures all { result.now ≡ self.now.types }
        ensures few { length (all_types (groups_of self.now.types)) < 2 ^ 64 }
    {
        self.types.groups()
    }

    fn signature(&self, index: u32) -> Option<FuncType<'a>>
        ensures { result ≡ signature_at (all_types (groups_of self.now.types)) index }
    {
        self.types.signature(index)
    }

    fn field_count(&self, index: u32) -> Option<u32>
        ensures { result ≡ option_map length (fields_at (all_types (groups_of self.now.types)) index) }
    {
        self.types.field_count(index)
    }

    fn imports(&self) -> &[Import<'a>]
        ensures all { result.now ≡ self.now.imports }
        ensures few { length self.now.imports < 2 ^ 32 }
    {
        &self.imports
    }

    fn imported_count(&self, kind: ExternKind) -> u64
        ensures is { result ≡ imported_count (kind_view kind) self.now.imports }
        ensures few { result < 2 ^ 32 }
    {
        let mut count = 0;
        for import in self.imports() {
            if import.is_of(kind) {
                count += 1;
            }
        }
        count
    }

    fn tables(&self) -> &[Table<'a>]
        ensures all { result.now ≡ self.now.tables }
        ensures few { length self.now.tables < 2 ^ 32 }
    {
        &self.tables
    }

    fn memories(&self) -> &[Memory]
        ensures all { result.now ≡ self.now.memories }
        ensures few { length self.now.memories < 2 ^ 32 }
    {
        &self.memories
    }

    fn tags(&self) -> &[Tag]
        ensures all { result.now ≡ self.now.tags }
        ensures few { length self.now.tags < 2 ^ 32 }
    {
        &self.tags
    }

    fn globals(&self) -> &[Global<'a>]
        ensures all { result.now ≡ self.now.globals }
        ensures few { length self.now.globals < 2 ^ 32 }
    {
        &self.globals
    }

    fn exports(&self) -> &[Export<'a>]
        ensures { result.now ≡ self.now.exports }
    {
        &self.exports
    }

    fn start(&self) -> Option<Start>
        ensures { result ≡ self.now.start }
    {
        self.start
    }

    fn elements(&self) -> &[Element<'a>]
        ensures { result.now ≡ self.now.elements }
    {
        &self.elements
    }

    fn data_segments(&self) -> &[Data<'a>]
        ensures { result.now ≡ self.now.data_segments }
    {
        &self.data_segments
    }

    fn customs(&self) -> &[CustomEntry<'a>]
        ensures { result.now ≡ self.now.customs }
    {
        &self.customs
    }

    fn size(&self) -> u64
        ensures { result ≡ self.now.size }
    {
        self.size
    }
}
