//! The index spaces whose items can have names.
ghost use Rattle.std.specs.Prelude.{◌≡◌};

use crate::name_subsection_ids;

/// An index space whose items can have names. The name of the module itself is in none of them.
#[derive(Clone, Copy, Debug, PartialEq, Eq)]
pub enum Space {
    /// Functions, imports first.
    Func,
    /// Parameters and locals of a function.
    Local,
    /// The blocks of a function, in the order in which they are opened.
    Label,
    /// Types.
    Types,
    /// Tables, imports first.
    Table,
    /// Memories, imports first.
    Memory,
    /// Globals, imports first.
    Global,
    /// Element segments.
    Elem,
    /// Data segments.
    Data,
    /// Fields of a structure type.
    Field,
    /// Tags, imports first.
    Tag,
}

impl Space {
    ghost use Rattle.wasmprinter_spec.specs.Names.Section.{is_indirect};
    ghost use Rattle.wasmprinter_spec.specs.Names.Content.{group_of};
    ghost use Rattle.wasmprinter_custom.specs.Spaces.{id_of};

    /// Returns the id of the subsection that names these items.
    pub(crate) fn subsection(self) -> u8
        ensures { result ≡ id_of self }
    {
        match self {
            Space::Func => name_subsection_ids::FUNCTION,
            Space::Local => name_subsection_ids::LOCAL,
            Space::Label => name_subsection_ids::LABEL,
            Space::Types => name_subsection_ids::TYPE,
            Space::Table => name_subsection_ids::TABLE,
            Space::Memory => name_subsection_ids::MEMORY,
            Space::Global => name_subsection_ids::GLOBAL,
            Space::Elem => name_subsection_ids::ELEM,
            Space::Data => name_subsection_ids::DATA,
            Space::Field => name_subsection_ids::FIELD,
            Space::Tag => name_subsection_ids::TAG,
        }
    }

    /// Reports whether the items are numbered within a function or a type.
    pub(crate) fn is_indirect(self) -> bool
        ensures { result ≡ is_indirect (id_of self) }
    {
        matches!(self, Space::Local | Space::Label | Space::Field)
    }

    /// Returns the word for the items, which occurs in synthesized identifiers.
    pub fn word(self) -> &'static str
        ensures { result.now ≡ group_of (id_of self) }
    {
        name_subsection_ids::group(self.subsection())
    }
}
