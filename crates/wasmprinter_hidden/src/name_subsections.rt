//! The subsections of a name section by their ids (appendix "Name Section" of the WebAssembly Core Specification, and the
//! extended name section proposal).
ghost use Rattle.std.specs.Prelude.{◌≡◌, ◌<◌, ◌≤◌, MatchOption, false};
ghost use Rattle.wasmprinter_spec.specs.Names.Section.{is_indirect, tag_subsection};
ghost use Rattle.wasmprinter_custom.specs.Spaces.{id_of};
ghost use Rattle.wasmprinter_hidden.specs.NamedItems.{inner_id, kind_id};

use wasmprinter_custom::Space;

/// The name of the module.
pub(crate) const MODULE: u8 = 0;

/// The names of functions.
const FUNCTION: u8 = 1;

/// The names of parameters and locals, function by function.
const LOCAL: u8 = 2;

/// The names of labels, function by function.
const LABEL: u8 = 3;

/// The names of types.
const TYPE: u8 = 4;

/// The names of tables.
const TABLE: u8 = 5;

/// The names of memories.
const MEMORY: u8 = 6;

/// The names of globals.
const GLOBAL: u8 = 7;

/// The names of element segments.
const ELEM: u8 = 8;

/// The names of data segments.
const DATA: u8 = 9;

/// The names of the fields of structures, type by type.
const FIELD: u8 = 10;

/// The names of tags. This is the last known id.
const TAG: u8 = 11;

/// What a subsection names.
#[derive(Clone, Copy)]
pub(crate) enum NamedKind {
    /// The module.
    Module,
    /// Items of an index space.
    Items(Space),
}

/// An index space of a function or type.
#[derive(Clone, Copy)]
pub(crate) enum InnerSpace {
    /// Parameters and locals of a function.
    Local,
    /// The blocks of a function.
    Label,
    /// Fields of a structure type.
    Field,
}

/// Returns what the subsection with this id names, or `None` if the id is unknown.
pub(crate) fn kind_of_subsection(id: u8) -> Option<NamedKind>
    ensures { MatchOption result (tag_subsection < id) (λ kind. (kind_id kind ≡ id) × (id ≤ tag_subsection)) }
{
    match id {
        MODULE => Some(NamedKind::Module),
        FUNCTION => Some(NamedKind::Items(Space::Func)),
        LOCAL => Some(NamedKind::Items(Space::Local)),
        LABEL => Some(NamedKind::Items(Space::Label)),
        TYPE => Some(NamedKind::Items(Space::Types)),
        TABLE => Some(NamedKind::Items(Space::Table)),
        MEMORY => Some(NamedKind::Items(Space::Memory)),
        GLOBAL => Some(NamedKind::Items(Space::Global)),
        ELEM => Some(NamedKind::Items(Space::Elem)),
        DATA => Some(NamedKind::Items(Space::Data)),
        FIELD => Some(NamedKind::Items(Space::Field)),
        TAG => Some(NamedKind::Items(Space::Tag)),
        _ => None,
    }
}

/// Returns the space as one of a function or type, or `None` if it is a space of the module.
pub(crate) fn inner_space(space: Space) -> Option<InnerSpace>
    ensures { MatchOption result (is_indirect (id_of space) ≡ false) (λ inner. inner_id inner ≡ id_of space) }
{
    match space {
        Space::Local => Some(InnerSpace::Local),
        Space::Label => Some(InnerSpace::Label),
        Space::Field => Some(InnerSpace::Field),
        _ => None,
    }
}

impl InnerSpace {
    ghost use Rattle.std.specs.Prelude.{ℕ};
    ghost use Rattle.wasmprinter_custom.specs.Spaces.{outer_of};

    /// Returns the space as one of all index spaces.
    pub(crate) fn space(self) -> Space
        ensures id { id_of result ≡ inner_id self }
        ensures outer { (outer : ℕ) → outer_of result outer ≡ outer }
    {
        match self {
            InnerSpace::Local => Space::Local,
            InnerSpace::Label => Space::Label,
            InnerSpace::Field => Space::Field,
        }
    }
}
