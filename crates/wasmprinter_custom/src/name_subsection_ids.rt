//! The subsections of a name section, by their ids.
ghost use Rattle.std.specs.Prelude.{◌≡◌};
ghost use Rattle.wasmprinter_spec.specs.Names.Content.{group_of, is_counted};

/// The name of the module.
pub(crate) const MODULE: u8 = 0;

/// The names of functions.
pub(crate) const FUNCTION: u8 = 1;

/// The names of parameters and locals, function by function.
pub(crate) const LOCAL: u8 = 2;

/// The names of labels, function by function.
pub(crate) const LABEL: u8 = 3;

/// The names of types.
pub(crate) const TYPE: u8 = 4;

/// The names of tables.
pub(crate) const TABLE: u8 = 5;

/// The names of memories.
pub(crate) const MEMORY: u8 = 6;

/// The names of globals.
pub(crate) const GLOBAL: u8 = 7;

/// The names of element segments.
pub(crate) const ELEM: u8 = 8;

/// The names of data segments.
pub(crate) const DATA: u8 = 9;

/// The names of the fields of structures, type by type.
pub(crate) const FIELD: u8 = 10;

/// The names of tags.
pub(crate) const TAG: u8 = 11;

/// Returns the word for the items that a subsection names.
pub(crate) fn group(subsection: u8) -> &'static str
    ensures { result.now ≡ group_of subsection }
{
    match subsection {
        MODULE => "module",
        FUNCTION => "func",
        LOCAL => "local",
        LABEL => "label",
        TYPE => "type",
        TABLE => "table",
        MEMORY => "memory",
        GLOBAL => "global",
        ELEM => "elem",
        DATA => "data",
        FIELD => "field",
        _ => "tag",
    }
}

/// Reports whether names of the subsection count as given: no two items of a space get the same identifier.
pub(crate) fn is_counted(subsection: u8) -> bool
    ensures { result ≡ is_counted subsection }
{
    !matches!(subsection, MODULE | LABEL)
}
