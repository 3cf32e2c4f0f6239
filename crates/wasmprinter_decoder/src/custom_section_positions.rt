//! The positions of custom sections among the other sections (section 5.5, "Modules").

use crate::custom_sections::Custom;
use std::marker::Model;

/// The kind of a section after which custom sections can occur.
#[derive(Clone, Copy, Debug, PartialEq, Eq)]
pub enum SectionKind {
    /// Types.
    Type,
    /// Imports.
    Import,
    /// The type indices of functions.
    Function,
    /// Tables.
    Table,
    /// Memories.
    Memory,
    /// Tags.
    Tag,
    /// Globals.
    Global,
    /// Exports.
    Export,
    /// The start function.
    Start,
    /// Element segments.
    Element,
    /// The bodies of functions.
    Code,
    /// Data segments.
    Data,
}

/// A custom section and its position.
#[derive(Drop)]
pub struct CustomEntry<'a> {
    /// The kind of the last section before it that holds an item or the start function, or `None` if there is none.
    /// Custom sections are not items here.
    pub after: Option<SectionKind>,
    /// The custom section.
    pub section: Custom<'a>,
}

impl<'a> Model for CustomEntry<'a> {
    ghost use Rattle.wasmprinter_spec.specs.Placed.{CustomEntry as CustomEntryValue, custom_entry};
    ghost use Rattle.wasmprinter_decoder.specs.Places.{after_view};

    ghost Value = { CustomEntryValue };

    ghost view = { λ e. custom_entry (after_view e.after) e.section };
}
