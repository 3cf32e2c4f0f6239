//! The ids of sections (section 5.5 of the WebAssembly Core Specification, "Sections").

/// The id of custom sections.
pub(crate) const CUSTOM: u8 = 0;

/// The id of the type section.
pub(crate) const TYPE: u8 = 1;

/// The id of the import section.
pub(crate) const IMPORT: u8 = 2;

/// The id of the function section.
pub(crate) const FUNCTION: u8 = 3;

/// The id of the table section.
pub(crate) const TABLE: u8 = 4;

/// The id of the memory section.
pub(crate) const MEMORY: u8 = 5;

/// The id of the global section.
pub(crate) const GLOBAL: u8 = 6;

/// The id of the export section.
pub(crate) const EXPORT: u8 = 7;

/// The id of the start section.
pub(crate) const START: u8 = 8;

/// The id of the element section.
pub(crate) const ELEMENT: u8 = 9;

/// The id of the code section.
pub(crate) const CODE: u8 = 10;

/// The id of the data section.
pub(crate) const DATA: u8 = 11;

/// The id of the data count section.
pub(crate) const DATA_COUNT: u8 = 12;

/// The id of the tag section.
pub(crate) const TAG: u8 = 13;
