//! The nesting depths of annotations of custom sections.

/// The nesting depth of the annotation of a section.
pub(crate) const SECTION_NESTING: u64 = 1;

/// The nesting depth of the lines within an annotation.
pub(crate) const LINE_NESTING: u64 = 2;
