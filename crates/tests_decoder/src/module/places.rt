//! Tests of the positions of custom sections: each is the last section before it with a count above 0. The expected
//! places are typed by hand.

use crate::module::modules::{
    CODE, Compared, EXPORTS, Expected, FUNCTIONS, MEMORIES, START, TAGS, TYPES, are_all, are_as,
};
use std::alloc::Global;
use std::test::Fail;
use wasmprinter_decoder::{CustomEntry, Fields, Module, SectionKind};

/// A custom section named `n`.
const NOTE: &[u8] = b"\x00\x02\x01n";

/// An import section with one function, whose names are empty.
const IMPORTS: &[u8] = &[0x02, 0x05, 0x01, 0x00, 0x00, 0x00, 0x00];

/// A table section with one table.
const TABLES: &[u8] = &[0x04, 0x04, 0x01, 0x70, 0x00, 0x01];

/// A global section with one global.
const GLOBALS: &[u8] = &[0x06, 0x06, 0x01, 0x7f, 0x00, 0x41, 0x00, 0x0b];

/// An element section with one segment without items.
const ELEMENTS: &[u8] = &[0x09, 0x04, 0x01, 0x01, 0x00, 0x00];

/// A data count section with the count 1.
const DATA_COUNT: &[u8] = &[0x0c, 0x01, 0x01];

/// A data section with one segment without bytes.
const DATA: &[u8] = &[0x0b, 0x03, 0x01, 0x01, 0x00];

/// A function section and a code section without functions.
const NO_FUNCTIONS: &[u8] = &[0x03, 0x01, 0x00];

const NO_CODE: &[u8] = &[0x0a, 0x01, 0x00];

/// The name of the row, sections, and the places of the custom sections among them.
type Row = (
    &'static str,
    &'static [&'static [u8]],
    &'static [Option<SectionKind>],
);

/// A custom section after a section of each kind.
const ALL: Row = (
    "sections of all kinds",
    &[
        NOTE, TYPES, NOTE, IMPORTS, NOTE, FUNCTIONS, NOTE, TABLES, NOTE, MEMORIES, NOTE, TAGS,
        NOTE, GLOBALS, NOTE, EXPORTS, NOTE, START, NOTE, ELEMENTS, NOTE, DATA_COUNT, NOTE, CODE,
        NOTE, DATA, NOTE,
    ],
    &[
        None,
        Some(SectionKind::Type),
        Some(SectionKind::Import),
        Some(SectionKind::Function),
        Some(SectionKind::Table),
        Some(SectionKind::Memory),
        Some(SectionKind::Tag),
        Some(SectionKind::Global),
        Some(SectionKind::Export),
        Some(SectionKind::Start),
        Some(SectionKind::Element),
        Some(SectionKind::Element),
        Some(SectionKind::Code),
        Some(SectionKind::Data),
    ],
);

/// A custom section after a section of each kind whose count is 0.
const EMPTY: Row = (
    "sections of all kinds without items",
    &[
        &[0x01, 0x01, 0x00],
        NOTE,
        &[0x02, 0x01, 0x00],
        NOTE,
        NO_FUNCTIONS,
        NOTE,
        &[0x04, 0x01, 0x00],
        NOTE,
        &[0x05, 0x01, 0x00],
        NOTE,
        &[0x0d, 0x01, 0x00],
        NOTE,
        &[0x06, 0x01, 0x00],
        NOTE,
        &[0x07, 0x01, 0x00],
        NOTE,
        &[0x09, 0x01, 0x00],
        NOTE,
        &[0x0c, 0x01, 0x00],
        NOTE,
        NO_CODE,
        NOTE,
        &[0x0b, 0x01, 0x00],
        NOTE,
    ],
    &[None; 12],
);

/// Modules with custom sections, each with their places.
const ROWS: &[Row] = &[
    ("a custom section alone", &[NOTE], &[None]),
    ("before types", &[NOTE, TYPES], &[None]),
    ("after types", &[TYPES, NOTE], &[Some(SectionKind::Type)]),
    (
        "before, between and after sections",
        &[NOTE, TYPES, NOTE, MEMORIES, NOTE],
        &[None, Some(SectionKind::Type), Some(SectionKind::Memory)],
    ),
    (
        "two in a row before types",
        &[NOTE, NOTE, TYPES],
        &[None, None],
    ),
    (
        "two in a row after types",
        &[TYPES, NOTE, NOTE, MEMORIES],
        &[Some(SectionKind::Type), Some(SectionKind::Type)],
    ),
    (
        "a section without functions does not count",
        &[NO_FUNCTIONS, NOTE],
        &[None],
    ),
    (
        "a section without bodies does not count",
        &[TYPES, NO_FUNCTIONS, NOTE, NO_CODE, NOTE],
        &[Some(SectionKind::Type), Some(SectionKind::Type)],
    ),
    (
        "a start section counts",
        &[START, NOTE],
        &[Some(SectionKind::Start)],
    ),
    (
        "a start section counts after exports",
        &[EXPORTS, NOTE, START, NO_CODE, NOTE],
        &[Some(SectionKind::Export), Some(SectionKind::Start)],
    ),
    (
        "a data count section does not count",
        &[DATA_COUNT, NOTE, DATA],
        &[None],
    ),
    (
        "a data count section does not count after memories",
        &[MEMORIES, DATA_COUNT, NOTE, DATA],
        &[Some(SectionKind::Memory)],
    ),
    (
        "after code",
        &[TYPES, FUNCTIONS, CODE, NOTE],
        &[Some(SectionKind::Code)],
    ),
    (
        "before code and after data",
        &[TYPES, FUNCTIONS, NOTE, CODE, DATA, NOTE],
        &[Some(SectionKind::Function), Some(SectionKind::Data)],
    ),
    ALL,
    EMPTY,
];

/// The place is that of the custom section.
impl Compared<Option<SectionKind>> for CustomEntry<'_> {
    fn is(&self, place: &Option<SectionKind>) -> bool {
        self.after == *place
    }
}

/// The places of the custom sections.
#[derive(Clone, Copy)]
struct Places(&'static [Option<SectionKind>]);

impl Expected for Places {
    fn is_met(&self, _alloc: Global, module: &Module) -> bool {
        are_all(module.customs(), self.0)
    }
}

#[test]
fn custom_sections_follow_nonempty_sections(rt: HostRuntime) -> Result<(), Fail> {
    for (name, sections, places) in ROWS {
        assert!(rt; are_as(rt.alloc(), sections, &Places(*places))?, "{name}");
    }
    Ok(())
}
