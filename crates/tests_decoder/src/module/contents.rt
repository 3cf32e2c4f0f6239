//! Tests of the items of decoded modules: their places, types and values. All expected values are typed by hand.

use crate::module::modules::{Compared, DATA, Expected, FUNCTIONS, TYPES, are_all, are_as};
use std::alloc;
use std::test::Fail;
use wasmprinter_decoder::{
    Data, DataMode, Element, ElementItems, ElementMode, Export, ExternKind, ExternType, Fields,
    Global, GlobalType, Import, Limits, Memory, MemoryType, Module, Table, TableType, Tag,
};
use wasmprinter_ops::expression::{Expression, OperatorsReader};
use wasmprinter_ops::{HeapType, RefType, ValType};

/// The place of the first item of the first section.
const FIRST: u64 = 0x0b;

/// An export: its place and name, and the kind and index of the exported item.
type Exported = (u64, &'static str, ExternKind, u32);

/// An import: its place, its name and its type.
type Imported = (u64, &'static str, ExternType);

/// A table: its place, its type, and the place of the `end` of its initialiser if it has one.
type Tabled = (u64, TableType, Option<u64>);

/// An element segment: the table of an active one, whether the bytes name the table, and the numbers of functions
/// and of expressions.
type Segment = (Option<u32>, bool, u32, usize);

/// A data segment: its place, the memory of an active one, and its bytes.
type DataSegment = (u64, Option<u32>, &'static [u8]);

/// The expected items of one kind.
#[derive(Clone, Copy)]
enum Items {
    /// The operators of the only function: their places and words
    Operators(&'static [(u64, &'static str)]),
    /// The tables
    Tables(&'static [Tabled]),
    /// The memories: their places and minimums
    Memories(&'static [(u64, u64)]),
    /// The tags: their places and types
    Tags(&'static [(u64, u32)]),
    /// The globals, with an initialiser of one operator: their places and types
    Globals(&'static [(u64, GlobalType)]),
    Exports(&'static [Exported]),
    /// The imports, one of each kind, from the module `m`. The module defines no functions.
    Imports(&'static [Imported]),
    /// The place and the index of the start function, or `None` if the module has none
    Start(Option<(u64, u32)>),
    /// The only element segment, at the place `FIRST`, with an offset of one operator if it is active
    Element(Segment),
    Data(&'static [DataSegment]),
}

/// Reports whether the reader returns exactly the operators with these places and words.
fn are_operators(reader: &mut OperatorsReader, wanted: &[(u64, &str)]) -> bool {
    for (wanted_place, word) in wanted {
        match reader.next() {
            Some((place, operator)) if place == *wanted_place && operator.opcode.word() == *word =>
                {}
            _ => return false,
        }
    }
    reader.next().is_none()
}

/// Reports whether a module has exactly one function, and its operators have these places and words.
fn has_operators(decoded: &Module, wanted: &[(u64, &str)]) -> bool {
    let Some(body) = decoded.body(0) else {
        return false;
    };
    decoded.function_count() == 1
        && decoded.body(1).is_none()
        && are_operators(&mut body.operators(), wanted)
}

/// The expected place and minimum.
impl Compared<(u64, u64)> for Memory {
    fn is(&self, (place, min): &(u64, u64)) -> bool {
        self.place() == *place && self.ty().limits.min == *min
    }
}

/// The expected place and type.
impl Compared<(u64, u32)> for Tag {
    fn is(&self, (place, type_index): &(u64, u32)) -> bool {
        self.place() == *place && self.type_index() == *type_index
    }
}

impl Compared<Exported> for Export<'_> {
    fn is(&self, (place, name, kind, index): &Exported) -> bool {
        self.place() == *place
            && self.name() == *name
            && self.kind() == *kind
            && self.index() == *index
    }
}

/// Reports whether an expression has one operator before its `end`.
fn has_one_operator(expression: &Expression) -> bool {
    expression.operators().count() == 1
}

/// An initialiser has one operator.
impl Compared<Tabled> for Table<'_> {
    fn is(&self, (place, ty, end): &Tabled) -> bool {
        let has_init = match self.init() {
            Some(init) => *end == Some(init.end()) && has_one_operator(init),
            None => end.is_none(),
        };
        has_init && self.place() == *place && self.ty() == *ty
    }
}

/// The expected place and type. The initialiser has one operator.
impl Compared<(u64, GlobalType)> for Global<'_> {
    fn is(&self, (place, ty): &(u64, GlobalType)) -> bool {
        self.place() == *place && self.ty() == *ty && has_one_operator(self.init())
    }
}

impl Compared<Imported> for Import<'_> {
    fn is(&self, (place, name, ty): &Imported) -> bool {
        self.place() == *place && self.module() == "m" && self.name() == *name && self.ty() == *ty
    }
}

/// Reports whether exactly one item of each kind is imported.
fn imports_one_of_each(decoded: &Module) -> bool {
    decoded.imported_count(ExternKind::Func) == 1
        && decoded.imported_count(ExternKind::Table) == 1
        && decoded.imported_count(ExternKind::Memory) == 1
        && decoded.imported_count(ExternKind::Global) == 1
        && decoded.imported_count(ExternKind::Tag) == 1
}

/// Reports whether a segment is active for this table, at an offset of one operator or, for `None`, is not active.
fn is_active_for(mode: &ElementMode, wanted: Option<u32>) -> bool {
    match mode {
        ElementMode::Active { table, offset } => {
            wanted == Some(*table) && has_one_operator(offset)
        }
        _ => wanted.is_none(),
    }
}

/// Returns the number of functions, and of expressions.
fn counts_of(items: &ElementItems) -> (u32, usize) {
    match items {
        ElementItems::Functions(indices) => (indices.len(), 0),
        ElementItems::Expressions(_, expressions) => (0, expressions.len()),
    }
}

/// The segment is at the place `FIRST`, with an offset of one operator if it is active.
impl Compared<Segment> for Element<'_> {
    fn is(&self, (table, has_table_index, functions, expressions): &Segment) -> bool {
        is_active_for(self.mode(), *table)
            && self.place() == FIRST
            && self.has_table_index() == *has_table_index
            && counts_of(self.items()) == (*functions, *expressions)
    }
}

impl Compared<DataSegment> for Data<'_> {
    fn is(&self, (place, memory, bytes): &DataSegment) -> bool {
        let found = match self.mode() {
            DataMode::Active { memory, .. } => Some(*memory),
            DataMode::Passive => None,
        };
        self.place() == *place && found == *memory && self.bytes() == *bytes
    }
}

/// Returns the place and the index of the start function, or `None` if there is none.
fn start_of(decoded: &Module) -> Option<(u64, u32)> {
    let start = decoded.start()?;
    Some((start.place(), start.function()))
}

impl Expected for Items {
    fn is_met(&self, _alloc: alloc::Global, module: &Module) -> bool {
        match *self {
            Items::Operators(operators) => has_operators(module, operators),
            Items::Tables(tables) => are_all(module.tables(), tables),
            Items::Memories(memories) => are_all(module.memories(), memories),
            Items::Tags(tags) => are_all(module.tags(), tags),
            Items::Globals(globals) => are_all(module.globals(), globals),
            Items::Exports(exports) => are_all(module.exports(), exports),
            Items::Imports(imports) => {
                are_all(module.imports(), imports)
                    && imports_one_of_each(module)
                    && module.function_count() == 0
            }
            Items::Start(start) => start_of(module) == start,
            Items::Element(segment) => are_all(module.elements(), &[segment]),
            Items::Data(segments) => are_all(module.data_segments(), segments),
        }
    }
}

/// The limits of tables and of a memory.
const LIMITS: Limits = Limits { min: 1, max: None };

/// The type of tables of functions.
const TABLE: TableType = TableType {
    wide: false,
    limits: LIMITS,
    element: RefType {
        nullable: true,
        heap: HeapType::Func,
    },
};

/// The type of a memory.
const MEMORY: MemoryType = MemoryType {
    wide: false,
    shared: false,
    limits: LIMITS,
    page: None,
};

/// The types of globals.
const VARIABLE_I32: GlobalType = GlobalType {
    mutable: true,
    ty: ValType::I32,
};

const CONSTANT_I32: GlobalType = GlobalType {
    mutable: false,
    ty: ValType::I32,
};

const VARIABLE_I64: GlobalType = GlobalType {
    mutable: true,
    ty: ValType::I64,
};

/// References that may be null, to host values.
const EXTERN: RefType = RefType {
    nullable: true,
    heap: HeapType::Extern,
};

/// An import section with one import of each kind.
const IMPORTS: &[u8] = &[
    0x02, 0x24, 0x05, 0x01, 0x6d, 0x01, 0x66, 0x00, 0x03, 0x01, 0x6d, 0x01, 0x74, 0x01, 0x70, 0x00,
    0x01, 0x01, 0x6d, 0x01, 0x65, 0x02, 0x00, 0x01, 0x01, 0x6d, 0x01, 0x67, 0x03, 0x7f, 0x01, 0x01,
    0x6d, 0x01, 0x78, 0x04, 0x00, 0x02,
];

/// A module: the name of the row, its sections, and its items of one kind.
type Row = (&'static str, &'static [&'static [u8]], Items);

const ROWS: &[Row] = &[
    (
        "operators",
        &[
            &[0x01, 0x05, 0x01, 0x60, 0x00, 0x01, 0x7e],
            FUNCTIONS,
            &[
                0x0a, 0x0c, 0x01, 0x0a, 0x01, 0x01, 0x7e, 0x42, 0x7f, 0x21, 0x00, 0x20, 0x00, 0x0b,
            ],
        ],
        Items::Operators(&[
            (0x1a, "i64.const"),
            (0x1c, "local.set"),
            (0x1e, "local.get"),
        ]),
    ),
    (
        "a table",
        &[&[0x04, 0x04, 0x01, 0x6f, 0x00, 0x03]],
        Items::Tables(&[(
            FIRST,
            TableType {
                wide: false,
                limits: Limits { min: 3, max: None },
                element: EXTERN,
            },
            None,
        )]),
    ),
    (
        "a table with a maximum",
        &[&[0x04, 0x05, 0x01, 0x6f, 0x01, 0x03, 0x07]],
        Items::Tables(&[(
            FIRST,
            TableType {
                wide: false,
                limits: Limits {
                    min: 3,
                    max: Some(7),
                },
                element: EXTERN,
            },
            None,
        )]),
    ),
    (
        "a table with addresses of 64 bits",
        &[&[0x04, 0x04, 0x01, 0x6f, 0x04, 0x03]],
        Items::Tables(&[(
            FIRST,
            TableType {
                wide: true,
                limits: Limits { min: 3, max: None },
                element: EXTERN,
            },
            None,
        )]),
    ),
    (
        "a table with addresses of 64 bits and a maximum",
        &[&[0x04, 0x05, 0x01, 0x6f, 0x05, 0x03, 0x07]],
        Items::Tables(&[(
            FIRST,
            TableType {
                wide: true,
                limits: Limits {
                    min: 3,
                    max: Some(7),
                },
                element: EXTERN,
            },
            None,
        )]),
    ),
    (
        "a table without an initialiser and one with it",
        &[&[
            0x04, 0x0c, 0x02, 0x70, 0x00, 0x01, 0x40, 0x00, 0x70, 0x00, 0x01, 0xd0, 0x70, 0x0b,
        ]],
        Items::Tables(&[(FIRST, TABLE, None), (0x0e, TABLE, Some(0x15))]),
    ),
    (
        "two memories",
        &[&[0x05, 0x06, 0x02, 0x01, 0x01, 0x02, 0x04, 0x07]],
        Items::Memories(&[(0x0b, 1), (0x0e, 7)]),
    ),
    (
        "three tags",
        &[&[0x0d, 0x08, 0x03, 0x00, 0x07, 0x00, 0x81, 0x00, 0x00, 0x02]],
        Items::Tags(&[(0x0b, 7), (0x0d, 1), (0x10, 2)]),
    ),
    (
        "a constant and a variable",
        &[&[
            0x06, 0x0b, 0x02, 0x7f, 0x00, 0x41, 0x07, 0x0b, 0x7e, 0x01, 0x42, 0x08, 0x0b,
        ]],
        Items::Globals(&[(FIRST, CONSTANT_I32), (0x10, VARIABLE_I64)]),
    ),
    (
        "an export of each kind",
        &[&[
            0x07, 0x15, 0x05, 0x01, 0x61, 0x00, 0x05, 0x01, 0x62, 0x01, 0x06, 0x01, 0x63, 0x02,
            0x87, 0x00, 0x00, 0x03, 0x08, 0x01, 0x65, 0x04, 0x09,
        ]],
        Items::Exports(&[
            (0x0b, "a", ExternKind::Func, 5),
            (0x0f, "b", ExternKind::Table, 6),
            (0x13, "c", ExternKind::Memory, 7),
            (0x18, "", ExternKind::Global, 8),
            (0x1b, "e", ExternKind::Tag, 9),
        ]),
    ),
    (
        "an import of each kind",
        &[IMPORTS],
        Items::Imports(&[
            (0x0b, "f", ExternType::Func(3)),
            (0x11, "t", ExternType::Table(TABLE)),
            (0x19, "e", ExternType::Memory(MEMORY)),
            (0x20, "g", ExternType::Global(VARIABLE_I32)),
            (0x27, "x", ExternType::Tag(2)),
        ]),
    ),
    (
        "a start function",
        &[TYPES, &[0x08, 0x02, 0x87, 0x00]],
        Items::Start(Some((0x10, 7))),
    ),
    (
        "no start function",
        &[
            &[0x01, 0x06, 0x01, 0x60, 0x01, 0x7f, 0x01, 0x7f],
            FUNCTIONS,
            &[0x07, 0x05, 0x01, 0x01, 0x66, 0x00, 0x00],
            &[0x0a, 0x06, 0x01, 0x04, 0x00, 0x20, 0x00, 0x0b],
        ],
        Items::Start(None),
    ),
    (
        "an element segment with the flags 0",
        &[&[0x09, 0x08, 0x01, 0x00, 0x41, 0x00, 0x0b, 0x02, 0x05, 0x06]],
        Items::Element((Some(0), false, 2, 0)),
    ),
    (
        "an element segment with the flags 1",
        &[&[0x09, 0x05, 0x01, 0x01, 0x00, 0x01, 0x07]],
        Items::Element((None, false, 1, 0)),
    ),
    (
        "an element segment with the flags 2",
        &[&[
            0x09, 0x09, 0x01, 0x02, 0x03, 0x41, 0x00, 0x0b, 0x00, 0x01, 0x08,
        ]],
        Items::Element((Some(3), true, 1, 0)),
    ),
    (
        "an element segment with the flags 3",
        &[&[0x09, 0x06, 0x01, 0x03, 0x00, 0x02, 0x01, 0x01]],
        Items::Element((None, false, 2, 0)),
    ),
    (
        "an element segment with the flags 4",
        &[&[
            0x09, 0x09, 0x01, 0x04, 0x41, 0x00, 0x0b, 0x01, 0xd2, 0x00, 0x0b,
        ]],
        Items::Element((Some(0), false, 0, 1)),
    ),
    (
        "an element segment with the flags 5",
        &[&[
            0x09, 0x0a, 0x01, 0x05, 0x6f, 0x02, 0xd0, 0x6f, 0x0b, 0xd0, 0x6f, 0x0b,
        ]],
        Items::Element((None, false, 0, 2)),
    ),
    (
        "an element segment with the flags 6",
        &[&[0x09, 0x08, 0x01, 0x06, 0x03, 0x41, 0x00, 0x0b, 0x70, 0x00]],
        Items::Element((Some(3), true, 0, 0)),
    ),
    (
        "an element segment with the flags 7",
        &[&[0x09, 0x07, 0x01, 0x07, 0x70, 0x01, 0xd2, 0x01, 0x0b]],
        Items::Element((None, false, 0, 1)),
    ),
    (
        "data segments",
        &[&[0x0c, 0x01, 0x03], DATA],
        Items::Data(&[
            (0x0e, Some(0), &[0xaa, 0xbb]),
            (0x15, None, &[0xcc]),
            (0x18, Some(5), &[]),
        ]),
    ),
];

#[test]
fn items_have_their_places_and_values(rt: HostRuntime) -> Result<(), Fail> {
    for (name, sections, items) in ROWS {
        assert!(rt; are_as(rt.alloc(), sections, items)?, "{name}");
    }
    Ok(())
}
