//! Tests of modules that are decoded or refused, and what these tests share. All expected values are typed by hand.

use crate::operators::nested_blocks;
use std::alloc::{AllocError, Global};
use std::test::Fail;
use wasmprinter_bytes::Error;
use wasmprinter_decoder::{Fields, Module, decode, is_component};
use wasmprinter_ops::expression::OperatorsReader;
use wasmprinter_samples::{IDENTITY, PREAMBLE};

/// A type section with one function type, without parameters and results.
pub(crate) const TYPES: &[u8] = &[0x01, 0x04, 0x01, 0x60, 0x00, 0x00];

/// A function section with one function.
pub(crate) const FUNCTIONS: &[u8] = &[0x03, 0x02, 0x01, 0x00];

/// A code section with one body without locals and operators.
pub(crate) const CODE: &[u8] = &[0x0a, 0x04, 0x01, 0x02, 0x00, 0x0b];

/// A memory section with one memory.
pub(crate) const MEMORIES: &[u8] = &[0x05, 0x03, 0x01, 0x00, 0x01];

/// A tag section with one tag.
pub(crate) const TAGS: &[u8] = &[0x0d, 0x03, 0x01, 0x00, 0x00];

/// An export section that exports function 0 under the empty name.
pub(crate) const EXPORTS: &[u8] = &[0x07, 0x04, 0x01, 0x00, 0x00, 0x00];

/// A start section with function 0.
pub(crate) const START: &[u8] = &[0x08, 0x01, 0x00];

/// A data section with an active segment, a passive one, and an active one for memory 5.
pub(crate) const DATA: &[u8] = &[
    0x0b, 0x11, 0x03, 0x00, 0x41, 0x00, 0x0b, 0x02, 0xaa, 0xbb, 0x01, 0x01, 0xcc, 0x02, 0x05, 0x41,
    0x01, 0x0b, 0x00,
];

/// Returns these bytes, followed by these sections.
fn joined(alloc: Global, start: &[u8], sections: &[&[u8]]) -> Result<Vec<u8>, AllocError> {
    let mut bytes = Vec::from_slice(alloc, start)?;
    for section in sections {
        bytes.extend_from_slice(section)?;
    }
    Ok(bytes)
}

/// Returns the preamble, followed by these sections.
fn module(alloc: Global, sections: &[&[u8]]) -> Result<Vec<u8>, AllocError> {
    joined(alloc, PREAMBLE, sections)
}

/// What a test expects of a decoded module.
pub(crate) trait Expected {
    /// Reports whether the module is as expected.
    fn is_met(&self, alloc: Global, module: &Module) -> bool;
}

/// Reports whether a module of these sections is decoded, and is as expected.
pub(crate) fn are_as<E: Expected>(
    alloc: Global,
    sections: &[&[u8]],
    expected: &E,
) -> Result<bool, AllocError> {
    let bytes = module(alloc, sections)?;
    Ok(match decode(alloc, &bytes) {
        Ok(module) => expected.is_met(alloc, &module),
        Err(_) => false,
    })
}

/// An item of a decoded module, which a test compares with an expected value.
pub(crate) trait Compared<W> {
    /// Reports whether the item has the expected value.
    fn is(&self, wanted: &W) -> bool;
}

/// Reports whether there are as many items as expected values, and each item has its value.
pub(crate) fn are_all<T: Compared<W>, W>(items: &[T], wanted: &[W]) -> bool {
    for (item, value) in items.iter().zip(wanted) {
        if !item.is(value) {
            return false;
        }
    }
    items.len() == wanted.len()
}

/// Returns the place of the error, or `None` if the bytes are not refused as malformed.
fn fault_place(alloc: Global, bytes: &[u8]) -> Option<u64> {
    match decode(alloc, bytes) {
        Err(Error::Malformed { place }) => Some(place),
        _ => None,
    }
}

/// Reports whether a module of these sections is refused as malformed, with this place.
pub(crate) fn are_refused_at(
    alloc: Global,
    sections: &[&[u8]],
    place: u64,
) -> Result<bool, AllocError> {
    let bytes = module(alloc, sections)?;
    Ok(fault_place(alloc, &bytes) == Some(place))
}

/// The expected result of decoding a module.
#[derive(Clone, Copy)]
pub(crate) enum Verdict {
    Accepted,
    Malformed,
    Component,
    /// A refusal for a body with too many locals, with this place
    TooManyLocals(u64),
    /// A refusal for a module with this number of functions
    TooManyFunctions(u32),
    /// A refusal for a table with an empty initialiser, with this place
    EmptyTableInit(u64),
}

impl Verdict {
    /// Reports whether this is the result of decoding.
    fn is(self, decoded: &Result<Module, Error>) -> bool {
        match self {
            Verdict::Accepted => decoded.is_ok(),
            Verdict::Malformed => matches!(decoded, Err(Error::Malformed { .. })),
            Verdict::Component => matches!(decoded, Err(Error::Component)),
            Verdict::TooManyLocals(wanted) => {
                matches!(decoded, Err(Error::TooManyLocals { place }) if *place == wanted)
            }
            Verdict::TooManyFunctions(wanted) => {
                matches!(decoded, Err(Error::TooManyFunctions { count }) if *count == wanted)
            }
            Verdict::EmptyTableInit(wanted) => {
                matches!(decoded, Err(Error::EmptyTableInit { place }) if *place == wanted)
            }
        }
    }

    /// Reports whether decoding these bytes has this result.
    fn is_on(self, alloc: Global, bytes: &[u8]) -> bool {
        self.is(&decode(alloc, bytes))
    }

    /// Reports whether decoding these bytes, followed by these sections, has this result.
    pub(crate) fn is_on_all(
        self,
        alloc: Global,
        start: &[u8],
        sections: &[&[u8]],
    ) -> Result<bool, AllocError> {
        let bytes = joined(alloc, start, sections)?;
        Ok(self.is_on(alloc, &bytes))
    }
}

/// Returns the length of the first prefix of a module for which decoding has another result, or `None` if there is no
/// such prefix. The module's preamble and its types end at 8 and 16.
fn first_other_prefix(alloc: Global, wasm: &[u8]) -> Option<usize> {
    for len in 0..=wasm.len() {
        let verdict = match len {
            8 | 16 => Verdict::Accepted,
            _ if len == wasm.len() => Verdict::Accepted,
            _ => Verdict::Malformed,
        };
        if !verdict.is_on(alloc, &wasm[..len]) {
            return Some(len);
        }
    }
    None
}

#[test]
fn prefixes_are_accepted_after_sections_alone(rt: HostRuntime) {
    let other = first_other_prefix(rt.alloc(), IDENTITY);
    assert!(rt; other == None, "at {other:?}");
}

/// Bytes, and whether they are marked as a component: by the magic number, any version, and the layer 1.
const MARKS: &[(&[u8], bool)] = &[
    (&[0x00, 0x61, 0x73, 0x6d, 0x0d, 0x00, 0x01, 0x00], true),
    (&[0x00, 0x61, 0x73, 0x6d, 0x01, 0x00, 0x01, 0x00], true),
    (
        &[0x00, 0x61, 0x73, 0x6d, 0xff, 0xff, 0x01, 0x00, 0x00],
        true,
    ),
    (&[0x00, 0x61, 0x73, 0x6d, 0x01, 0x00, 0x00, 0x00], false),
    (&[0x00, 0x61, 0x73, 0x6d, 0x0d, 0x00, 0x02, 0x00], false),
    (&[0x00, 0x61, 0x73, 0x6d, 0x0d, 0x00, 0x01, 0x01], false),
    (&[0x01, 0x61, 0x73, 0x6d, 0x0d, 0x00, 0x01, 0x00], false),
    (&[0x00, 0x61, 0x73, 0x6d, 0x0d, 0x00, 0x01], false),
    (&[], false),
];

/// Returns the number of the first of these rows, counted from 0, that is judged otherwise, or `None` if there is no
/// such row.
fn first_other_mark(rows: &[(&[u8], bool)]) -> Option<usize> {
    for (number, (bytes, is_marked)) in rows.iter().enumerate() {
        if is_component(bytes) != *is_marked {
            return Some(number);
        }
    }
    None
}

#[test]
fn recognizes_components(rt: HostRuntime) {
    let other = first_other_mark(MARKS);
    assert!(rt; other == None, "row {other:?}");
}

/// A module: the name of the row, the bytes that it begins with, its sections, and the expected result.
type Row = (
    &'static str,
    &'static [u8],
    &'static [&'static [u8]],
    Verdict,
);

/// Modules of several sections, and a component.
const MODULES: &[Row] = &[
    (
        "a component",
        &[0x00, 0x61, 0x73, 0x6d, 0x0d, 0x00, 0x01, 0x00],
        &[],
        Verdict::Component,
    ),
    (
        "seven bytes of the preamble",
        &[0x00, 0x61, 0x73, 0x6d, 0x01, 0x00, 0x00],
        &[],
        Verdict::Malformed,
    ),
    (
        "a size in two bytes",
        PREAMBLE,
        &[&[0x01, 0x86, 0x00], &[0x01, 0x60, 0x01, 0x7f, 0x01, 0x7f]],
        Verdict::Accepted,
    ),
    (
        "a size in six bytes",
        PREAMBLE,
        &[
            &[0x01, 0x86, 0x80, 0x80, 0x80, 0x80, 0x00],
            &[0x01, 0x60, 0x01, 0x7f, 0x01, 0x7f],
        ],
        Verdict::Malformed,
    ),
    (
        "50,000 locals",
        PREAMBLE,
        &[
            TYPES,
            FUNCTIONS,
            &[0x0a, 0x08, 0x01, 0x06, 0x01, 0xd0, 0x86, 0x03, 0x7f, 0x0b],
        ],
        Verdict::Accepted,
    ),
    (
        "50,001 locals",
        PREAMBLE,
        &[
            TYPES,
            FUNCTIONS,
            &[0x0a, 0x08, 0x01, 0x06, 0x01, 0xd1, 0x86, 0x03, 0x7f, 0x0b],
        ],
        Verdict::TooManyLocals(0x16),
    ),
    (
        "a function",
        PREAMBLE,
        &[TYPES, FUNCTIONS, CODE],
        Verdict::Accepted,
    ),
    (
        "two functions but one body",
        PREAMBLE,
        &[TYPES, &[0x03, 0x03, 0x02, 0x00, 0x00], CODE],
        Verdict::Malformed,
    ),
    ("types twice", PREAMBLE, &[TYPES, TYPES], Verdict::Malformed),
    (
        "types after functions",
        PREAMBLE,
        &[FUNCTIONS, TYPES, CODE],
        Verdict::Malformed,
    ),
    (
        "a body with a byte after its `end`",
        PREAMBLE,
        &[
            TYPES,
            FUNCTIONS,
            &[0x0a, 0x05, 0x01, 0x03, 0x00, 0x0b, 0x0b],
        ],
        Verdict::Malformed,
    ),
    (
        "a body without `end`",
        PREAMBLE,
        &[TYPES, FUNCTIONS, &[0x0a, 0x04, 0x01, 0x02, 0x00, 0x1a]],
        Verdict::Malformed,
    ),
    (
        "a section that is longer than the module",
        PREAMBLE,
        &[&[0x01, 0x7f, 0x01, 0x60]],
        Verdict::Malformed,
    ),
    (
        "a name that is not UTF-8",
        PREAMBLE,
        &[
            TYPES,
            FUNCTIONS,
            &[0x07, 0x05, 0x01, 0x01, 0xff, 0x00, 0x00],
            CODE,
        ],
        Verdict::Malformed,
    ),
    (
        "more types than bytes",
        PREAMBLE,
        &[&[0x01, 0x05, 0xff, 0xff, 0xff, 0xff, 0x0f]],
        Verdict::Malformed,
    ),
    (
        "an unknown section",
        PREAMBLE,
        &[&[0x0e, 0x01, 0x00]],
        Verdict::Malformed,
    ),
    (
        "a block with its `end`",
        PREAMBLE,
        &[
            TYPES,
            FUNCTIONS,
            &[0x0a, 0x07, 0x01, 0x05, 0x00, 0x02, 0x40, 0x0b, 0x0b],
        ],
        Verdict::Accepted,
    ),
    (
        "one `end` for a block and its body",
        PREAMBLE,
        &[
            TYPES,
            FUNCTIONS,
            &[0x0a, 0x06, 0x01, 0x04, 0x00, 0x02, 0x40, 0x0b],
        ],
        Verdict::Malformed,
    ),
    (
        "three `end`s for a block and its body",
        PREAMBLE,
        &[
            TYPES,
            FUNCTIONS,
            &[0x0a, 0x08, 0x01, 0x06, 0x00, 0x02, 0x40, 0x0b, 0x0b, 0x0b],
        ],
        Verdict::Malformed,
    ),
    (
        "two `else`s",
        PREAMBLE,
        &[
            TYPES,
            FUNCTIONS,
            &[
                0x0a, 0x09, 0x01, 0x07, 0x00, 0x04, 0x40, 0x05, 0x05, 0x0b, 0x0b,
            ],
        ],
        Verdict::Malformed,
    ),
    (
        "a table section that is a byte too short",
        PREAMBLE,
        &[&[
            0x04, 0x0d, 0x02, 0x70, 0x00, 0x01, 0x40, 0x00, 0x70, 0x00, 0x01, 0xd0, 0x70, 0x0b,
        ]],
        Verdict::Malformed,
    ),
    (
        "an empty initialiser",
        PREAMBLE,
        &[&[
            0x04, 0x10, 0x03, 0x70, 0x00, 0x01, 0x40, 0x00, 0x70, 0x00, 0x01, 0x0b, 0x40, 0x00,
            0x70, 0x00, 0x01, 0x0b,
        ]],
        Verdict::EmptyTableInit(0x0e),
    ),
    (
        "three data segments without a count",
        PREAMBLE,
        &[DATA],
        Verdict::Accepted,
    ),
    (
        "three data segments with the count 0",
        PREAMBLE,
        &[&[0x0c, 0x01, 0x00], DATA],
        Verdict::Malformed,
    ),
    (
        "three data segments with the count 2",
        PREAMBLE,
        &[&[0x0c, 0x01, 0x02], DATA],
        Verdict::Malformed,
    ),
    (
        "three data segments with the count 4",
        PREAMBLE,
        &[&[0x0c, 0x01, 0x04], DATA],
        Verdict::Malformed,
    ),
];

/// Modules whose sections are in order, and modules with a section that is too early or occurs twice.
const ORDERS: &[Row] = &[
    (
        "all kinds in order",
        PREAMBLE,
        &[TYPES, FUNCTIONS, MEMORIES, TAGS, EXPORTS, START, CODE],
        Verdict::Accepted,
    ),
    (
        "no types, functions and bodies",
        PREAMBLE,
        &[MEMORIES, TAGS, EXPORTS, START],
        Verdict::Accepted,
    ),
    (
        "memories before types",
        PREAMBLE,
        &[MEMORIES, TYPES],
        Verdict::Malformed,
    ),
    (
        "tags before memories",
        PREAMBLE,
        &[TAGS, MEMORIES],
        Verdict::Malformed,
    ),
    (
        "exports before memories",
        PREAMBLE,
        &[EXPORTS, MEMORIES],
        Verdict::Malformed,
    ),
    (
        "exports before tags",
        PREAMBLE,
        &[EXPORTS, TAGS],
        Verdict::Malformed,
    ),
    (
        "a start function before exports",
        PREAMBLE,
        &[START, EXPORTS],
        Verdict::Malformed,
    ),
    (
        "memories before functions",
        PREAMBLE,
        &[TYPES, MEMORIES, FUNCTIONS, CODE],
        Verdict::Malformed,
    ),
    (
        "code before a start function",
        PREAMBLE,
        &[TYPES, FUNCTIONS, CODE, START],
        Verdict::Malformed,
    ),
    (
        "memories twice",
        PREAMBLE,
        &[MEMORIES, MEMORIES],
        Verdict::Malformed,
    ),
    ("tags twice", PREAMBLE, &[TAGS, TAGS], Verdict::Malformed),
    (
        "exports twice",
        PREAMBLE,
        &[EXPORTS, EXPORTS],
        Verdict::Malformed,
    ),
    (
        "a start function twice",
        PREAMBLE,
        &[START, START],
        Verdict::Malformed,
    ),
];

#[test]
fn modules_are_accepted_or_refused(rt: HostRuntime) -> Result<(), Fail> {
    for rows in [MODULES, ORDERS] {
        for (name, start, sections, verdict) in rows {
            assert!(rt; verdict.is_on_all(rt.alloc(), start, sections)?, "{name}");
        }
    }
    Ok(())
}

/// Returns the type indices of 1,000,001 functions, all 0.
fn many_indices(alloc: Global) -> Result<Vec<u8>, AllocError> {
    let mut indices = Vec::new(alloc);
    for _ in 0..1000001 {
        indices.push(0x00)?;
    }
    Ok(indices)
}

#[test]
fn functions_are_limited(rt: HostRuntime) -> Result<(), Fail> {
    let head = [0x03, 0xc4, 0x84, 0x3d, 0xc1, 0x84, 0x3d];
    let indices = many_indices(rt.alloc())?;
    let sections = [TYPES, &head, &indices];
    let verdict = Verdict::TooManyFunctions(1000001);
    assert!(rt; verdict.is_on_all(rt.alloc(), PREAMBLE, &sections)?);
    Ok(())
}

/// Reports whether exactly this number of operators is left.
fn are_left(operators: &mut OperatorsReader, count: u32) -> bool {
    for _ in 0..count {
        if operators.next().is_none() {
            return false;
        }
    }
    operators.next().is_none()
}

/// The number of operators of the first body.
#[derive(Clone, Copy)]
struct OperatorCount(u32);

impl Expected for OperatorCount {
    fn is_met(&self, _alloc: Global, module: &Module) -> bool {
        match module.body(0) {
            Some(body) => are_left(&mut body.operators(), self.0),
            None => false,
        }
    }
}

#[test]
fn blocks_nest_deep(rt: HostRuntime) -> Result<(), Fail> {
    // A section of 300,006 bytes with one body of 300,002 bytes.
    let head = [0x0a, 0xe6, 0xa7, 0x12, 0x01, 0xe2, 0xa7, 0x12, 0x00];
    let blocks = nested_blocks(rt.alloc())?;
    let sections = [TYPES, FUNCTIONS, &head, &blocks];
    assert!(rt; are_as(rt.alloc(), &sections, &OperatorCount(200_000))?);
    Ok(())
}
