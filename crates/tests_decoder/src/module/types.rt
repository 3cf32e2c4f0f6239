//! Tests of the types of decoded modules: groups of types, and the types of memories. All expected values are typed by
//! hand.

use crate::module::modules::{Compared, Expected, are_all, are_as};
use std::alloc::{AllocError, Global};
use std::test::Fail;
use wasmprinter_decoder::{Fields, Limits, MemoryType, Module, TypeGroup};
use wasmprinter_ops::ValType;
use wasmprinter_ops::composite_types::FuncType;

/// A group of types: its place, whether it is written as a group, and the number of its types.
type Group = (u64, bool, u32);

impl Compared<Group> for TypeGroup<'_> {
    fn is(&self, (place, is_explicit, len): &Group) -> bool {
        self.place() == *place && self.is_explicit() == *is_explicit && self.types().len() == *len
    }
}

/// Reports whether a function type has one parameter, of type f32, and no results.
fn takes_a_float(signature: &FuncType) -> bool {
    let mut params = signature.params();
    params.next() == Some(ValType::F32) && params.next().is_none() && signature.results().len() == 0
}

/// Reports whether, of types 0 to 4, exactly types 1 and 2 are function types, and type 1 has one f32 parameter.
fn has_signatures(decoded: &Module) -> bool {
    decoded.signature(0).is_none()
        && decoded
            .signature(1)
            .is_some_and(|signature| takes_a_float(&signature))
        && decoded.signature(2).is_some()
        && decoded.signature(3).is_none()
        && decoded.signature(4).is_none()
}

/// Two groups of types that are written as groups, each followed by another type.
#[derive(Clone, Copy)]
struct Groups;

impl Expected for Groups {
    fn is_met(&self, _alloc: Global, module: &Module) -> bool {
        let groups = [
            (0x0b, true, 0),
            (0x0d, false, 1),
            (0x0f, true, 2),
            (0x1a, false, 1),
        ];
        are_all(module.types(), &groups) && has_signatures(module)
    }
}

#[test]
fn type_indices_count_the_types_of_all_groups(rt: HostRuntime) -> Result<(), Fail> {
    let section = [
        0x01, 0x13, 0x04, 0x4e, 0x00, 0x5f, 0x00, 0x4e, 0x02, 0x60, 0x01, 0x7d, 0x00, 0x50, 0x00,
        0x60, 0x00, 0x00, 0x5e, 0x78, 0x01,
    ];
    assert!(rt; are_as(rt.alloc(), &[&section], &Groups)?);
    Ok(())
}

/// The type of the only memory.
impl Expected for MemoryType {
    fn is_met(&self, _alloc: Global, module: &Module) -> bool {
        match module.memories() {
            [memory] => memory.ty() == *self,
            _ => false,
        }
    }
}

/// Types of memories with a minimum of 1: the name of the row, the bytes, whether addresses have 64 bits, whether the
/// memory is shared, its maximum, and the exponent of its page size.
type MemoryRow = (
    &'static str,
    &'static [u8],
    bool,
    bool,
    Option<u64>,
    Option<u32>,
);

const MEMORY_TYPES: &[MemoryRow] = &[
    ("flags 00", &[0x00, 0x01], false, false, None, None),
    ("flags 01", &[0x01, 0x01, 0x02], false, false, Some(2), None),
    ("flags 02", &[0x02, 0x01], false, true, None, None),
    ("flags 03", &[0x03, 0x01, 0x02], false, true, Some(2), None),
    ("flags 04", &[0x04, 0x01], true, false, None, None),
    ("flags 05", &[0x05, 0x01, 0x02], true, false, Some(2), None),
    ("flags 06", &[0x06, 0x01], true, true, None, None),
    ("flags 07", &[0x07, 0x01, 0x02], true, true, Some(2), None),
    ("flags 08", &[0x08, 0x01, 0x03], false, false, None, Some(3)),
    (
        "flags 09",
        &[0x09, 0x01, 0x02, 0x03],
        false,
        false,
        Some(2),
        Some(3),
    ),
    ("flags 0a", &[0x0a, 0x01, 0x03], false, true, None, Some(3)),
    (
        "flags 0b",
        &[0x0b, 0x01, 0x02, 0x03],
        false,
        true,
        Some(2),
        Some(3),
    ),
    ("flags 0c", &[0x0c, 0x01, 0x03], true, false, None, Some(3)),
    (
        "flags 0d",
        &[0x0d, 0x01, 0x02, 0x03],
        true,
        false,
        Some(2),
        Some(3),
    ),
    ("flags 0e", &[0x0e, 0x01, 0x03], true, true, None, Some(3)),
    (
        "flags 0f",
        &[0x0f, 0x01, 0x02, 0x03],
        true,
        true,
        Some(2),
        Some(3),
    ),
    (
        "the greatest maximum",
        &[
            0x01, 0x01, 0xff, 0xff, 0xff, 0xff, 0xff, 0xff, 0xff, 0xff, 0xff, 0x01,
        ],
        false,
        false,
        Some(0xffff_ffff_ffff_ffff),
        None,
    ),
    (
        "a maximum in ten bytes",
        &[
            0x01, 0x81, 0x00, 0x86, 0x80, 0x80, 0x80, 0x80, 0x80, 0x80, 0x80, 0x80, 0x00,
        ],
        false,
        false,
        Some(6),
        None,
    ),
    (
        "pages of one byte",
        &[0x08, 0x01, 0x00],
        false,
        false,
        None,
        Some(0),
    ),
    (
        "pages of the default size",
        &[0x08, 0x01, 0x10],
        false,
        false,
        None,
        Some(16),
    ),
    (
        "pages of the greatest size",
        &[0x08, 0x01, 0x3f],
        false,
        false,
        None,
        Some(63),
    ),
    (
        "an exponent in five bytes",
        &[0x08, 0x01, 0xbf, 0x80, 0x80, 0x80, 0x00],
        false,
        false,
        None,
        Some(63),
    ),
];

/// Reports whether the memory of a row has its type.
fn is_memory(alloc: Global, row: &MemoryRow) -> Result<bool, AllocError> {
    let (_, bytes, wide, shared, max, page) = row;
    let wanted = MemoryType {
        wide: *wide,
        shared: *shared,
        limits: Limits { min: 1, max: *max },
        page: *page,
    };
    let size = u8::try_from(bytes.len() + 1).unwrap_or(0);
    are_as(alloc, &[&[0x05, size, 0x01], bytes], &wanted)
}

#[test]
fn flags_say_what_a_memory_is(rt: HostRuntime) -> Result<(), Fail> {
    for row in MEMORY_TYPES {
        assert!(rt; is_memory(rt.alloc(), row)?, "{}", row.0);
    }
    Ok(())
}
