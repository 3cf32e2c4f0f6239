//! Tests of immediates of each shape, and of bytes that encode no operator. All expected immediates and places are
//! typed by hand.

use super::{Wanted, is_operator};
use wasmprinter_bytes::Malformed;
use wasmprinter_bytes::cursor::Cursor;
use wasmprinter_ops::cast_flags::{cast_source, cast_target};
use wasmprinter_ops::operator::read_operator;
use wasmprinter_ops::{HeapType, RefType, ValType};

/// Reports whether the bytes are exactly an operator with this word and these immediates.
fn are_operator(bytes: &[u8], word: &str, wanted: &Wanted) -> bool {
    let mut cursor = Cursor::new(0, bytes);
    match read_operator(&mut cursor) {
        Ok(operator) => is_operator(&operator, word, wanted) && cursor.is_empty(),
        Err(Malformed { .. }) => false,
    }
}

/// Returns the place at which the bytes are refused, or `None` if they begin with an operator.
fn place_of_refusal(bytes: &[u8]) -> Option<u64> {
    match read_operator(&mut Cursor::new(0, bytes)) {
        Ok(_) => None,
        Err(Malformed { place }) => Some(place),
    }
}

/// The type of nullable references to exceptions.
const EXN: ValType = ValType::Ref(RefType {
    nullable: true,
    heap: HeapType::Exn,
});

/// Sixteen different bytes.
const LANES: [u8; 16] = [1, 2, 3, 4, 5, 6, 7, 8, 9, 10, 11, 12, 13, 14, 15, 255];

/// An operator: the name of the row, its bytes, its word and its immediates.
type Row = (&'static str, &'static [u8], &'static str, Wanted);

const OPERATORS: &[Row] = &[
    (
        "an index",
        &[0x24, 0x81, 0x01],
        "global.set",
        Wanted::Index(129),
    ),
    ("a memory", &[0x3f, 0x05], "memory.size", Wanted::Index(5)),
    (
        "a type and a table",
        &[0x11, 1, 2],
        "call_indirect",
        Wanted::Indices(1, 2),
    ),
    (
        "a type and a field",
        &[0xfb, 2, 3, 4],
        "struct.get",
        Wanted::Indices(3, 4),
    ),
    (
        "a type and a count",
        &[0xfb, 8, 5, 6],
        "array.new_fixed",
        Wanted::Indices(5, 6),
    ),
    (
        "two types",
        &[0xfb, 17, 7, 8],
        "array.copy",
        Wanted::Indices(7, 8),
    ),
    (
        "a segment and a memory",
        &[0xfc, 8, 9, 10],
        "memory.init",
        Wanted::Indices(9, 10),
    ),
    (
        "two tables",
        &[0xfc, 14, 11, 12],
        "table.copy",
        Wanted::Indices(11, 12),
    ),
    (
        "two value types",
        &[0x1c, 2, 0x7b, 0x69],
        "select",
        Wanted::Types(&[ValType::V128, EXN]),
    ),
    ("no value types", &[0x1c, 0], "select", Wanted::Types(&[])),
    (
        "an abstract type",
        &[0xd0, 0x6a],
        "ref.null",
        Wanted::Heap(HeapType::Array),
    ),
    (
        "a type index",
        &[0xd0, 0x80, 0x01],
        "ref.null",
        Wanted::Heap(HeapType::Index(128)),
    ),
    (
        "a tested type",
        &[0xfb, 20, 0x70],
        "ref.test",
        Wanted::Heap(HeapType::Func),
    ),
    (
        "a cast type",
        &[0xfb, 23, 0],
        "ref.cast",
        Wanted::Heap(HeapType::Index(0)),
    ),
    (
        "a cast from a nullable type",
        &[0xfb, 24, 1, 0x81, 0x01, 0x6e, 2],
        "br_on_cast",
        Wanted::Cast(1, 129, HeapType::Any, HeapType::Index(2)),
    ),
    (
        "a cast to a nullable type",
        &[0xfb, 25, 2, 0, 3, 0x6c],
        "br_on_cast_fail",
        Wanted::Cast(2, 0, HeapType::Index(3), HeapType::I31),
    ),
    (
        "a cast from and to nullable types",
        &[0xfb, 24, 3, 0, 0x6e, 0x6e],
        "br_on_cast",
        Wanted::Cast(3, 0, HeapType::Any, HeapType::Any),
    ),
    (
        "a memory operand",
        &[0x28, 2, 8],
        "i32.load",
        Wanted::Memory((2, 0, 8)),
    ),
    (
        "the greatest exponent",
        &[0x28, 63, 0],
        "i32.load",
        Wanted::Memory((63, 0, 0)),
    ),
    (
        "memory 0 with its index",
        &[0x28, 64, 0, 1],
        "i32.load",
        Wanted::Memory((0, 0, 1)),
    ),
    (
        "the greatest exponent with a memory",
        &[0x28, 127, 2, 1],
        "i32.load",
        Wanted::Memory((63, 2, 1)),
    ),
    (
        "an offset of 33 bits",
        &[0xfe, 0x1e, 0, 0x80, 0x80, 0x80, 0x80, 0x10],
        "i32.atomic.rmw.add",
        Wanted::Memory((0, 0, 1 << 32)),
    ),
    (
        "a memory operand and a lane",
        &[0xfd, 84, 0, 7, 255],
        "v128.load8_lane",
        Wanted::MemoryLane((0, 0, 7), 255),
    ),
    (
        "a lane",
        &[0xfd, 21, 255],
        "i8x16.extract_lane_s",
        Wanted::Lane(255),
    ),
    (
        "a vector",
        &[
            0xfd, 12, 1, 2, 3, 4, 5, 6, 7, 8, 9, 10, 11, 12, 13, 14, 15, 255,
        ],
        "v128.const",
        Wanted::Bytes(LANES),
    ),
    (
        "sixteen lanes",
        &[
            0xfd, 13, 1, 2, 3, 4, 5, 6, 7, 8, 9, 10, 11, 12, 13, 14, 15, 255,
        ],
        "i8x16.shuffle",
        Wanted::Bytes(LANES),
    ),
    ("an i32", &[0x41, 0x7f], "i32.const", Wanted::I32(-1)),
    ("an i64", &[0x42, 0x80, 0x01], "i64.const", Wanted::I64(128)),
    (
        "the bits of an f32",
        &[0x43, 0x11, 0x22, 0x33, 0x44],
        "f32.const",
        Wanted::F32(0x4433_2211),
    ),
    (
        "the bits of an f64",
        &[0x44, 0x11, 0x22, 0x33, 0x44, 0x55, 0x66, 0x77, 0x88],
        "f64.const",
        Wanted::F64(0x8877_6655_4433_2211),
    ),
    (
        "the byte of a fence",
        &[0xfe, 3, 0],
        "atomic.fence",
        Wanted::None,
    ),
];

#[test]
fn immediates_are_read(rt: HostRuntime) {
    for (name, bytes, word, wanted) in OPERATORS {
        assert!(rt; are_operator(bytes, word, wanted), "{name}");
    }
}

/// Bytes that encode no operator: the name of the row, the bytes, and the place of the error.
const REFUSED: &[(&str, &[u8], u64)] = &[
    ("opcode ff", &[0xff], 0),
    ("an unknown opcode with a prefix", &[0xfc, 0x12], 0),
    ("a block type that is a negative number", &[0x02, 0x41], 1),
    (
        "a block type of 34 bits",
        &[0x02, 0x80, 0x80, 0x80, 0x80, 0x10],
        5,
    ),
    (
        "an unknown kind of catch clause",
        &[0x1f, 0x40, 0x01, 0x04, 0x00],
        3,
    ),
    (
        "2^32 - 1 labels in no byte",
        &[0x0e, 0xff, 0xff, 0xff, 0xff, 0x0f],
        6,
    ),
    (
        "2^32 - 1 clauses in no byte",
        &[0x1f, 0x40, 0xff, 0xff, 0xff, 0xff, 0x0f],
        7,
    ),
    ("one index of two", &[0xfc, 14, 11], 3),
    ("a byte that is no value type", &[0x1c, 1, 0x40], 2),
    ("a byte that is no heap type", &[0xd0, 0x40], 1),
    (
        "a cast with unknown flags",
        &[0xfb, 24, 4, 0, 0x6e, 0x6e],
        2,
    ),
    ("an exponent of 128", &[0x28, 0x80, 0x01, 0], 1),
    ("a memory without an offset", &[0x28, 64, 0], 3),
    (
        "fifteen lanes",
        &[0xfd, 13, 1, 2, 3, 4, 5, 6, 7, 8, 9, 10, 11, 12, 13, 14, 15],
        2,
    ),
    ("three bytes of an f32", &[0x43, 0x11, 0x22, 0x33], 1),
    ("a fence with another byte", &[0xfe, 3, 1], 2),
];

#[test]
fn other_operators_are_refused(rt: HostRuntime) {
    for (name, bytes, place) in REFUSED {
        assert!(rt; place_of_refusal(bytes) == Some(*place), "{name}");
    }
}

/// Flags of casts, and whether the source and the target are nullable.
const FLAGS: &[(u8, bool, bool)] = &[
    (0, false, false),
    (1, true, false),
    (2, false, true),
    (3, true, true),
];

#[test]
fn flags_of_casts_say_which_types_are_nullable(rt: HostRuntime) {
    for (flags, source, target) in FLAGS {
        let of_source = cast_source(*flags, HeapType::Eq);
        let of_target = cast_target(*flags, HeapType::Eq);
        assert!(rt;
            of_source.nullable == *source && of_target.nullable == *target,
            "flags {flags}"
        );
    }
}
