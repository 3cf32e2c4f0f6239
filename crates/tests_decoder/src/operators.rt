//! Tests of readers over operators, and of types. All expected values are typed by hand.

mod immediates;
mod opcodes;

use std::alloc::{AllocError, Global};
use std::test::Fail;
use wasmprinter_bytes::cursor::Cursor;
use wasmprinter_bytes::decode_traits::Decode;
use wasmprinter_bytes::lazy_items::Items;
use wasmprinter_bytes::{Error, Malformed};
use wasmprinter_ops::block_immediates::{BlockType, Catch};
use wasmprinter_ops::composite_types::{CompositeType, FieldType, StorageType, SubType, SubTypes};
use wasmprinter_ops::expression::{Expression, OperatorsReader};
use wasmprinter_ops::mem_arg::MemArg;
use wasmprinter_ops::operator::{Immediates, Operator};
use wasmprinter_ops::{HeapType, RefType, ValType, read_type, read_types};

/// An expected memory operand: its exponent, its memory and its offset.
type Operand = (u32, u32, u64);

/// Expected immediates, with lists as slices.
#[derive(Clone, Copy)]
enum Wanted {
    None,
    Block(BlockType),
    TryTable(BlockType, &'static [Catch]),
    Index(u32),
    Indices(u32, u32),
    BrTable(&'static [u32], u32),
    Types(&'static [ValType]),
    Heap(HeapType),
    Cast(u8, u32, HeapType, HeapType),
    Memory(Operand),
    MemoryLane(Operand, u8),
    Lane(u8),
    I32(i32),
    I64(i64),
    F32(u32),
    F64(u64),
    Bytes([u8; 16]),
}

/// Reports whether these are the items of a list.
fn are_items<T: Decode + PartialEq>(items: &Items<T>, wanted: &[T]) -> bool {
    for (item, value) in items.iter().zip(wanted) {
        if item != *value {
            return false;
        }
    }
    items.len() as usize == wanted.len()
}

/// Reports whether this is the memory operand.
fn is_operand(found: MemArg, (exponent, memory, offset): Operand) -> bool {
    found.exponent == exponent && found.memory == memory && found.offset == offset
}

/// Reports whether these are the immediates.
fn are_wanted(immediates: &Immediates, wanted: &Wanted) -> bool {
    match (immediates, wanted) {
        (Immediates::None, Wanted::None) => true,
        (Immediates::Block(found), Wanted::Block(block_type)) => found == block_type,
        (Immediates::TryTable(found, clauses), Wanted::TryTable(block_type, catches)) => {
            found == block_type && are_items(clauses, catches)
        }
        (Immediates::Index(found), Wanted::Index(index)) => found == index,
        (Immediates::Indices(first, second), Wanted::Indices(one, other)) => {
            first == one && second == other
        }
        (Immediates::BrTable(targets, other), Wanted::BrTable(labels, label)) => {
            other == label && are_items(targets, labels)
        }
        (Immediates::Types(found), Wanted::Types(types)) => are_items(found, types),
        (Immediates::Heap(found), Wanted::Heap(heap)) => found == heap,
        (Immediates::Cast(flags, label, from, to), Wanted::Cast(bits, target, source, other)) => {
            flags == bits && label == target && from == source && to == other
        }
        (Immediates::Memory(found), Wanted::Memory(operand)) => is_operand(*found, *operand),
        (Immediates::MemoryLane(found, at), Wanted::MemoryLane(operand, lane)) => {
            is_operand(*found, *operand) && at == lane
        }
        (Immediates::Lane(found), Wanted::Lane(lane)) => found == lane,
        (Immediates::I32(found), Wanted::I32(number)) => found == number,
        (Immediates::I64(found), Wanted::I64(number)) => found == number,
        (Immediates::F32(found), Wanted::F32(bits)) => found == bits,
        (Immediates::F64(found), Wanted::F64(bits)) => found == bits,
        (Immediates::Bytes(found), Wanted::Bytes(bytes)) => found == bytes,
        _ => false,
    }
}

/// Reports whether an operator has this word and these immediates.
fn is_operator(operator: &Operator, word: &str, wanted: &Wanted) -> bool {
    operator.opcode.word() == word && are_wanted(&operator.immediates, wanted)
}

/// An expected operator: its place, its word and its immediates.
type Placed = (u64, &'static str, Wanted);

/// Returns the place of the first of these operators that the reader does not return in order, or of the operator after
/// them, or `None` if it returns exactly these.
fn first_other_place(reader: &mut OperatorsReader, wanted: &[Placed]) -> Option<u64> {
    for (place, word, immediates) in wanted {
        match reader.next() {
            Some((found, operator))
                if found == *place && is_operator(&operator, word, immediates) => {}
            _ => return Some(*place),
        }
    }
    let (place, _) = reader.next()?;
    Some(place)
}

/// An expression: the name of the row, its bytes, the first of which is at 0x1a, and its operators.
type Walk = (&'static str, &'static [u8], &'static [Placed]);

const WALKS: &[Walk] = &[
    (
        "operators without blocks",
        &[0x42, 0x7f, 0x21, 0x00, 0x20, 0x00, 0x41, 0x2a, 0x1a, 0x0b],
        &[
            (0x1a, "i64.const", Wanted::I64(-1)),
            (0x1c, "local.set", Wanted::Index(0)),
            (0x1e, "local.get", Wanted::Index(0)),
            (0x20, "i32.const", Wanted::I32(42)),
            (0x22, "drop", Wanted::None),
        ],
    ),
    (
        "blocks and loops, nested and in sequence",
        &[
            0x02, 0x40, 0x03, 0x7e, 0x0c, 0x01, 0x0b, 0x1a, 0x0b, 0x02, 0x81, 0x01, 0x0b, 0x0b,
        ],
        &[
            (0x1a, "block", Wanted::Block(BlockType::Empty)),
            (0x1c, "loop", Wanted::Block(BlockType::Value(ValType::I64))),
            (0x1e, "br", Wanted::Index(1)),
            (0x20, "end", Wanted::None),
            (0x21, "drop", Wanted::None),
            (0x22, "end", Wanted::None),
            (0x23, "block", Wanted::Block(BlockType::Func(129))),
            (0x26, "end", Wanted::None),
        ],
    ),
    (
        "an `if` with `else`, one without, and one with two empty arms",
        &[
            0x04, 0x7f, 0x41, 0x01, 0x05, 0x41, 0x02, 0x0b, 0x04, 0x40, 0x01, 0x0b, 0x04, 0x40,
            0x05, 0x0b, 0x0b,
        ],
        &[
            (0x1a, "if", Wanted::Block(BlockType::Value(ValType::I32))),
            (0x1c, "i32.const", Wanted::I32(1)),
            (0x1e, "else", Wanted::None),
            (0x1f, "i32.const", Wanted::I32(2)),
            (0x21, "end", Wanted::None),
            (0x22, "if", Wanted::Block(BlockType::Empty)),
            (0x24, "nop", Wanted::None),
            (0x25, "end", Wanted::None),
            (0x26, "if", Wanted::Block(BlockType::Empty)),
            (0x28, "else", Wanted::None),
            (0x29, "end", Wanted::None),
        ],
    ),
    (
        "a `try` with clauses, and one that ends in `delegate`",
        &[
            0x06, 0x40, 0x08, 0x03, 0x07, 0x03, 0x09, 0x00, 0x07, 0x04, 0x19, 0x0b, 0x06, 0x40,
            0x06, 0x40, 0x18, 0x00, 0x0b, 0x0b,
        ],
        &[
            (0x1a, "try", Wanted::Block(BlockType::Empty)),
            (0x1c, "throw", Wanted::Index(3)),
            (0x1e, "catch", Wanted::Index(3)),
            (0x20, "rethrow", Wanted::Index(0)),
            (0x22, "catch", Wanted::Index(4)),
            (0x24, "catch_all", Wanted::None),
            (0x25, "end", Wanted::None),
            (0x26, "try", Wanted::Block(BlockType::Empty)),
            (0x28, "try", Wanted::Block(BlockType::Empty)),
            (0x2a, "delegate", Wanted::Index(0)),
            (0x2c, "end", Wanted::None),
        ],
    ),
    (
        "a `try_table` with a clause of each kind, and one without clauses",
        &[
            0x1f, 0x40, 0x04, 0x00, 0x05, 0x01, 0x01, 0x06, 0x02, 0x02, 0x03, 0x03, 0x04, 0x0a,
            0x0b, 0x1f, 0x00, 0x00, 0x0b, 0x0b,
        ],
        &[
            (
                0x1a,
                "try_table",
                Wanted::TryTable(
                    BlockType::Empty,
                    &[
                        Catch::One(5, 1),
                        Catch::OneRef(6, 2),
                        Catch::All(3),
                        Catch::AllRef(4),
                    ],
                ),
            ),
            (0x27, "throw_ref", Wanted::None),
            (0x28, "end", Wanted::None),
            (0x29, "try_table", Wanted::TryTable(BlockType::Func(0), &[])),
            (0x2c, "end", Wanted::None),
        ],
    ),
    (
        "a `br_table` with labels, and one with only the default label",
        &[
            0x0e, 0x03, 0x00, 0x81, 0x01, 0x02, 0x04, 0x0e, 0x00, 0x05, 0x0b,
        ],
        &[
            (0x1a, "br_table", Wanted::BrTable(&[0, 129, 2], 4)),
            (0x21, "br_table", Wanted::BrTable(&[], 5)),
        ],
    ),
    (
        "an operator with each prefix",
        &[0xfb, 26, 0xfc, 7, 0xfd, 0x93, 0x02, 0xfe, 0x03, 0x00, 0x0b],
        &[
            (0x1a, "any.convert_extern", Wanted::None),
            (0x1c, "i64.trunc_sat_f64_u", Wanted::None),
            (0x1e, "i32x4.relaxed_dot_i8x16_i7x16_add_s", Wanted::None),
            (0x21, "atomic.fence", Wanted::None),
        ],
    ),
];

/// Returns the place at which the bytes first differ from an expression of these operators alone, or `None` if they
/// are one.
fn place_of_difference(alloc: Global, bytes: &[u8], wanted: &[Placed]) -> Option<u64> {
    let mut cursor = Cursor::new(0x1a, bytes);
    match Expression::read(alloc, &mut cursor) {
        Ok(expression) => {
            if cursor.is_empty() && expression.end() == 0x19 + bytes.len() as u64 {
                first_other_place(&mut expression.operators(), wanted)
            } else {
                Some(expression.end())
            }
        }
        Err(_) => Some(cursor.place()),
    }
}

#[test]
fn operators_of_expressions_are_walked(rt: HostRuntime) {
    for (name, bytes, wanted) in WALKS {
        let difference = place_of_difference(rt.alloc(), bytes, wanted);
        assert!(rt; difference == None, "{name}, at {difference:?}");
    }
}

/// Returns the place at which the bytes are refused, or `None` if they begin with an expression.
fn place_of_refusal(alloc: Global, bytes: &[u8]) -> Option<u64> {
    match Expression::read(alloc, &mut Cursor::new(0, bytes)) {
        Err(Error::Malformed { place }) => Some(place),
        _ => None,
    }
}

/// Bytes that encode operators but no expression: the name of the row, the bytes, and the place of the error (section
/// 5.4, "Control Instructions").
const NESTINGS: &[(&str, &[u8], u64)] = &[
    ("no `end`", &[0x41, 0x00], 2),
    ("one `end` for two", &[0x02, 0x40, 0x0b], 3),
    ("`else` outside any block", &[0x05, 0x0b], 0),
    ("`else` in a block", &[0x02, 0x40, 0x05, 0x0b, 0x0b], 2),
    (
        "`else` after another one",
        &[0x04, 0x40, 0x05, 0x05, 0x0b, 0x0b],
        3,
    ),
    (
        "`catch` in a block",
        &[0x02, 0x40, 0x07, 0x00, 0x0b, 0x0b],
        2,
    ),
    (
        "`catch` in an `if`",
        &[0x04, 0x40, 0x07, 0x00, 0x0b, 0x0b],
        2,
    ),
    (
        "`catch` after `catch_all`",
        &[0x06, 0x40, 0x19, 0x07, 0x00, 0x0b, 0x0b],
        3,
    ),
    ("`catch_all` in a block", &[0x02, 0x40, 0x19, 0x0b, 0x0b], 2),
    (
        "`catch_all` after another one",
        &[0x06, 0x40, 0x19, 0x19, 0x0b, 0x0b],
        3,
    ),
    ("`delegate` outside any block", &[0x18, 0x00, 0x0b], 0),
    ("`delegate` in a block", &[0x02, 0x40, 0x18, 0x00, 0x0b], 2),
    (
        "`delegate` after `catch`",
        &[0x06, 0x40, 0x07, 0x00, 0x18, 0x00, 0x0b],
        4,
    ),
];

#[test]
fn other_nesting_is_refused(rt: HostRuntime) {
    for (name, bytes, place) in NESTINGS {
        assert!(rt;
            place_of_refusal(rt.alloc(), bytes) == Some(*place),
            "{name}"
        );
    }
}

/// Returns an expression of 100,000 nested blocks.
pub(crate) fn nested_blocks(alloc: Global) -> Result<Vec<u8>, AllocError> {
    let mut bytes = [0x02, 0x40].repeat(alloc, 100_000)?;
    bytes.extend_from_slice(&[0x0b].repeat(alloc, 100_001)?)?;
    Ok(bytes)
}

/// Reports whether the next 100,000 operators have this one-byte opcode, the first at the place `first`, and each
/// `step` bytes after the one before.
fn go_on_with(operators: &mut OperatorsReader, number: u32, first: u64, step: u64) -> bool {
    let mut place = first;
    for _ in 0..100_000 {
        match operators.next() {
            Some((found, operator))
                if found == place
                    && operator.opcode.prefix == 0
                    && operator.opcode.number == number => {}
            _ => return false,
        }
        place = place.saturating_add(step);
    }
    true
}

/// Reports whether the operators are 100,000 `block`s and their `end`s.
fn are_nested_blocks(operators: &mut OperatorsReader) -> bool {
    go_on_with(operators, 0x02, 0, 2)
        && go_on_with(operators, 0x0b, 200_000, 1)
        && operators.next().is_none()
}

#[test]
fn blocks_nest_deep(rt: HostRuntime) -> Result<(), Fail> {
    let bytes = nested_blocks(rt.alloc())?;
    let expression = Expression::read(rt.alloc(), &mut Cursor::new(0, &bytes))?;
    assert!(rt; expression.end() == 300_000);
    assert!(rt; are_nested_blocks(&mut expression.operators()));
    Ok(())
}

/// An expected value type, or the place of an error.
#[derive(Clone, Copy)]
enum Expected {
    /// This number type or vector type
    Simple(ValType),
    /// References to this type, which may be null
    Nullable(HeapType),
    /// References to this type, which are not null
    NonNull(HeapType),
    /// A refusal with this place
    Refused(u64),
}

impl Expected {
    /// Returns the type, or the error.
    fn result(self) -> Result<ValType, Malformed> {
        match self {
            Expected::Simple(ty) => Ok(ty),
            Expected::Nullable(heap) => Ok(reference(true, heap)),
            Expected::NonNull(heap) => Ok(reference(false, heap)),
            Expected::Refused(place) => Err(Malformed { place }),
        }
    }
}

/// Returns a reference type.
fn reference(nullable: bool, heap: HeapType) -> ValType {
    ValType::Ref(RefType { nullable, heap })
}

/// A value type: the name of the row, the bytes, and the type or the place of the error.
type Typed = (&'static str, &'static [u8], Expected);

const VALUE_TYPES: &[Typed] = &[
    ("i32", &[0x7f], Expected::Simple(ValType::I32)),
    ("i64", &[0x7e], Expected::Simple(ValType::I64)),
    ("f32", &[0x7d], Expected::Simple(ValType::F32)),
    ("f64", &[0x7c], Expected::Simple(ValType::F64)),
    ("v128", &[0x7b], Expected::Simple(ValType::V128)),
    ("nullable exn", &[0x69], Expected::Nullable(HeapType::Exn)),
    (
        "nullable array",
        &[0x6a],
        Expected::Nullable(HeapType::Array),
    ),
    (
        "nullable struct",
        &[0x6b],
        Expected::Nullable(HeapType::Struct),
    ),
    ("nullable i31", &[0x6c], Expected::Nullable(HeapType::I31)),
    ("nullable eq", &[0x6d], Expected::Nullable(HeapType::Eq)),
    ("nullable any", &[0x6e], Expected::Nullable(HeapType::Any)),
    (
        "nullable extern",
        &[0x6f],
        Expected::Nullable(HeapType::Extern),
    ),
    ("nullable func", &[0x70], Expected::Nullable(HeapType::Func)),
    (
        "nullable none",
        &[0x71],
        Expected::Nullable(HeapType::NoAny),
    ),
    (
        "nullable noextern",
        &[0x72],
        Expected::Nullable(HeapType::NoExtern),
    ),
    (
        "nullable nofunc",
        &[0x73],
        Expected::Nullable(HeapType::NoFunc),
    ),
    (
        "nullable noexn",
        &[0x74],
        Expected::Nullable(HeapType::NoExn),
    ),
    ("byte 40 is no type", &[0x40], Expected::Refused(0)),
    ("byte 60 is no type", &[0x60], Expected::Refused(0)),
    ("byte 68 is no type", &[0x68], Expected::Refused(0)),
    ("byte 75 is no type", &[0x75], Expected::Refused(0)),
    ("byte 77 is no type", &[0x77], Expected::Refused(0)),
    ("byte 78 is no type", &[0x78], Expected::Refused(0)),
    ("byte 79 is no type", &[0x79], Expected::Refused(0)),
    ("byte 7a is no type", &[0x7a], Expected::Refused(0)),
    ("byte 80 is no type", &[0x80], Expected::Refused(0)),
    (
        "func in two bytes",
        &[0x64, 0x70],
        Expected::NonNull(HeapType::Func),
    ),
    (
        "nullable func in two bytes",
        &[0x63, 0x70],
        Expected::Nullable(HeapType::Func),
    ),
    (
        "nullable type 0",
        &[0x63, 0x00],
        Expected::Nullable(HeapType::Index(0)),
    ),
    (
        "type 128",
        &[0x64, 0x80, 0x01],
        Expected::NonNull(HeapType::Index(128)),
    ),
    (
        "the greatest type index",
        &[0x64, 0xff, 0xff, 0xff, 0xff, 0x0f],
        Expected::NonNull(HeapType::Index(u32::MAX)),
    ),
    ("a negative heap type", &[0x64, 0x40], Expected::Refused(1)),
    (
        "a heap type in two bytes",
        &[0x64, 0xf0, 0x7f],
        Expected::Refused(1),
    ),
    ("no heap type", &[0x63], Expected::Refused(1)),
];

/// Returns the second item of a vector of value types, or `None` if there are fewer.
fn second(bytes: &[u8]) -> Result<Option<ValType>, Malformed> {
    let mut types = read_types(&mut Cursor::new(0, bytes))?.iter();
    types.next();
    Ok(types.next())
}

#[test]
fn value_types_are_read(rt: HostRuntime) {
    for (name, bytes, expected) in VALUE_TYPES {
        let found = read_type(&mut Cursor::new(0, bytes));
        assert!(rt; found == expected.result(), "{name}");
    }
    assert!(rt; second(&[0x02, 0x7f, 0x7e]) == Ok(Some(ValType::I64)));
    assert!(rt; second(&[0x01, 0x7f]) == Ok(None));
    assert!(rt; second(&[0x02, 0x7f, 0x40]) == Err(Malformed { place: 2 }));
}

/// Returns the number of types in a group, which the bytes encode with the count first.
fn count_of(bytes: &[u8]) -> Result<u32, Malformed> {
    Ok(SubTypes::read(&mut Cursor::new(0, bytes))?.len())
}

/// Returns the type at the start of the bytes, encoded without a count.
fn first_type<'a>(bytes: &'a [u8]) -> Option<SubType<'a>> {
    let mut types = SubTypes::read_one(&mut Cursor::new(0, bytes)).ok()?;
    types.next()
}

/// Reports whether the type is a structure type with exactly these fields.
fn has_fields(composite: &CompositeType, wanted: &[FieldType]) -> bool {
    let CompositeType::Struct(fields) = composite else {
        return false;
    };
    let mut fields = fields.iter();
    for field in wanted {
        if fields.next() != Some(*field) {
            return false;
        }
    }
    fields.next() == None
}

#[test]
fn fields_are_read(rt: HostRuntime) -> Result<(), Fail> {
    let sub_type = first_type(&[0x5f, 0x02, 0x78, 0x01, 0x7f, 0x00]).ok_or("no type is read")?;
    assert!(rt; sub_type.is_final() && sub_type.supertypes().len() == 0);
    assert!(rt; sub_type.func_type().is_none());
    let first = FieldType {
        storage: StorageType::I8,
        mutable: true,
    };
    let second = FieldType {
        storage: StorageType::Val(ValType::I32),
        mutable: false,
    };
    assert!(rt; has_fields(sub_type.composite(), &[first, second]));
    Ok(())
}

/// Groups of types: the name of the row, the bytes with the count first, and the number of types or the place of the
/// error.
const GROUPS: &[(&str, &[u8], Result<u32, Malformed>)] = &[
    ("an array type", &[0x01, 0x5e, 0x77, 0x01], Ok(1)),
    (
        "an unknown storage type",
        &[0x01, 0x5e, 0x79, 0x00],
        Err(Malformed { place: 2 }),
    ),
    (
        "an unknown mutability",
        &[0x01, 0x5e, 0x78, 0x02],
        Err(Malformed { place: 3 }),
    ),
    (
        "an unknown form of types",
        &[0x01, 0x79],
        Err(Malformed { place: 1 }),
    ),
    (
        "a nested group",
        &[0x01, 0x4e, 0x00],
        Err(Malformed { place: 1 }),
    ),
    (
        "a subtype in a subtype",
        &[0x01, 0x50, 0x00, 0x50, 0x00, 0x60, 0x00, 0x00],
        Err(Malformed { place: 3 }),
    ),
    (
        "a count without types",
        &[0xff, 0xff, 0xff, 0xff, 0x0f],
        Err(Malformed { place: 5 }),
    ),
];

#[test]
fn groups_of_types_are_counted(rt: HostRuntime) {
    for (name, bytes, wanted) in GROUPS {
        assert!(rt; count_of(bytes) == *wanted, "{name}");
    }
}
