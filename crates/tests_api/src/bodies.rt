//! Tests of decoded modules and of readers over their operators. They use each variant of the types of
//! `wasmprinter::wasm`.

use std::alloc::{AllocError, Global};
use std::test::Fail;
use wasmprinter::Error;
use wasmprinter::wasm::{
    BlockType, Body, Catch, Catches, HeapType, Immediates, MemArg, Module, Opcode, Operator,
    OperatorsReader, RefType, Targets, ValType, ValTypes, decode,
};
use wasmprinter_samples::{IDENTITY, PREAMBLE};

/// A module whose function has immediates of each kind. The immediates need not be valid.
const EVERY_KIND: &[u8] = &[
    0x00, 0x61, 0x73, 0x6d, 0x01, 0x00, 0x00, 0x00, // preamble
    0x01, 0x04, 0x01, 0x60, 0x00, 0x00, // types
    0x03, 0x02, 0x01, 0x00, // functions
    0x0a, 0x5c, 0x01, 0x5a, 0x00, // code from 0x12, with the body at 0x16
    0x01, // at 0x17
    0x02, 0x7f, 0x0b, // at 0x18 and 0x1a
    0x1f, 0x40, 0x04, 0x00, 0x02, 0x00, 0x01, 0x03, 0x01, 0x02, 0x00, 0x03, 0x01, 0x0b, // at 0x1b and 0x28
    0x20, 0x05, // at 0x29
    0x11, 0x01, 0x02, // at 0x2b
    0x0e, 0x02, 0x00, 0x01, 0x03, // at 0x2e
    0x1c, 0x02, 0x7f, 0x70, // at 0x33
    0xd0, 0x03, // at 0x37
    0xfb, 0x18, 0x01, 0x00, 0x6e, 0x70, // at 0x39
    0x28, 0x42, 0x01, 0x10, // at 0x3f
    0xfd, 0x54, 0x00, 0x08, 0x0f, // at 0x43
    0xfd, 0x15, 0x07, // at 0x48
    0x41, 0x7e, // at 0x4b
    0x42, 0x7d, // at 0x4d
    0x43, 0x00, 0x00, 0x80, 0x3f, // at 0x4f
    0x44, 0x00, 0x00, 0x00, 0x00, 0x00, 0x00, 0x00, 0x40, // at 0x54
    0xfd, 0x0c, 0x00, 0x01, 0x02, 0x03, 0x04, 0x05, 0x06, 0x07, // at 0x5d
    0x08, 0x09, 0x0a, 0x0b, 0x0c, 0x0d, 0x0e, 0x0f, 0x0b, // its last bytes, and the end at 0x6f
];

/// An operator: its place, its opcode, its word, and the debug text of its immediates.
type Row = (u64, (u8, u32), &'static str, &'static str);

/// The operators of `EVERY_KIND`.
const ROWS: &[Row] = &[
    (0x17, (0, 0x01), "nop", "None"),
    (0x18, (0, 0x02), "block", "Block(Value(I32))"),
    (0x1a, (0, 0x0b), "end", "None"),
    (
        0x1b,
        (0, 0x1f),
        "try_table",
        "TryTable(Empty, [One(2, 0), OneRef(3, 1), All(0), AllRef(1)])",
    ),
    (0x28, (0, 0x0b), "end", "None"),
    (0x29, (0, 0x20), "local.get", "Index(5)"),
    (0x2b, (0, 0x11), "call_indirect", "Indices(1, 2)"),
    (0x2e, (0, 0x0e), "br_table", "BrTable([0, 1], 3)"),
    (
        0x33,
        (0, 0x1c),
        "select",
        "Types([I32, Ref(RefType { nullable: true, heap: Func })])",
    ),
    (0x37, (0, 0xd0), "ref.null", "Heap(Index(3))"),
    (0x39, (0xfb, 0x18), "br_on_cast", "Cast(1, 0, Any, Func)"),
    (
        0x3f,
        (0, 0x28),
        "i32.load",
        "Memory(MemArg { exponent: 2, memory: 1, offset: 16 })",
    ),
    (
        0x43,
        (0xfd, 0x54),
        "v128.load8_lane",
        "MemoryLane(MemArg { exponent: 0, memory: 0, offset: 8 }, 15)",
    ),
    (0x48, (0xfd, 0x15), "i8x16.extract_lane_s", "Lane(7)"),
    (0x4b, (0, 0x41), "i32.const", "I32(-2)"),
    (0x4d, (0, 0x42), "i64.const", "I64(-3)"),
    (0x4f, (0, 0x43), "f32.const", "F32(1065353216)"),
    (0x54, (0, 0x44), "f64.const", "F64(4611686018427387904)"),
    (
        0x5d,
        (0xfd, 0x0c),
        "v128.const",
        "Bytes([0, 1, 2, 3, 4, 5, 6, 7, 8, 9, 10, 11, 12, 13, 14, 15])",
    ),
];

/// Reports whether the catch clauses are those of the `try_table`.
fn are_catches(catches: &Catches<'_>) -> bool {
    let mut clauses = catches.iter();
    catches.len() == 4
        && clauses.next() == Some(Catch::One(2, 0))
        && clauses.next() == Some(Catch::OneRef(3, 1))
        && clauses.next() == Some(Catch::All(0))
        && clauses.next() == Some(Catch::AllRef(1))
        && clauses.next() == None
}

/// Reports whether the labels are those of the `br_table`.
fn are_targets(targets: &Targets<'_>) -> bool {
    let mut labels = targets.iter();
    targets.len() == 2
        && labels.next() == Some(0)
        && labels.next() == Some(1)
        && labels.next() == None
}

/// The type of nullable references to functions.
const FUNC_REF: RefType = RefType {
    nullable: true,
    heap: HeapType::Func,
};

/// Reports whether the types are those of the `select`.
fn are_types(types: &ValTypes<'_>) -> bool {
    let mut found = types.iter();
    types.len() == 2
        && found.next() == Some(ValType::I32)
        && found.next() == Some(ValType::Ref(FUNC_REF))
        && found.next() == None
}

/// The memory operand of the `i32.load`.
const LOADED: MemArg = MemArg {
    exponent: 2,
    memory: 1,
    offset: 16,
};

/// Reports whether the immediates are those of their kind in `EVERY_KIND`.
fn are_expected(immediates: &Immediates<'_>) -> bool {
    match immediates {
        Immediates::None => true,
        Immediates::Block(block_type) => *block_type == BlockType::Value(ValType::I32),
        Immediates::TryTable(block_type, catches) => {
            *block_type == BlockType::Empty && are_catches(catches)
        }
        Immediates::Index(index) => *index == 5,
        Immediates::Indices(first, second) => *first == 1 && *second == 2,
        Immediates::BrTable(targets, otherwise) => are_targets(targets) && *otherwise == 3,
        Immediates::Types(types) => are_types(types),
        Immediates::Heap(heap) => *heap == HeapType::Index(3),
        Immediates::Cast(flags, label, source, target) => {
            *flags == 1 && *label == 0 && *source == HeapType::Any && *target == HeapType::Func
        }
        Immediates::Memory(operand) => *operand == LOADED,
        Immediates::MemoryLane(operand, lane) => {
            operand.exponent == 0 && operand.memory == 0 && operand.offset == 8 && *lane == 15
        }
        Immediates::Lane(lane) => *lane == 7,
        Immediates::I32(number) => *number == -2,
        Immediates::I64(number) => *number == -3,
        Immediates::F32(bits) => *bits == 0x3f80_0000,
        Immediates::F64(bits) => *bits == 0x4000_0000_0000_0000,
        Immediates::Bytes(bytes) => bytes[0] == 0 && bytes[15] == 15,
    }
}

/// Reports whether an operator at a place is the operator of this row, and its clone equals it.
fn is_row(
    alloc: Global,
    place: u64,
    operator: &Operator<'_>,
    row: &Row,
) -> Result<bool, AllocError> {
    let (prefix, number) = row.1;
    let opcode = Opcode { prefix, number };
    let shown = format!(in alloc; "{:?}", operator.immediates)?;
    Ok(
        place == row.0
            && operator.opcode == opcode
            && operator.opcode.word() == row.2
            && are_expected(&operator.immediates)
            && shown.as_str() == row.3
            && operator.clone()? == *operator,
    )
}

/// Reports whether the next operator is the operator of this row.
fn is_next(
    alloc: Global,
    operators: &mut OperatorsReader<'_>,
    row: &Row,
) -> Result<bool, AllocError> {
    match operators.next() {
        Some((place, operator)) => is_row(alloc, place, &operator, row),
        None => Ok(false),
    }
}

/// Returns the word of the first of these rows that the remaining operators, taken in order, do not have, or reports
/// a surplus operator. Returns `None` if the operators are exactly those of the rows.
fn first_other(
    alloc: Global,
    operators: OperatorsReader<'_>,
    rows: &[Row],
) -> Result<Option<&'static str>, AllocError> {
    let mut left = operators;
    for row in rows {
        if !is_next(alloc, &mut left, row)? {
            return Ok(Some(row.2));
        }
    }
    match left.next() {
        None => Ok(None),
        Some(_) => Ok(Some("an operator too many")),
    }
}

/// Decodes a module, and returns the body of its first function.
///
/// # Errors
///
/// - The module is refused, or has no function.
pub fn body_of<'a>(alloc: Global, wasm: &'a [u8]) -> Result<Body<'a>, Fail> {
    let module: Module<'a> = decode(alloc, wasm)?;
    Ok(module.body(0).ok_or("no body")?)
}

#[test]
fn walks_over_immediates_of_each_kind(rt: HostRuntime) -> Result<(), Fail> {
    let body = body_of(rt.alloc(), EVERY_KIND)?;
    let other = first_other(rt.alloc(), body.operators(), ROWS)?;
    assert!(rt; other == None, "{other:?}");
    let other = first_other(rt.alloc(), body.fork().operators(), ROWS)?;
    assert!(rt; other == None, "{other:?}");
    Ok(())
}

#[test]
fn shows_an_operator(rt: HostRuntime) -> Result<(), Fail> {
    let body = body_of(rt.alloc(), IDENTITY)?;
    let (_, operator) = body.operators().next().ok_or("no operator")?;
    let shown = format!(in rt.alloc(); "{operator:?}")?;
    let expected = "Operator { opcode: Opcode { prefix: 0, number: 32 }, immediates: Index(0) }";
    assert!(rt; shown.as_str() == expected);
    Ok(())
}

/// A module whose function has operators with lists of value types and of labels. For each, there are two equal
/// lists, one with another length, and one that differs in its last item.
const LISTS: &[u8] = &[
    0x00, 0x61, 0x73, 0x6d, 0x01, 0x00, 0x00, 0x00, // preamble
    0x01, 0x04, 0x01, 0x60, 0x00, 0x00, // types
    0x03, 0x02, 0x01, 0x00, // functions
    0x0a, 0x28, 0x01, 0x26, 0x00, // code
    0x1c, 0x02, 0x7f, 0x70, 0x1c, 0x02, 0x7f, 0x70, // two equal lists of types
    0x1c, 0x03, 0x7f, 0x70, 0x70, 0x1c, 0x02, 0x7f, 0x7e, // a longer one, and one that differs in its last type
    0x0e, 0x02, 0x00, 0x01, 0x03, 0x0e, 0x02, 0x00, 0x01, 0x03, // two equal lists of labels
    0x0e, 0x01, 0x00, 0x03, 0x0e, 0x02, 0x00, 0x02, 0x03, // a shorter one, and one that differs in its last label
    0x0b,
];

/// Reports whether an operator equals the second, and differs from the other two. Clones are compared too.
fn equals_the_second_alone(
    first: &Operator<'_>,
    second: &Operator<'_>,
    third: &Operator<'_>,
    fourth: &Operator<'_>,
) -> Result<bool, AllocError> {
    let kept = first.clone()?;
    Ok(
        first == second
            && kept == *second
            && first.immediates.clone()? == second.immediates
            && first != third
            && third != first
            && kept != *third
            && first != fourth
            && kept.immediates != fourth.immediates,
    )
}

/// Reports whether, of the next four operators, the first two are equal and the other two differ from the first.
fn are_one_pair(operators: &mut OperatorsReader<'_>) -> Result<bool, AllocError> {
    match (
        operators.next(),
        operators.next(),
        operators.next(),
        operators.next(),
    ) {
        (Some((_, first)), Some((_, second)), Some((_, third)), Some((_, fourth))) => {
            equals_the_second_alone(&first, &second, &third, &fourth)
        }
        _ => Ok(false),
    }
}

#[test]
fn compares_lists(rt: HostRuntime) -> Result<(), Fail> {
    let mut operators = body_of(rt.alloc(), LISTS)?.operators();
    assert!(rt; are_one_pair(&mut operators)?);
    assert!(rt; are_one_pair(&mut operators)?);
    Ok(())
}

/// Reports whether the next two operators differ, as do their immediates, and each equals itself.
fn are_distinct(operators: &mut OperatorsReader<'_>) -> bool {
    match (operators.next(), operators.next()) {
        (Some((_, first)), Some((_, second))) => {
            first != second
                && first.immediates != second.immediates
                && first == first
                && second.immediates == second.immediates
        }
        _ => false,
    }
}

#[test]
fn distinguishes_operators(rt: HostRuntime) -> Result<(), Fail> {
    let mut operators = body_of(rt.alloc(), EVERY_KIND)?.operators();
    assert!(rt; are_distinct(&mut operators));
    Ok(())
}

/// A module with one function: the name of the row, the bytes, and the place and the end of the function's body.
type Range = (&'static str, &'static [u8], u64, u64);

const RANGES: &[Range] = &[
    ("one operator", IDENTITY, 0x1f, 0x22),
    ("immediates of each kind", EVERY_KIND, 0x16, 0x6f),
];

/// Reports whether a module has exactly one function, whose body has this place and this end.
fn has_range(alloc: Global, wasm: &[u8], place: u64, end: u64) -> Result<bool, Error> {
    let module = decode(alloc, wasm)?;
    let is_placed = match module.body(0) {
        Some(body) => body.place() == place && body.end() == end,
        None => false,
    };
    Ok(is_placed && module.function_count() == 1 && module.body(1).is_none())
}

/// Returns the name of the first row whose module has another range, or `None` if there is no such row.
fn first_other_range(alloc: Global, rows: &[Range]) -> Result<Option<&'static str>, Error> {
    for (name, wasm, place, end) in rows {
        if !has_range(alloc, wasm, *place, *end)? {
            return Ok(Some(*name));
        }
    }
    Ok(None)
}

/// Reports whether a module has no function.
fn has_no_body(alloc: Global, wasm: &[u8]) -> Result<bool, Error> {
    let module = decode(alloc, wasm)?;
    Ok(module.function_count() == 0 && module.body(0).is_none())
}

#[test]
fn returns_the_range_of_bodies(rt: HostRuntime) -> Result<(), Fail> {
    let other = first_other_range(rt.alloc(), RANGES)?;
    assert!(rt; other == None, "{other:?}");
    assert!(rt; has_no_body(rt.alloc(), PREAMBLE)?);
    Ok(())
}

/// Reports whether the next operator has these immediates.
fn has_next(operators: &mut OperatorsReader<'_>, expected: &Immediates<'_>) -> bool {
    match operators.next() {
        Some((_, operator)) => operator.immediates == *expected,
        None => false,
    }
}

/// A module whose function has a `ref.null` of each heap type.
const EVERY_HEAP_TYPE: &[u8] = &[
    0x00, 0x61, 0x73, 0x6d, 0x01, 0x00, 0x00, 0x00, // preamble
    0x01, 0x04, 0x01, 0x60, 0x00, 0x00, // types
    0x03, 0x02, 0x01, 0x00, // functions
    0x0a, 0x1e, 0x01, 0x1c, 0x00, // code
    0xd0, 0x69, 0xd0, 0x6a, 0xd0, 0x6b, 0xd0, 0x6c, 0xd0, 0x6d, 0xd0, 0x6e, 0xd0, 0x6f, // operators
    0xd0, 0x70, 0xd0, 0x71, 0xd0, 0x72, 0xd0, 0x73, 0xd0, 0x74, 0xd0, 0x2a, 0x0b,
];

/// The heap types of `EVERY_HEAP_TYPE`.
const HEAP_TYPES: &[HeapType] = &[
    HeapType::Exn,
    HeapType::Array,
    HeapType::Struct,
    HeapType::I31,
    HeapType::Eq,
    HeapType::Any,
    HeapType::Extern,
    HeapType::Func,
    HeapType::NoAny,
    HeapType::NoExtern,
    HeapType::NoFunc,
    HeapType::NoExn,
    HeapType::Index(42),
];

/// Returns the first of these heap types that the next operators, taken in order, do not have as their immediates.
/// Returns `None` if there is no such heap type.
fn first_missing(operators: &mut OperatorsReader<'_>, heap_types: &[HeapType]) -> Option<HeapType> {
    for heap_type in heap_types {
        if !has_next(operators, &Immediates::Heap(*heap_type)) {
            return Some(*heap_type);
        }
    }
    None
}

#[test]
fn gives_each_heap_type(rt: HostRuntime) -> Result<(), Fail> {
    let mut operators = body_of(rt.alloc(), EVERY_HEAP_TYPE)?.operators();
    let missing = first_missing(&mut operators, HEAP_TYPES);
    assert!(rt; missing == None, "{missing:?}");
    assert!(rt; operators.next().is_none());
    Ok(())
}

/// A module whose function has a `select` of each value type, and blocks of the types that `EVERY_KIND` does not
/// have.
const EVERY_TYPE: &[u8] = &[
    0x00, 0x61, 0x73, 0x6d, 0x01, 0x00, 0x00, 0x00, // preamble
    0x01, 0x04, 0x01, 0x60, 0x00, 0x00, // types
    0x03, 0x02, 0x01, 0x00, // functions
    0x0a, 0x14, 0x01, 0x12, 0x00, // code
    0x1c, 0x07, 0x7f, 0x7e, 0x7d, 0x7c, 0x7b, 0x70, 0x64, 0x03, // a `select`
    0x02, 0x40, 0x0b, // a block
    0x02, 0x00, 0x0b, // another
    0x0b,
];

/// The type of references to values of type 3, not nullable.
const TYPED_REF: RefType = RefType {
    nullable: false,
    heap: HeapType::Index(3),
};

/// The types of the `select`.
const VAL_TYPES: &[ValType] = &[
    ValType::I32,
    ValType::I64,
    ValType::F32,
    ValType::F64,
    ValType::V128,
    ValType::Ref(FUNC_REF),
    ValType::Ref(TYPED_REF),
];

/// Reports whether the next operator has exactly these value types as its immediates.
fn has_next_types(operators: &mut OperatorsReader<'_>, expected: &[ValType]) -> bool {
    match operators.next() {
        Some((_, operator)) => match &operator.immediates {
            Immediates::Types(found) => found.iter().eq(expected.iter().copied()),
            _ => false,
        },
        None => false,
    }
}

#[test]
fn gives_each_value_type_and_block_type(rt: HostRuntime) -> Result<(), Fail> {
    let mut operators = body_of(rt.alloc(), EVERY_TYPE)?.operators();
    assert!(rt; has_next_types(&mut operators, VAL_TYPES));
    assert!(rt; has_next(&mut operators, &Immediates::Block(BlockType::Empty)));
    assert!(rt; has_next(&mut operators, &Immediates::None));
    assert!(rt; has_next(&mut operators, &Immediates::Block(BlockType::Func(0))));
    Ok(())
}
