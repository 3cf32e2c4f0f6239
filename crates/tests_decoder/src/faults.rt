//! Tests of the places that errors report. No contract states these places. They are typed by hand, or follow from
//! where an operator is truncated.

mod damaged;

use damaged::is_damaged_alike;
use std::alloc::{AllocError, Global};
use std::test::Fail;
use wasmprinter_bytes::cursor::Cursor;
use wasmprinter_bytes::{Error, Malformed};
use wasmprinter_ops::expression::Expression;
use wasmprinter_ops::opcode_shapes_arities_and_roles::{Listed, Role, Shape, Space};
use wasmprinter_ops::operator::read_operator;

/// The place of the first byte.
const PLACE: u64 = 0x1a;

/// The byte of `end`.
const END: u8 = 0x0b;

/// A shape of immediates, the role of an operator with these, and the bytes of that operator.
type Spelled<'a> = (Shape, Role, &'a [u8]);

/// Operators without immediates, and with blocks, labels and types.
const CONTROL: &[Spelled<'static>] = &[
    (Shape::None, Role::Plain, &[0x01]),
    (Shape::None, Role::Ends, &[0x0b]),
    (Shape::None, Role::Else, &[0x05]),
    (Shape::None, Role::CatchesAll, &[0x19]),
    (Shape::None, Role::Plain, &[0xfb, 0x1e]),
    (Shape::None, Role::Plain, &[0xfd, 0x93, 0x82, 0x00]),
    (Shape::Fence, Role::Plain, &[0xfe, 0x03, 0x00]),
    (Shape::Block, Role::Opens, &[0x02, 0x40]),
    (Shape::Block, Role::Opens, &[0x03, 0x81, 0x01]),
    (Shape::Block, Role::OpensIf, &[0x04, 0x63, 0x80, 0x01]),
    (Shape::Block, Role::OpensTry, &[0x06, 0x7f]),
    (Shape::TryTable, Role::Opens, &[0x1f, 0x40, 0x00]),
    (
        Shape::TryTable,
        Role::Opens,
        &[
            0x1f, 0x64, 0x70, 0x03, 0x00, 0x85, 0x01, 0x01, 0x02, 0x03, 0x03, 0x04,
        ],
    ),
    (Shape::BranchTable, Role::Plain, &[0x0e, 0x00, 0x05]),
    (
        Shape::BranchTable,
        Role::Plain,
        &[0x0e, 0x03, 0x00, 0x81, 0x01, 0x02, 0x84, 0x00],
    ),
    (Shape::Select, Role::Plain, &[0x1c, 0x00]),
    (
        Shape::Select,
        Role::Plain,
        &[0x1c, 0x03, 0x7b, 0x63, 0x81, 0x01, 0x69],
    ),
    (Shape::Heap, Role::Plain, &[0xd0, 0x6a]),
    (
        Shape::Heap,
        Role::Plain,
        &[0xd0, 0xff, 0xff, 0xff, 0xff, 0x0f],
    ),
    (Shape::Ref(false), Role::Plain, &[0xfb, 0x14, 0x80, 0x01]),
    (Shape::Ref(true), Role::Plain, &[0xfb, 0x17, 0x70]),
    (
        Shape::Cast,
        Role::Plain,
        &[0xfb, 0x18, 0x01, 0x81, 0x01, 0x6e, 0x82, 0x01],
    ),
    (
        Shape::Cast,
        Role::Plain,
        &[0xfb, 0x99, 0x00, 0x02, 0x00, 0x03, 0x6c],
    ),
    (Shape::Index(Space::Label), Role::Delegates, &[0x18, 0x00]),
];

/// Operators with indices.
const INDICES: &[Spelled<'static>] = &[
    (Shape::Index(Space::Local), Role::Plain, &[0x20, 0x00]),
    (
        Shape::Index(Space::Func),
        Role::Plain,
        &[0x10, 0xff, 0xff, 0xff, 0xff, 0x0f],
    ),
    (Shape::Index(Space::Tag), Role::Catches, &[0x07, 0x81, 0x01]),
    (
        Shape::Index(Space::Global),
        Role::Plain,
        &[0x24, 0x80, 0x80, 0x00],
    ),
    (
        Shape::Index(Space::Table),
        Role::Plain,
        &[0xfc, 0x10, 0x81, 0x02],
    ),
    (Shape::Index(Space::Types), Role::Plain, &[0xfb, 0x00, 0x07]),
    (
        Shape::DefaultIndex(Space::Memory),
        Role::Plain,
        &[0x3f, 0x85, 0x00],
    ),
    (
        Shape::Pair(Space::Types, Space::Data),
        Role::Plain,
        &[0xfb, 0x09, 0x81, 0x01, 0x02],
    ),
    (
        Shape::Pair(Space::Types, Space::Types),
        Role::Plain,
        &[0xfb, 0x11, 0x01, 0x82, 0x01],
    ),
    (
        Shape::Field,
        Role::Plain,
        &[0xfb, 0x02, 0x83, 0x01, 0x84, 0x01],
    ),
    (Shape::Count, Role::Plain, &[0xfb, 0x08, 0x05, 0x80, 0x01]),
    (Shape::Call, Role::Plain, &[0x11, 0x81, 0x01, 0x82, 0x01]),
    (
        Shape::Segment(Space::Data, Space::Memory),
        Role::Plain,
        &[0xfc, 0x08, 0x89, 0x01, 0x0a],
    ),
    (
        Shape::Segment(Space::Elem, Space::Table),
        Role::Plain,
        &[0xfc, 0x8c, 0x00, 0x09, 0x8a, 0x01],
    ),
    (
        Shape::Copy(Space::Table),
        Role::Plain,
        &[0xfc, 0x0e, 0x8b, 0x01, 0x8c, 0x01],
    ),
];

/// Operators with memory operands, lanes and numbers.
const NUMBERS: &[Spelled<'static>] = &[
    (Shape::Memory(2), Role::Plain, &[0x28, 0x02, 0x08]),
    (
        Shape::Memory(3),
        Role::Plain,
        &[0x37, 0xc3, 0x00, 0x85, 0x01, 0x88, 0x01],
    ),
    (Shape::Memory(4), Role::Plain, &[0xfd, 0x00, 0x3f, 0x00]),
    (
        Shape::Memory(2),
        Role::Plain,
        &[0xfe, 0x1e, 0x7f, 0x02, 0x80, 0x80, 0x80, 0x80, 0x10],
    ),
    (
        Shape::Memory(0),
        Role::Plain,
        &[
            0x2d, 0x00, 0xff, 0xff, 0xff, 0xff, 0xff, 0xff, 0xff, 0xff, 0xff, 0x01,
        ],
    ),
    (
        Shape::MemoryLane(0),
        Role::Plain,
        &[0xfd, 0xd4, 0x00, 0x00, 0x87, 0x01, 0xff],
    ),
    (
        Shape::MemoryLane(3),
        Role::Plain,
        &[0xfd, 0x5b, 0x43, 0x01, 0x07, 0x01],
    ),
    (Shape::Lane, Role::Plain, &[0xfd, 0x15, 0xff]),
    (Shape::I32, Role::Plain, &[0x41, 0x7f]),
    (
        Shape::I32,
        Role::Plain,
        &[0x41, 0x80, 0x80, 0x80, 0x80, 0x78],
    ),
    (Shape::I32, Role::Plain, &[0x41, 0xff, 0x00]),
    (Shape::I64, Role::Plain, &[0x42, 0x80, 0x01]),
    (
        Shape::I64,
        Role::Plain,
        &[
            0x42, 0x80, 0x80, 0x80, 0x80, 0x80, 0x80, 0x80, 0x80, 0x80, 0x7f,
        ],
    ),
    (Shape::F32, Role::Plain, &[0x43, 0x11, 0x22, 0x33, 0x44]),
    (
        Shape::F64,
        Role::Plain,
        &[0x44, 0x11, 0x22, 0x33, 0x44, 0x55, 0x66, 0x77, 0x88],
    ),
    (
        Shape::Vector,
        Role::Plain,
        &[
            0xfd, 0x0c, 1, 2, 3, 4, 5, 6, 7, 8, 9, 10, 11, 12, 13, 14, 15, 255,
        ],
    ),
    (
        Shape::Lanes,
        Role::Plain,
        &[
            0xfd, 0x0d, 1, 2, 3, 4, 5, 6, 7, 8, 9, 10, 11, 12, 13, 14, 15, 255,
        ],
    ),
    (Shape::F32, Role::Plain, &[0x43, 0x00, 0x00, 0x80, 0x7f]),
];

/// Bytes that are refused, and the place of the error.
type Fault = (&'static [u8], u64);

/// Bytes that encode no operator, each with the place of the error: opcodes that are not listed, and malformed
/// immediates. For a number with too many bits, the place is that of the last byte that its width allows.
const REFUSED: &[Fault] = &[
    (&[], 0x1a),
    // Opcodes
    (&[0xff, 0x00], 0x1a),
    (&[0x16, 0x00], 0x1a),
    (&[0x27, 0x00], 0x1a),
    (&[0xd7, 0x00], 0x1a),
    (&[0xfb, 0x1f, 0x00], 0x1a),
    (&[0xfc, 0x12, 0x00], 0x1a),
    (&[0xfd, 0x94, 0x82, 0x80, 0x00, 0x00], 0x1a),
    (&[0xfe, 0x04, 0x00], 0x1a),
    (&[0xfb, 0x80, 0x80, 0x80, 0x80, 0x10], 0x1f),
    // The byte of a fence
    (&[0xfe, 0x03, 0x01], 0x1c),
    // Block types
    (&[0x02, 0x41], 0x1b),
    (&[0x03, 0xff, 0x7f], 0x1b),
    (&[0x06, 0x78], 0x1b),
    (&[0x02, 0x80, 0x80, 0x80, 0x80, 0x10], 0x1f),
    (&[0x04, 0x63, 0x40], 0x1c),
    (&[0x04, 0x64, 0xff, 0x7f], 0x1c),
    // Catch clauses
    (&[0x1f, 0x40, 0x01, 0x04, 0x00], 0x1d),
    (&[0x1f, 0x40, 0x02, 0x03, 0x04, 0x05, 0x00], 0x1f),
    (
        &[0x1f, 0x40, 0x01, 0x00, 0x80, 0x80, 0x80, 0x80, 0x10, 0x00],
        0x22,
    ),
    // Labels
    (&[0x0e, 0x02, 0x00, 0x80], 0x1e),
    (&[0x0e, 0x80, 0x80, 0x80, 0x80, 0x10], 0x1f),
    (&[0x0e, 0x01, 0x00, 0xff, 0xff, 0xff, 0xff, 0x1f], 0x21),
    // Value types
    (&[0x1c, 0x01, 0x78], 0x1c),
    (&[0x1c, 0x01, 0x63, 0x7f], 0x1d),
    (&[0x1c, 0x02, 0x7f, 0x40], 0x1d),
    // Heap types
    (&[0xd0, 0x7f], 0x1b),
    (&[0xd0, 0x80, 0x80, 0x80, 0x80, 0x10], 0x1f),
    (&[0xfb, 0x14, 0x40], 0x1c),
    // Casts
    (&[0xfb, 0x18, 0x04, 0x00, 0x6e, 0x6e], 0x1c),
    (
        &[0xfb, 0x18, 0x01, 0x80, 0x80, 0x80, 0x80, 0x10, 0x6e, 0x6e],
        0x21,
    ),
    (&[0xfb, 0x18, 0x01, 0x00, 0x40, 0x6e], 0x1e),
    (&[0xfb, 0x18, 0x01, 0x00, 0x6e, 0x40], 0x1f),
    // Indices
    (&[0x20, 0x80, 0x80, 0x80, 0x80, 0x10], 0x1f),
    (&[0x3f, 0x80, 0x80, 0x80, 0x80, 0x7f], 0x1f),
    (&[0x11, 0x81, 0x01, 0xff, 0xff, 0xff, 0xff, 0x10], 0x21),
    (
        &[0xfb, 0x02, 0x83, 0x01, 0x84, 0x80, 0x80, 0x80, 0x10],
        0x22,
    ),
    (&[0xfc, 0x0e, 0x8b, 0x80, 0x80, 0x80, 0x10, 0x00], 0x20),
    // Memory operands
    (&[0x28, 0x80, 0x01, 0x00], 0x1b),
    (&[0x28, 0x42, 0x00], 0x1d),
    (&[0xfe, 0x1e, 0x80, 0x01, 0x00], 0x1c),
    (&[0x28, 0x40, 0x80, 0x80, 0x80, 0x80, 0x10, 0x00], 0x20),
    (
        &[
            0x28, 0x02, 0x80, 0x80, 0x80, 0x80, 0x80, 0x80, 0x80, 0x80, 0x80, 0x02,
        ],
        0x25,
    ),
    // Numbers
    (&[0x41, 0x80, 0x80, 0x80, 0x80, 0x40], 0x1f),
    (&[0x41, 0xff, 0xff, 0xff, 0xff, 0x0f], 0x1f),
    (
        &[
            0x42, 0x80, 0x80, 0x80, 0x80, 0x80, 0x80, 0x80, 0x80, 0x80, 0x01,
        ],
        0x24,
    ),
];

/// Expressions with an error in their second operator or in their last one, each with the place of the error.
const FAULTY: &[Fault] = &[
    // In the second of several operators
    (&[0x01, 0xff, 0x0b], 0x1b),
    (&[0x01, 0x05, 0x0b], 0x1b),
    (&[0x41, 0x7f, 0xfc, 0x12, 0x00, 0x0b], 0x1c),
    (&[0x1a, 0xfe, 0x03, 0x01, 0x0b], 0x1d),
    (&[0x01, 0x02, 0x41, 0x0b, 0x0b], 0x1c),
    (&[0x01, 0x28, 0x80, 0x01, 0x00, 0x0b], 0x1c),
    (
        &[0x20, 0x00, 0x20, 0x80, 0x80, 0x80, 0x80, 0x10, 0x0b],
        0x21,
    ),
    (
        &[0x02, 0x40, 0x41, 0x80, 0x80, 0x80, 0x80, 0x40, 0x0b, 0x0b],
        0x21,
    ),
    (
        &[0x20, 0x81, 0x01, 0xfd, 0x94, 0x82, 0x00, 0x01, 0x0b],
        0x1d,
    ),
    // In the last of several operators: the bytes end before it, in its opcode, or in its immediates
    (&[0x20, 0x00, 0x41, 0x01, 0x6a], 0x1f),
    (&[0x20, 0x00, 0x41, 0x01, 0x6a, 0xfb, 0x80], 0x21),
    (&[0x20, 0x00, 0x41, 0x01, 0x6a, 0x41], 0x20),
    (&[0x20, 0x00, 0x41, 0x01, 0x6a, 0x41, 0x80], 0x21),
    (&[0x20, 0x00, 0x41, 0x01, 0x6a, 0x20], 0x20),
    (
        &[0x20, 0x00, 0x41, 0x01, 0x6a, 0x43, 0x00, 0x00, 0x80],
        0x20,
    ),
    (&[0x20, 0x00, 0x41, 0x01, 0x6a, 0xfd, 0x0c, 1, 2, 3], 0x21),
    (&[0x20, 0x00, 0x41, 0x01, 0x6a, 0xfd, 0x15], 0x21),
    (
        &[0x20, 0x00, 0x41, 0x01, 0x6a, 0x0e, 0x02, 0x00, 0x01],
        0x23,
    ),
    (&[0x20, 0x00, 0x41, 0x01, 0x6a, 0x37, 0x42, 0x00], 0x22),
    (&[0x20, 0x00, 0x41, 0x01, 0x6a, 0xd0, 0x80], 0x21),
    (&[0x20, 0x00, 0x41, 0x01, 0x6a, 0x02, 0x40, 0x0b], 0x22),
    // In the last of several operators: immediates with a byte that is not allowed, or an operator that is not well
    // nested
    (
        &[
            0x20, 0x00, 0x41, 0x01, 0x6a, 0x10, 0xff, 0xff, 0xff, 0xff, 0x1f,
        ],
        0x24,
    ),
    (
        &[
            0x20, 0x00, 0x41, 0x01, 0x6a, 0x42, 0x80, 0x80, 0x80, 0x80, 0x80, 0x80, 0x80, 0x80,
            0x80, 0x40,
        ],
        0x29,
    ),
    (
        &[0x20, 0x00, 0x41, 0x01, 0x6a, 0x1c, 0x02, 0x7f, 0x40],
        0x22,
    ),
    (
        &[
            0x20, 0x00, 0x41, 0x01, 0x6a, 0xfb, 0x18, 0x04, 0x00, 0x6e, 0x6e,
        ],
        0x21,
    ),
    (
        &[0x20, 0x00, 0x41, 0x01, 0x6a, 0x1f, 0x40, 0x01, 0x04, 0x00],
        0x22,
    ),
    (&[0x20, 0x00, 0x41, 0x01, 0x6a, 0x19, 0x0b], 0x1f),
];

/// The result of reading an expression.
#[derive(Clone, Copy, PartialEq, Eq)]
enum Outcome {
    /// The expression is read, and its `end` is at this place.
    Ended(u64),
    /// The expression is refused, and the error reports this place.
    Refused(u64),
    /// Out of memory.
    Other,
}

/// Returns the result of reading these bytes as an expression. The first byte is at `PLACE`.
fn outcome_of(alloc: Global, bytes: &[u8]) -> Outcome {
    match Expression::read(alloc, &mut Cursor::new(PLACE, bytes)) {
        Ok(expression) => Outcome::Ended(expression.end()),
        Err(Error::Malformed { place }) => Outcome::Refused(place),
        Err(_) => Outcome::Other,
    }
}

/// Operators before the one that is read, so that it is the first, the second or the last of several.
const EARLIER: &[&[u8]] = &[&[], &[0x01], &[0x20, 0x81, 0x01, 0x41, 0x7f, 0x6a, 0x1a]];

/// Returns the concatenation of both.
fn joined(alloc: Global, bytes: &[u8], others: &[u8]) -> Result<Vec<u8>, AllocError> {
    let mut both = Vec::from_slice(alloc, bytes)?;
    both.extend_from_slice(others)?;
    Ok(both)
}

/// Returns the place `len` bytes after the first byte.
fn place_after(len: usize) -> u64 {
    PLACE.saturating_add(len as u64)
}

/// Returns the place of the error in these bytes, or `None` if they begin with an operator.
fn fault_place(bytes: &[u8]) -> Option<u64> {
    match read_operator(&mut Cursor::new(PLACE, bytes)) {
        Ok(_) => None,
        Err(Malformed { place }) => Some(place),
    }
}

/// Returns the result of reading these bytes as an expression that begins with the earlier operators.
fn outcome_after(alloc: Global, earlier: &[u8], bytes: &[u8]) -> Result<Outcome, AllocError> {
    let expression = joined(alloc, earlier, bytes)?;
    Ok(outcome_of(alloc, &expression))
}

/// Reports whether reading the bytes returns an error with this place, both as an operator and within an
/// expression, also after other operators.
fn is_fault_at(alloc: Global, bytes: &[u8], place: u64) -> Result<bool, AllocError> {
    for earlier in EARLIER {
        let later = place.saturating_add(earlier.len() as u64);
        if outcome_after(alloc, earlier, bytes)? != Outcome::Refused(later) {
            return Ok(false);
        }
    }
    Ok(fault_place(bytes) == Some(place))
}

/// Returns the number of bytes of the immediates that are taken at once: those of a float or a vector.
fn fixed_len(shape: Shape) -> usize {
    match shape {
        Shape::F32 => 4,
        Shape::F64 => 8,
        Shape::Vector | Shape::Lanes => 16,
        _ => 0,
    }
}

/// Reports whether each proper prefix of the operator is refused. The place is the end of the prefix, or that of
/// the first of the bytes that are taken at once.
fn is_refused_at_each_cut(alloc: Global, shape: Shape, bytes: &[u8]) -> Result<bool, AllocError> {
    let single = bytes.len().saturating_sub(fixed_len(shape));
    for len in 0..bytes.len() {
        if !is_fault_at(alloc, &bytes[..len], place_after(len.min(single)))? {
            return Ok(false);
        }
    }
    Ok(true)
}

/// Returns the expected result of reading an expression in which only two `end`s follow an operator with this
/// role. The operator occupies the bytes from `start` to `end`, counted from the first byte.
fn wanted_by(role: Role, start: usize, end: usize) -> Outcome {
    match role {
        Role::Plain => Outcome::Ended(place_after(end)),
        Role::Opens | Role::OpensIf | Role::OpensTry => {
            Outcome::Ended(place_after(end).saturating_add(1))
        }
        Role::Ends => Outcome::Ended(place_after(start)),
        Role::Else | Role::Catches | Role::CatchesAll | Role::Delegates => {
            Outcome::Refused(place_after(start))
        }
    }
}

/// Reports whether the operator, followed by two `end`s, is read as its role requires, also after other operators.
fn is_passed(alloc: Global, role: Role, bytes: &[u8]) -> Result<bool, AllocError> {
    let ended = joined(alloc, bytes, &[END, END])?;
    for earlier in EARLIER {
        let start = earlier.len();
        let wanted = wanted_by(role, start, start.saturating_add(bytes.len()));
        if outcome_after(alloc, earlier, &ended)? != wanted {
            return Ok(false);
        }
    }
    Ok(true)
}

/// Reports whether the bytes are exactly an operator whose immediates have this shape.
fn has_shape(bytes: &[u8], shape: Shape) -> bool {
    let mut cursor = Cursor::new(PLACE, bytes);
    match read_operator(&mut cursor) {
        Ok(operator) => operator.opcode.shape() == Some(shape) && cursor.is_empty(),
        Err(Malformed { .. }) => false,
    }
}

/// Reports whether the bytes are an operator with this shape and role, and each proper prefix is refused.
fn is_spelled(alloc: Global, (shape, role, bytes): Spelled<'_>) -> Result<bool, AllocError> {
    Ok(
        has_shape(bytes, shape)
            && is_passed(alloc, role, bytes)?
            && is_refused_at_each_cut(alloc, shape, bytes)?,
    )
}

/// Checks that the bytes of each row are an operator with its shape and role, that each proper prefix is refused, and
/// that damaged bytes are read alike as an operator and within an expression.
///
/// # Errors
///
/// - A row does not hold. The error is the name of the table with the number of the row.
fn expect_spelled(alloc: Global, name: &'static str, rows: &[Spelled<'_>]) -> Result<(), Fail> {
    for (row, spelled) in rows.iter().enumerate() {
        if !is_spelled(alloc, *spelled)? || !is_damaged_alike(alloc, spelled.2)? {
            return Err((name, row))?;
        }
    }
    Ok(())
}

#[test]
fn operators_are_read_whole_and_refused_if_truncated(rt: HostRuntime) -> Result<(), Fail> {
    expect_spelled(rt.alloc(), "control", CONTROL)?;
    expect_spelled(rt.alloc(), "indices", INDICES)?;
    expect_spelled(rt.alloc(), "numbers", NUMBERS)
}

#[test]
fn faults_have_their_places(rt: HostRuntime) -> Result<(), Fail> {
    for (row, (bytes, place)) in REFUSED.iter().enumerate() {
        assert!(rt;
            is_fault_at(rt.alloc(), bytes, *place)?,
            "row {row} of `REFUSED`"
        );
    }
    for (row, (bytes, place)) in FAULTY.iter().enumerate() {
        assert!(rt;
            outcome_of(rt.alloc(), bytes) == Outcome::Refused(*place),
            "row {row} of `FAULTY`"
        );
    }
    Ok(())
}
