//! Tests of damaged operators: each byte of each operator is replaced by others, and the result is truncated at each
//! byte. Reading an operator and reading an expression have the same result, and report the same place.

use super::{PLACE, is_fault_at, is_passed, is_spelled};
use std::alloc::{AllocError, Global};
use std::test::Fail;
use wasmprinter_bytes::Malformed;
use wasmprinter_bytes::cursor::Cursor;
use wasmprinter_ops::opcode_shapes_arities_and_roles::{Listed, Opcode, Shape};
use wasmprinter_ops::operator::read_operator;

/// The bytes that replace each byte.
const OTHERS: &[u8] = &[0x00, 0x04, 0x40, 0x7f, 0x80, 0xff];

/// Each prefix (0 for none) and a number that is greater than those of its opcodes.
const BOUNDS: &[(u8, u32)] = &[
    (0, 0x100),
    (0xfb, 0x80),
    (0xfc, 0x80),
    (0xfd, 0x200),
    (0xfe, 0x80),
];

/// The number of opcodes that are listed.
const LISTED: u32 = 575;

/// Reports whether an expression, also after other operators, has the result of reading an operator from these bytes:
/// the operator, or an error with the same place.
fn is_read_alike(alloc: Global, bytes: &[u8]) -> Result<bool, AllocError> {
    let mut cursor = Cursor::new(PLACE, bytes);
    match read_operator(&mut cursor) {
        Ok(operator) => {
            let len = bytes.len().saturating_sub(cursor.len());
            match bytes.get(..len) {
                Some(read) => is_passed(alloc, operator.opcode.role(), read),
                None => Ok(false),
            }
        }
        Err(Malformed { place }) => is_fault_at(alloc, bytes, place),
    }
}

/// Reports whether all prefixes of these bytes are read alike.
fn are_prefixes_read_alike(alloc: Global, bytes: &[u8]) -> Result<bool, AllocError> {
    for len in 0..=bytes.len() {
        if !is_read_alike(alloc, &bytes[..len])? {
            return Ok(false);
        }
    }
    Ok(true)
}

/// Returns the bytes with another one in place of the one at this index.
fn replaced(alloc: Global, bytes: &[u8], index: usize, other: u8) -> Result<Vec<u8>, AllocError> {
    let mut changed = Vec::new(alloc);
    for (at, byte) in bytes.iter().enumerate() {
        changed.push(if at == index { other } else { *byte })?;
    }
    Ok(changed)
}

/// Reports whether all prefixes are read alike, if each of `OTHERS` replaces the byte at this index.
fn is_read_alike_without(alloc: Global, bytes: &[u8], index: usize) -> Result<bool, AllocError> {
    for other in OTHERS {
        let changed = replaced(alloc, bytes, index, *other)?;
        if !are_prefixes_read_alike(alloc, &changed)? {
            return Ok(false);
        }
    }
    Ok(true)
}

/// Reports whether the bytes of an operator are read alike if a byte is replaced and the result is truncated.
pub fn is_damaged_alike(alloc: Global, bytes: &[u8]) -> Result<bool, AllocError> {
    for index in 0..bytes.len() {
        if !is_read_alike_without(alloc, bytes, index)? {
            return Ok(false);
        }
    }
    Ok(true)
}

/// Returns the bytes of immediates with this shape. They have numbers of two bytes, so each kind of byte is damaged.
fn immediates_of(shape: Shape) -> &'static [u8] {
    match shape {
        Shape::None => &[],
        Shape::Fence => &[0x00],
        Shape::Block => &[0x63, 0x81, 0x01],
        Shape::TryTable => &[0x40, 0x02, 0x00, 0x85, 0x01, 0x01, 0x03, 0x02],
        Shape::Index(_) | Shape::DefaultIndex(_) | Shape::Heap | Shape::Ref(_) => &[0x81, 0x01],
        Shape::Pair(_, _)
        | Shape::Field
        | Shape::Count
        | Shape::Call
        | Shape::Segment(_, _)
        | Shape::Copy(_) => &[0x81, 0x01, 0x82, 0x01],
        Shape::BranchTable => &[0x02, 0x00, 0x81, 0x01, 0x04],
        Shape::Select => &[0x02, 0x7b, 0x64, 0x81, 0x01],
        Shape::Cast => &[0x01, 0x81, 0x01, 0x6e, 0x82, 0x01],
        Shape::Memory(_) => &[0x42, 0x01, 0x88, 0x01],
        Shape::MemoryLane(_) => &[0x42, 0x01, 0x88, 0x01, 0x07],
        Shape::Lane => &[0x05],
        Shape::I32 | Shape::I64 => &[0xff, 0x00],
        Shape::F32 => &[0x11, 0x22, 0x33, 0x44],
        Shape::F64 => &[0x11, 0x22, 0x33, 0x44, 0x55, 0x66, 0x77, 0x88],
        Shape::Vector | Shape::Lanes => &[1, 2, 3, 4, 5, 6, 7, 8, 9, 10, 11, 12, 13, 14, 15, 16],
    }
}

/// Returns the bytes of an opcode. A number after a prefix takes two bytes.
fn opcode_bytes(alloc: Global, opcode: Opcode) -> Result<Vec<u8>, AllocError> {
    let mut bytes = Vec::new(alloc);
    if opcode.prefix == 0 {
        bytes.push((opcode.number % 0x100) as u8)?;
    } else {
        bytes.push(opcode.prefix)?;
        bytes.push((opcode.number % 0x80) as u8 + 0x80)?;
        bytes.push((opcode.number / 0x80 % 0x80) as u8)?;
    }
    Ok(bytes)
}

/// Reports whether an operator with this opcode and shape is read whole, and read alike if it is damaged.
fn is_opcode_damaged_alike(
    alloc: Global,
    opcode: Opcode,
    shape: Shape,
) -> Result<bool, AllocError> {
    let mut bytes = opcode_bytes(alloc, opcode)?;
    bytes.extend_from_slice(immediates_of(shape))?;
    Ok(is_spelled(alloc, (shape, opcode.role(), &bytes))? && is_damaged_alike(alloc, &bytes)?)
}

#[test]
fn each_operator_is_read_alike_if_it_is_damaged(rt: HostRuntime) -> Result<(), Fail> {
    let mut listed: u32 = 0;
    for (prefix, bound) in BOUNDS {
        for number in 0..*bound {
            let opcode = Opcode {
                prefix: *prefix,
                number,
            };
            if let Some(shape) = opcode.shape() {
                listed = listed.saturating_add(1);
                assert!(rt;
                    is_opcode_damaged_alike(rt.alloc(), opcode, shape)?,
                    "{prefix:#x} {number:#x}"
                );
            }
        }
    }
    assert!(rt; listed == LISTED);
    Ok(())
}
