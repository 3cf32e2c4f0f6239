//! Tests of opcodes: reserved opcodes are malformed. No other opcode is, with zeros as immediates; those of blocks
//! are not tried. The row file `operators_flat.txt` has the line of each operator.

use std::alloc::{AllocError, Global};
use std::test::Fail;
use wasmprinter_expecting::is_malformed;
use wasmprinter_samples::PREAMBLE;
use wasmprinter_samples::modules_and_texts_from_parts::{NO_PARAMS, ONE_FUNCTION, Part, build};

/// Returns a module whose function has no parameters and has these operators, of fewer than 100 bytes.
fn with_operators(alloc: Global, operators: &[u8]) -> Result<Vec<u8>, AllocError> {
    build(
        alloc,
        &[
            Part::Bytes(PREAMBLE),
            NO_PARAMS,
            ONE_FUNCTION,
            Part::Body(operators),
        ],
    )
}

/// Returns the bytes of an opcode: its number alone if it has no prefix, otherwise the prefix and the number.
/// Numbers are below 2^14.
fn opcode(alloc: Global, prefix: u8, number: u32) -> Result<Vec<u8>, AllocError> {
    let mut bytes = Vec::new(alloc);
    if prefix != 0 {
        bytes.push(prefix)?;
    }
    if prefix == 0 || number < 0x80 {
        bytes.push((number % 0x100) as u8)?;
    } else {
        bytes.push((number % 0x80) as u8 + 0x80)?;
        bytes.push((number / 0x80 % 0x80) as u8)?;
    }
    Ok(bytes)
}

/// A prefix (0 for none) and a number.
type Code = (u8, u32);

/// The opcodes that open, divide and close blocks. The row file `text_operators.txt` has rows with each.
const BLOCK_OPCODES: &[u32] = &[0x02, 0x03, 0x04, 0x05, 0x06, 0x07, 0x0b, 0x18, 0x19, 0x1f];

/// The reserved opcodes, below the bounds of `NUMBERS`: the prefix (0 for none), and the first and last
/// number of a range.
const RESERVED: &[(u8, u32, u32)] = &[
    (0, 0x16, 0x17),
    (0, 0x1d, 0x1e),
    (0, 0x27, 0x27),
    (0, 0xc5, 0xcf),
    (0, 0xd7, 0xfa),
    (0xfb, 31, 63),
    (0xfc, 18, 18),
    (0xfc, 23, 63),
    (0xfd, 154, 154),
    (0xfd, 162, 162),
    (0xfd, 165, 166),
    (0xfd, 175, 176),
    (0xfd, 178, 180),
    (0xfd, 187, 187),
    (0xfd, 194, 194),
    (0xfd, 197, 198),
    (0xfd, 207, 208),
    (0xfd, 210, 212),
    (0xfd, 226, 226),
    (0xfd, 238, 238),
    (0xfd, 276, 511),
    (0xfe, 0x04, 0x0f),
    (0xfe, 0x4f, 0x7f),
];

/// Each prefix (0 for none) with the number after the last one that is tested: one-byte opcodes up to FA, those
/// after FB and FC up to 63, after FD up to 511, and after FE up to 7F.
const NUMBERS: &[Code] = &[(0, 0xfb), (0xfb, 64), (0xfc, 64), (0xfd, 512), (0xfe, 0x80)];

/// The number of operators, without those that open, divide and close blocks. `operators_flat.txt` has this
/// number of rows, each with another opcode.
const LISTED: u32 = 565;

/// Zeros, which can be read as immediates of any shape, or as operators.
const ZEROS: &[u8] = &[0x00; 20];

/// Reports whether an opcode followed by zeros is refused, with one `end` after them and also with two. An opcode that
/// opens a block needs two.
fn is_refused(alloc: Global, prefix: u8, number: u32) -> Result<bool, AllocError> {
    let mut bytes = opcode(alloc, prefix, number)?;
    bytes.extend_from_slice(ZEROS)?;
    let is_refused_alone = is_malformed(alloc, &with_operators(alloc, &bytes)?);
    bytes.push(0x0b)?;
    Ok(is_refused_alone && is_malformed(alloc, &with_operators(alloc, &bytes)?))
}

/// Reports whether an opcode is reserved.
fn is_reserved(prefix: u8, number: u32) -> bool {
    RESERVED.iter().any(|range| range.0 == prefix && range.1 <= number && number <= range.2)
}

/// Reports whether an opcode is one of those that open, divide and close blocks.
fn is_of_blocks(prefix: u8, number: u32) -> bool {
    prefix == 0 && BLOCK_OPCODES.contains(&number)
}

#[test]
fn refuses_exactly_the_reserved_opcodes(rt: HostRuntime) -> Result<(), Fail> {
    let mut listed: u32 = 0;
    for (prefix, end) in NUMBERS {
        for number in 0..*end {
            if is_of_blocks(*prefix, number) {
                continue;
            }
            let reserved = is_reserved(*prefix, number);
            let refused = is_refused(rt.alloc(), *prefix, number)?;
            assert!(rt; refused == reserved, "{prefix:#x} {number:#x}");
            if !refused {
                listed = listed.saturating_add(1);
            }
        }
    }
    assert!(rt; listed == LISTED);
    Ok(())
}
