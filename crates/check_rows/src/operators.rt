//! Rows of a single operator, each in one line of a file: the operator alone in a function, or folded. A folded
//! operator follows eight constants and precedes `select`, which takes three operands. So the text shows both counts:
//! the operator takes as many constants as it has operands, and `select` takes its results and further constants.

use crate::row::{Row, push_bytes};
use std::alloc::{AllocError, Global};
use wasmprinter::Config;
use wasmprinter_samples::PREAMBLE;
use wasmprinter_samples::modules_and_texts_from_parts::Part::{Body, Bytes, Section};
use wasmprinter_samples::modules_and_texts_from_parts::{
    NO_PARAMS, ONE_FUNCTION, Parts, add_parts, build,
};
use wasmprinter_samples::sections::{IMPORT, TAG, TYPE};

/// The parts before the code section of a module with an operator alone: a function without parameters.
const BEFORE_OPERATOR: Parts = &[Bytes(PREAMBLE), NO_PARAMS, ONE_FUNCTION];

/// The types of a module with a folded operator: functions with two i32 results, functions with two parameters and one
/// result, structures with three fields, arrays, and functions with one parameter.
const TYPES: &[u8] = &[
    0x05, // five types
    0x60, 0x00, 0x02, 0x7f, 0x7f, // of function 1
    0x60, 0x02, 0x7f, 0x7f, 0x01, 0x7f, // of function 0, which is imported
    0x5f, 0x03, 0x7f, 0x00, 0x7f, 0x00, 0x7f, 0x00, // structures
    0x5e, 0x7f, 0x00, // arrays
    0x60, 0x01, 0x7f, 0x00, // of the tag
];

/// The parts before the code section of a module with a folded operator: the types `TYPES`, an imported function of
/// type 1, a function of type 0, and a tag of type 4.
const BEFORE_NODE: Parts = &[
    Bytes(PREAMBLE),
    Section(TYPE, TYPES),
    Section(IMPORT, &[0x01, 0x00, 0x00, 0x00, 0x01]),
    ONE_FUNCTION,
    Section(TAG, &[0x01, 0x00, 0x04]),
];

/// The text before the body of a module with a folded operator, without the line feed at its end.
const NODE_HEADER: &str = r#"(module
  (type (;0;) (func (result i32 i32)))
  (type (;1;) (func (param i32 i32) (result i32)))
  (type (;2;) (struct (field i32) (field i32) (field i32)))
  (type (;3;) (array i32))
  (type (;4;) (func (param i32)))
  (import "" "" (func (;0;) (type 1) (param i32 i32) (result i32)))
  (tag (;0;) (type 4) (param i32))
  (func (;1;) (type 0) (result i32 i32)"#;

/// The text after the body, with the line feed that ends the body.
const FOOTER: &str = "\n  )\n)\n";

/// The first prefix: an opcode that begins with this byte or a greater one also has a number.
const FIRST_PREFIX: u32 = 0xfb;

/// The number of constants before a folded operator.
const CONSTANTS: u32 = 8;

/// The bytes of these constants, `i32.const 0` each.
const CONSTANT_BYTES: &[u8] = &[
    0x41, 0x00, 0x41, 0x00, 0x41, 0x00, 0x41, 0x00, 0x41, 0x00, 0x41, 0x00, 0x41, 0x00, 0x41, 0x00,
];

/// The opcode of `select`, the operator after a folded operator.
const SELECT: u8 = 0x1b;

/// The operand count of `select`.
const SELECT_OPERANDS: u32 = 3;

/// A folded operator: its operand and result counts, its bytes as hexadecimal digits, and its text. It has at most
/// five operands and three results.
#[derive(Drop)]
struct Node<'a> {
    operands: u32,
    results: u32,
    digits: &'a str,
    text: &'a str,
}

/// Parses a folded operator, or returns `None` if the words have another form.
fn node_in(words: &str) -> Option<Node<'_>> {
    let (arity, words) = words.split_once(": ")?;
    let (digits, text) = words.split_once(": ")?;
    let (operands, results) = arity.split_once('>')?;
    Some(Node {
        operands: operands.parse::<u32>().ok()?,
        results: results.parse::<u32>().ok()?,
        digits,
        text,
    })
}

/// Returns a number by which opcodes are in order, for the opcode at the start of these bytes: 2^14 times its first
/// byte, plus the number after a prefix, which is below 2^14. Returns 0 if there are no bytes.
fn opcode_of(operator: &[u8]) -> u32 {
    let byte = |index: usize| operator.get(index).map_or(0, |byte| u32::from(*byte));
    let prefix = byte(0) << 14;
    if byte(0) < FIRST_PREFIX {
        prefix
    } else if byte(1) < 0x80 {
        prefix | byte(1)
    } else {
        prefix | byte(1) & 0x7f | byte(2) << 7
    }
}

/// Returns the row of an operator alone, or `None` if the words are not its bytes and its text.
fn operator_row<'a>(
    alloc: Global,
    title: &'a str,
    words: &str,
) -> Result<Option<Row<'a>>, AllocError> {
    let Some((digits, line)) = words.split_once(": ") else {
        return Ok(None);
    };
    let mut operators = Vec::new(alloc);
    if !push_bytes(&mut operators, digits)? {
        return Ok(None);
    }
    let mut wasm = build(alloc, BEFORE_OPERATOR)?;
    add_parts(alloc, &mut wasm, &[Body(&operators)])?;
    let mut text = String::from_str(
        alloc,
        "(module\n  (type (;0;) (func))\n  (func (;0;) (type 0)\n    ",
    )?;
    text.push_str(line)?;
    text.push_str(FOOTER)?;
    let mut row = Row::with_text(alloc, title, Config::new(), wasm, text);
    row.set_opcode(opcode_of(&operators));
    Ok(Some(row))
}

/// Adds `count` constants, each on a line of its own after this indent.
fn add_constants(text: &mut String, indent: &str, count: u32) -> Result<(), AllocError> {
    for _ in 0..count {
        text.push('\n')?;
        text.push_str(indent)?;
        text.push_str("(i32.const 0)")?;
    }
    Ok(())
}

/// Adds the lines of the body with a folded operator, each after a line feed. `select` takes as operands the operator's
/// results and, for the others, the constants before its node.
fn add_body(text: &mut String, node: &Node<'_>) -> Result<(), AllocError> {
    let beside = SELECT_OPERANDS.saturating_sub(node.results);
    let left = CONSTANTS
        .saturating_sub(node.operands)
        .saturating_sub(beside);
    add_constants(text, "    ", left)?;
    text.push_str("\n    (select")?;
    add_constants(text, "      ", beside)?;
    text.push_str("\n      (")?;
    text.push_str(node.text)?;
    add_constants(text, "        ", node.operands)?;
    text.push_str("))")
}

/// Returns the row of a folded operator, or `None` if the words are not its counts, its bytes and its text.
fn node_row<'a>(alloc: Global, title: &'a str, words: &str) -> Result<Option<Row<'a>>, AllocError> {
    let Some(node) = node_in(words) else {
        return Ok(None);
    };
    let mut operators = Vec::from_slice(alloc, CONSTANT_BYTES)?;
    if !push_bytes(&mut operators, node.digits)? {
        return Ok(None);
    }
    operators.push(SELECT)?;
    let mut wasm = build(alloc, BEFORE_NODE)?;
    add_parts(alloc, &mut wasm, &[Body(&operators)])?;
    let mut text = String::from_str(alloc, NODE_HEADER)?;
    add_body(&mut text, &node)?;
    text.push_str(FOOTER)?;
    let mut config = Config::new();
    config.fold_instructions(true);
    Ok(Some(Row::with_text(alloc, title, config, wasm, text)))
}

/// Returns the row of an operator, or `None` if the line is not one or can't be read. The line is its title.
pub fn row_of_operator<'a>(alloc: Global, line: &'a str) -> Result<Option<Row<'a>>, AllocError> {
    if let Some(words) = line.strip_prefix("operator ") {
        return operator_row(alloc, line, words);
    }
    match line.strip_prefix("node ") {
        Some(words) => node_row(alloc, line, words),
        None => Ok(None),
    }
}
