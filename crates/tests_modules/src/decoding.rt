//! Tests of decoded modules: functions, bodies, operators, locals, types and exports.

use crate::limits::{MODULE_OF_MOST_FUNCTIONS, MOST_FUNCTIONS};
use std::alloc::{AllocError, Global};
use std::test::Fail;
use wasmprinter::Error;
use wasmprinter::wasm::{
    BlockType, Body, Catch, Immediates, Module, Opcode, Operator, OperatorsReader, ValType, decode,
};
use wasmprinter_decoder::{BodyParts, Export, ExternKind, Fields, LocalEntry, TypeGroup};
use wasmprinter_ops::opcode_shapes_arities_and_roles::Listed;
use wasmprinter_samples::modules_and_texts_from_parts::Part::Bytes;
use wasmprinter_samples::modules_and_texts_from_parts::{Parts, build};
use wasmprinter_samples::{CONTROL, EVERYTHING, PREAMBLE};

/// The expected immediates of an operator, with lists as slices.
#[derive(Clone, Copy)]
enum Wanted {
    None,
    Index(u32),
    I32(i32),
    I64(i64),
    Block(BlockType),
    TryTable(BlockType, &'static [Catch]),
    BrTable(&'static [u32], u32),
}

impl Wanted {
    /// Reports whether these are the immediates.
    fn are(self, immediates: &Immediates<'_>) -> bool {
        match (immediates, self) {
            (Immediates::None, Wanted::None) => true,
            (Immediates::Index(found), Wanted::Index(index)) => *found == index,
            (Immediates::I32(found), Wanted::I32(number)) => *found == number,
            (Immediates::I64(found), Wanted::I64(number)) => *found == number,
            (Immediates::Block(found), Wanted::Block(block_type)) => *found == block_type,
            (Immediates::TryTable(found, clauses), Wanted::TryTable(block_type, catches)) => {
                *found == block_type && clauses.iter().eq(catches.iter().copied())
            }
            (Immediates::BrTable(labels, found), Wanted::BrTable(targets, otherwise)) => {
                *found == otherwise && labels.iter().eq(targets.iter().copied())
            }
            _ => false,
        }
    }
}

/// An operator: its place, the number of its opcode, its word and its immediates.
type Row = (u64, u32, &'static str, Wanted);

/// The operators of the second body of `EVERYTHING`.
const OPERATORS: &[Row] = &[
    (0x2f, 0x41, "i32.const", Wanted::I32(-2)),
    (0x31, 0x42, "i64.const", Wanted::I64(i64::MIN)),
    (0x3c, 0x1a, "drop", Wanted::None),
    (0x3d, 0x21, "local.set", Wanted::Index(1)),
    (0x3f, 0x20, "local.get", Wanted::Index(1)),
    (0x42, 0x10, "call", Wanted::Index(0)),
    (0x44, 0x0f, "return", Wanted::None),
];

/// The catch clauses of `CONTROL`.
const CATCHES: &[Catch] = &[
    Catch::One(2, 0),
    Catch::OneRef(3, 1),
    Catch::All(0),
    Catch::AllRef(0),
];

/// The operators of `CONTROL`.
const BLOCKS: &[Row] = &[
    (0x1c, 0x02, "block", Wanted::Block(BlockType::Empty)),
    (0x1e, 0x41, "i32.const", Wanted::I32(0)),
    (
        0x20,
        0x04,
        "if",
        Wanted::Block(BlockType::Value(ValType::I32)),
    ),
    (0x22, 0x41, "i32.const", Wanted::I32(1)),
    (0x24, 0x05, "else", Wanted::None),
    (0x25, 0x41, "i32.const", Wanted::I32(2)),
    (0x27, 0x0b, "end", Wanted::None),
    (0x28, 0x0e, "br_table", Wanted::BrTable(&[0, 1], 0)),
    (0x2d, 0x0b, "end", Wanted::None),
    (0x2e, 0x03, "loop", Wanted::Block(BlockType::Func(1))),
    (0x30, 0x01, "nop", Wanted::None),
    (0x31, 0x0c, "br", Wanted::Index(0)),
    (0x33, 0x0b, "end", Wanted::None),
    (0x34, 0x06, "try", Wanted::Block(BlockType::Empty)),
    (0x36, 0x00, "unreachable", Wanted::None),
    (0x37, 0x18, "delegate", Wanted::Index(0)),
    (0x39, 0x06, "try", Wanted::Block(BlockType::Empty)),
    (0x3b, 0x08, "throw", Wanted::Index(3)),
    (0x3d, 0x07, "catch", Wanted::Index(3)),
    (0x3f, 0x09, "rethrow", Wanted::Index(0)),
    (0x41, 0x19, "catch_all", Wanted::None),
    (0x42, 0x0d, "br_if", Wanted::Index(0)),
    (0x44, 0x0b, "end", Wanted::None),
    (
        0x45,
        0x1f,
        "try_table",
        Wanted::TryTable(BlockType::Empty, CATCHES),
    ),
    (0x52, 0x0a, "throw_ref", Wanted::None),
    (0x53, 0x0b, "end", Wanted::None),
];

/// Returns the place of the first operator that is missing, different or surplus, or `None` if the reader returns
/// exactly `rows`.
fn difference(mut reader: OperatorsReader<'_>, rows: &[Row]) -> Option<u64> {
    for (wanted_place, number, word, immediates) in rows {
        let Some((place, operator)): Option<(u64, Operator<'_>)> = reader.next() else {
            return Some(*wanted_place);
        };
        let is_wanted = place == *wanted_place
            && operator.opcode
                == Opcode {
                    prefix: 0,
                    number: *number,
                }
            && operator.opcode.word() == *word
            && immediates.are(&operator.immediates);
        if !is_wanted {
            return Some(*wanted_place);
        }
    }
    match reader.next() {
        Some((place, _)) => Some(place),
        None => None,
    }
}

/// Reports whether a module defines `count` functions: the last of them has a body, and neither `count` nor the
/// greatest index has one.
fn has_functions(module: &Module<'_>, count: u32) -> bool {
    module.function_count() == count
        && (count == 0 || module.body(count.saturating_sub(1)).is_some())
        && module.body(count).is_none()
        && module.body(u32::MAX).is_none()
}

/// Reports whether a module of these parts defines `count` functions.
fn defines(alloc: Global, parts: Parts, count: u32) -> Result<bool, Error> {
    let wasm = build(alloc, parts)?;
    let module = decode(alloc, &wasm)?;
    Ok(has_functions(&module, count))
}

/// A module: the name of the row, the parts, and the number of functions that it defines.
type Count = (&'static str, Parts, u32);

const COUNTS: &[Count] = &[
    ("no functions", &[Bytes(PREAMBLE)], 0),
    ("two functions", &[Bytes(EVERYTHING)], 2),
];

/// Returns the name of the first row that is refused or has another number of functions, or `None` if there is no such
/// row.
fn first_other_count(alloc: Global, rows: &[Count]) -> Option<&'static str> {
    for (name, parts, count) in rows {
        if !matches!(defines(alloc, parts, *count), Ok(true)) {
            return Some(*name);
        }
    }
    None
}

#[test]
fn counts_the_functions_that_are_defined(rt: HostRuntime) {
    let other = first_other_count(rt.alloc(), COUNTS);
    assert!(rt; other == None, "{other:?}");
}

#[test]
fn counts_a_million_functions(rt: HostRuntime) -> Result<(), Fail> {
    assert!(rt; defines(rt.alloc(), MODULE_OF_MOST_FUNCTIONS, MOST_FUNCTIONS)?);
    Ok(())
}

/// Reports whether the first body of `EVERYTHING` has no operators, and each reader over the second starts at the
/// first of `OPERATORS` and returns exactly these.
fn has_bodies(module: &Module<'_>) -> bool {
    let Some(first) = module.body(0) else {
        return false;
    };
    let Some(second) = module.body(1) else {
        return false;
    };
    difference(first.operators(), &[]).is_none()
        && difference(second.operators(), OPERATORS).is_none()
        && difference(second.operators(), OPERATORS).is_none()
        && difference(second.operators(), &OPERATORS[..6]) == Some(0x44)
}

/// Reports whether the body of `CONTROL` has its operators and the right end.
fn has_blocks(module: &Module<'_>) -> bool {
    match module.body(0) {
        Some(body) => difference(body.operators(), BLOCKS).is_none() && body.end() == 0x54,
        None => false,
    }
}

#[test]
fn walks_over_operators(rt: HostRuntime) -> Result<(), Fail> {
    let module = decode(rt.alloc(), EVERYTHING)?;
    assert!(rt; has_bodies(&module));
    let module = decode(rt.alloc(), CONTROL)?;
    assert!(rt; has_blocks(&module));
    Ok(())
}

/// Reports whether these are the types of `EVERYTHING`.
fn are_types(groups: &[TypeGroup<'_>]) -> bool {
    match groups {
        [first, second] => first.place() == 0x0b && second.place() == 0x0e,
        _ => false,
    }
}

/// Reports whether an export is that of this function, with this place and name.
fn is_export(export: &Export<'_>, place: u64, name: &str, function: u32) -> bool {
    export.place() == place
        && export.name() == name
        && export.kind() == ExternKind::Func
        && export.index() == function
}

/// Reports whether these are the exports of `EVERYTHING`.
fn are_exports(exports: &[Export<'_>]) -> bool {
    match exports {
        [first, second] => is_export(first, 0x1b, "go", 1) && is_export(second, 0x20, "", 0),
        _ => false,
    }
}

/// Reports whether the module has the size, the types and the exports of `EVERYTHING`.
fn has_types_and_exports(module: &Module<'_>) -> bool {
    module.size() == 70 && are_types(module.types()) && are_exports(module.exports())
}

/// Reports whether there is a group of locals with this place, count and type.
fn is_entry(entry: Option<LocalEntry>, place: u64, count: u32, val_type: ValType) -> bool {
    match entry {
        Some(entry) => {
            entry.place() == place && entry.count() == count && entry.val_type() == val_type
        }
        None => false,
    }
}

/// Reports whether a body has the locals of the second body of `EVERYTHING`.
fn has_locals(body: &Body<'_>) -> bool {
    let mut locals = body.locals();
    locals.len() == 2
        && is_entry(locals.next(), 0x2b, 2, ValType::I32)
        && is_entry(locals.next(), 0x2d, 1, ValType::I64)
}

/// Reports whether the module has the second body of `EVERYTHING`, with its locals.
fn has_second_body(module: &Module<'_>) -> bool {
    match module.body(1) {
        Some(body) => body.place() == 0x2a && body.end() == 0x45 && has_locals(&body),
        None => false,
    }
}

/// Reports whether the first function of the module is that of `EVERYTHING`.
fn has_first_function(module: &Module<'_>) -> bool {
    if module.function_count() != 2 {
        return false;
    }
    let function = module.function(0);
    function.type_index() == 1 && function.body().place() == 0x27 && function.body().end() == 0x28
}

#[test]
fn gives_out_types_exports_and_bodies(rt: HostRuntime) -> Result<(), Fail> {
    let module = decode(rt.alloc(), EVERYTHING)?;
    assert!(rt; has_types_and_exports(&module));
    assert!(rt; has_second_body(&module) && has_first_function(&module));
    Ok(())
}

// ---- opcodes

/// Opcodes that are not in the table of operators.
const NOT_LISTED: &[(u8, u32)] = &[
    (0, 0x27),
    (0, 0x100),
    (0, u32::MAX),
    (0xfc, 18),
    (0xfc, 0x100),
    (0xfb, 31),
    (0xfd, 154),
    (0xfd, 0x1_0000),
    (0xfe, 0x04),
    (0xff, 0x00),
];

/// Returns the first of these opcodes that has a word, or `None` if there is no such opcode.
fn first_with_word(opcodes: &[(u8, u32)]) -> Option<(u8, u32)> {
    for (prefix, number) in opcodes {
        let opcode = Opcode {
            prefix: *prefix,
            number: *number,
        };
        if !opcode.word().is_empty() {
            return Some((*prefix, *number));
        }
    }
    None
}

#[test]
fn gives_no_words_to_opcodes_that_are_not_listed(rt: HostRuntime) {
    let listed = first_with_word(NOT_LISTED);
    assert!(rt; listed == None, "{listed:?}");
}

/// Numbers of opcodes, each with the shape of its immediates.
const SHAPES: &[(u32, &str)] = &[
    (0x0f, "Some(None)"),
    (0x10, "Some(Index(Func))"),
    (0x21, "Some(Index(Local))"),
    (0x41, "Some(I32)"),
    (0x42, "Some(I64)"),
    (0x06, "Some(Block)"),
    (0x0d, "Some(Index(Label))"),
    (0x27, "None"),
];

/// Reports whether the debug text of the shape of an opcode without a prefix is the expected one.
fn is_shape(alloc: Global, number: u32, shape: &str) -> Result<bool, AllocError> {
    let found = Opcode { prefix: 0, number }.shape();
    let shown = format!(in alloc; "{found:?}")?;
    Ok(shown.as_str() == shape)
}

/// Returns the number of the first opcode that has another shape, or `None` if there is no such opcode.
fn first_other_shape(alloc: Global, rows: &[(u32, &str)]) -> Result<Option<u32>, AllocError> {
    for (number, shape) in rows {
        if !is_shape(alloc, *number, shape)? {
            return Ok(Some(*number));
        }
    }
    Ok(None)
}

#[test]
fn gives_shapes_to_listed_opcodes(rt: HostRuntime) -> Result<(), Fail> {
    let other = first_other_shape(rt.alloc(), SHAPES)?;
    assert!(rt; other == None, "{other:?}");
    Ok(())
}
