//! The calls that need no memory. tools/failing_allocations.sh compares the number of allocations with and without
//! them.

use crate::comparing::{Comparing, are_text};
use crate::ending::Ending;
use crate::shapes::Shape;
use std::alloc::Global;
use wasmprinter::text::{write_bytes, write_f32, write_f64, write_quoted};
use wasmprinter::wasm::{Body, Catch, Immediates, Module, Names, Operator, Space, ValType, decode};
use wasmprinter::{Config, Error, OffsetsAndLines, place_of};

/// The operators of the function: the place and the word of each.
const OPERATORS: &[(u64, &str)] = &[
    (23, "try_table"),
    (28, "end"),
    (29, "br_table"),
    (33, "select"),
];

/// The number of the `br_table` among the operators, and of its line.
const BR_TABLE: (u32, usize) = (2, 5);

/// The number of lines of the module.
const LINES_LEN: usize = 9;

/// Sets each option of the printer. The text of the indent was allocated before.
fn set_all(indent: String) -> Config {
    let mut config = Config::default();
    config
        .print_offsets(true)
        .print_skeleton(true)
        .name_unnamed(true)
        .fold_instructions(true)
        .indent_text(indent);
    config
}

/// Returns whether the lists in an operator's immediates are the expected ones.
fn are_lists(operator: &Operator<'_>) -> bool {
    match &operator.immediates {
        Immediates::TryTable(_, catches) => catches.iter().eq([Catch::All(0)]),
        Immediates::BrTable(targets, otherwise) => *otherwise == 0 && targets.iter().eq([0]),
        Immediates::Types(types) => types.iter().eq([ValType::I32]),
        _ => true,
    }
}

/// Returns whether a body has the expected operators.
fn are_operators(body: &Body<'_>) -> bool {
    let mut count = 0;
    for (place, operator) in body.operators() {
        let found = (place, operator.opcode.word());
        if OPERATORS.get(count) != Some(&found) || !are_lists(&operator) {
            return false;
        }
        count += 1;
    }
    count == OPERATORS.len()
}

/// Returns whether the module has one function with the expected operators.
fn is_module(module: &Module<'_>) -> bool {
    match module.body(0) {
        Some(body) => module.function_count() == 1 && are_operators(&body),
        None => false,
    }
}

/// Returns whether the module and its function have their names.
fn are_names(names: &Names<'_>) -> bool {
    names.module() == Some("m") && names.identifier(Space::Func, 0, 0) == Some("f")
}

/// Writes four values with the functions for single values, and returns whether their text is the expected one.
fn writes_values() -> Result<bool, Error> {
    let mut printer = Comparing::new("0x1p+0-0x1p+1\"a\"\"\\00\"");
    write_f32(&mut printer, 0x3f80_0000)?;
    write_f64(&mut printer, 0xc000_0000_0000_0000)?;
    write_quoted(&mut printer, "a")?;
    write_bytes(&mut printer, &[0])?;
    Ok(printer.is_whole())
}

/// Returns the first lines. If there are fewer, the others are empty.
fn first_lines<'a>(lines: OffsetsAndLines<'a>) -> [(Option<u64>, &'a str); LINES_LEN] {
    let mut first = [(None, ""); LINES_LEN];
    let mut count = 0;
    for line in lines {
        if count < LINES_LEN {
            first[count] = line;
            count += 1;
        }
    }
    first
}

/// Returns whether the line of the `br_table` is found.
fn finds_line(module: &Module<'_>, lines: &[(Option<u64>, &str)]) -> bool {
    let (operator, line) = BR_TABLE;
    place_of(module, lines, 0, operator) == Some((line, 29))
}

/// Decodes a module, reads its names and prints it in lines. If `are_made` is set, then makes the calls that need
/// no memory.
fn calls(alloc: Global, shape: &Shape, are_made: bool) -> Result<Ending, Error> {
    let module = decode(alloc, shape.wasm)?;
    let names = module.names(alloc)?;
    let indent = String::from_str(alloc, "\t")?;
    let mut storage = String::new(alloc);
    let lines = Config::new().offsets_and_lines(alloc, shape.wasm, &mut storage)?;
    let mut other_storage = String::new(alloc);
    let others = Config::new().offsets_and_lines(alloc, shape.wasm, &mut other_storage)?;
    let placed = first_lines(others);
    if !are_made {
        return Ok(Ending::Printed);
    }
    let _ = set_all(indent);
    let ending = Ending::of(is_module(&module), "wrong operators")
        .or(Ending::of(are_names(&names), "wrong names"))
        .or(Ending::of(writes_values()?, "wrong values"))
        .or(Ending::of(are_text(lines, shape.text), "wrong lines"))
        .or(Ending::of(finds_line(&module, &placed), "wrong line"));
    Ok(ending)
}

/// Returns the ending of these calls.
pub fn ending_of_calls(alloc: Global, shape: &Shape, are_made: bool) -> Ending {
    match calls(alloc, shape, are_made) {
        Ok(ending) => ending,
        Err(error) => Ending::of_error(error),
    }
}
