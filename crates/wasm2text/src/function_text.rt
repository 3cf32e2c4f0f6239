//! The text of one function of a module.
ghost use Rattle.std.specs.Prelude.{◌≡◌, ◌<◌, ◌≤◌, IfOk, IfErr, MatchOption, length, string_bytes};
ghost use Rattle.wasmprinter_spec.specs.Placed.{PlacedModule};
ghost use Rattle.wasmprinter_spec.specs.Binary.{Spells};
ghost use Rattle.wasmprinter_spec.specs.Lines.{joined_lines};
ghost use Rattle.wasmprinter.specs.Found.{text_lines};
ghost use Rattle.wasm2text.specs.FunctionText.{function_view, HasRange, StartsAt, EndsAt, IsTextOfRange, IsFunctionTextOf, IsFunctionRefusal};

use crate::cause::Cause;
use crate::decoded::decoded;
use crate::function_ref::FunctionRef;
use crate::function_search::{PlaceRange, range_of_function};
use crate::text_options::TextOptions;
use std::alloc::{AllocError, Global};
use wasmprinter::OffsetsAndLines;

/// Returns the text of a function, which is a part of the text of the module with these options.
///
/// # Errors
///
/// - `Module`: the module can't be printed, or an allocation failed.
/// - `NoFunction`: the module has no such function.
pub fn text_of_function(
    alloc: Global,
    options: TextOptions<'_>,
    wasm: &[u8],
    function: FunctionRef<'_>,
) -> Result<String, Cause>
    ensures shown { IfOk result (λ text. IsFunctionTextOf options.entry.config.now wasm.now (function_view function.entry) (string_bytes text)) }
    ensures refused { IfErr result (IsFunctionRefusal options.entry.config.now wasm.now (function_view function.entry)) }
{
    let mut storage = String::new(alloc);
    let lines = options.config.offsets_and_lines(alloc, wasm, &mut storage)?;
    match range_in_module(alloc, wasm, options.synthesizes, function)? {
        Some(range) => Ok(text_of_range(alloc, lines, range)?),
        None => Err(Cause::NoFunction),
    }
}

/// Returns the range of places of a function of the module that the bytes encode, or `None` if the module has no such
/// function.
fn range_in_module(
    alloc: Global,
    wasm: &[u8],
    synthesizes: bool,
    function: FunctionRef<'_>,
) -> Result<Option<PlaceRange>, AllocError>
    ensures { IfOk result (λ found. (m : PlacedModule) × Spells wasm.now m
        × MatchOption found ((range : PlaceRange) → HasRange synthesizes m (function_view function.entry) range → ⊥) (HasRange synthesizes m (function_view function.entry))) }
{
    let module = decoded(alloc, wasm)?;
    range_of_function(alloc, &module, synthesizes, function)
}

/// Returns the text of the lines from the first to the last that have a place in a range.
fn text_of_range(
    alloc: Global,
    lines: OffsetsAndLines<'_>,
    range: PlaceRange,
) -> Result<String, AllocError>
    ensures { IfOk result (λ text. IsTextOfRange lines.entry.lines range (string_bytes text)) }
{
    let lines: Vec<(Option<u64>, &str)> = lines.collect(alloc)?;
    let start = start_of_range(&lines, range);
    let end = end_of_range(&lines, range, start);
    join(alloc, &lines[start..end])
}

/// Returns the index of the first line that has a place in a range, or the number of lines if there is none.
fn start_of_range(lines: &[(Option<u64>, &str)], range: PlaceRange) -> usize
    ensures { StartsAt (text_lines lines.now) range result }
{
    for index in 0..lines.len() {
        if range.contains(lines[index].0) {
            return index;
        }
    }
    lines.len()
}

/// Returns the index after that of the last line that has a place in a range, or `start` if there is none from there on.
fn end_of_range(lines: &[(Option<u64>, &str)], range: PlaceRange, start: usize) -> usize
    requires { start ≤ length lines.now }
    ensures { EndsAt (text_lines lines.now) range start result }
{
    let mut end = lines.len();
    while start < end && !range.contains(lines[end - 1].0) {
        end -= 1;
    }
    end
}

/// Returns the texts of lines, one after the other.
fn join(alloc: Global, lines: &[(Option<u64>, &str)]) -> Result<String, AllocError>
    ensures { IfOk result (λ text. string_bytes text ≡ joined_lines (text_lines lines.now)) }
{
    let mut text = String::new(alloc);
    for line in lines {
        text.push_str(line.1)?;
    }
    Ok(text)
}
