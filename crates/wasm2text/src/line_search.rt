//! Finding lines of a text: the line that shows a byte of the module, and the header of the byte's function.
ghost use Rattle.std.specs.Prelude.{◌≡◌, ◌↔◌, IsTrue, MatchOption};
ghost use Rattle.wasmprinter_spec.specs.Lines as spec;
ghost use Rattle.wasmprinter_spec.specs.Lines.{line_places, line_from};
ghost use Rattle.wasmprinter.specs.Found.{text_lines};
ghost use Rattle.wasm2text.specs.Excerpt.{StartsAtZero, ShowsByte, IsHeader, IsPlaceOfBody, IsOutside, IsInBody, nearer};

use wasmprinter::wasm::{Body, Module};

/// Returns the index of the line that shows a byte: the first of the lines with the greatest place that is not after the
/// byte. The lines need not be in the order of their places: a branch hint is before its instruction in the text, and
/// before all functions in the module. The first line must have the place 0.
pub fn line_of_byte(lines: &[(Option<u64>, &str)], offset: u64) -> usize
    requires { StartsAtZero (text_lines lines.now) }
    ensures { ShowsByte (line_places (text_lines lines.now)) offset result }
{
    let mut shown = (0, 0);
    for index in 0..lines.len() {
        shown = nearer(shown, index, lines[index].0, offset);
    }
    shown.0
}

/// Returns the index and the place of a line, if the place is not after the byte and greater than that of the line that
/// was found so far. Otherwise returns the latter.
fn nearer(shown: (usize, u64), index: usize, place: Option<u64>, offset: u64) -> (usize, u64)
    ensures { result ≡ nearer shown index place offset }
{
    match place {
        Some(place) if place <= offset && shown.1 < place => (index, place),
        _ => shown,
    }
}

/// Returns the index of the header of the function to whose body a byte belongs, or `None` if it belongs to no body.
pub fn header_of_byte(
    module: &Module<'_>,
    lines: &[(Option<u64>, &str)],
    offset: u64,
) -> Option<usize>
    ensures { IsHeader «module».now (text_lines lines.now) offset result }
{
    for number in 0..module.function_count() {
        if let Some(place) = place_of_body(module, number, offset) {
            return first_line_at(lines, place);
        }
    }
    None
}

/// Returns the place of the body of a defined function, or `None` if a byte does not belong to the body.
fn place_of_body(module: &Module<'_>, number: u32, offset: u64) -> Option<u64>
    ensures { MatchOption result (IsOutside «module».now.functions offset number) (IsPlaceOfBody «module».now.functions offset number) }
{
    match module.body(number) {
        Some(body) if is_in_body(&body, offset) => Some(body.place()),
        _ => None,
    }
}

/// Returns whether a byte belongs to a body.
fn is_in_body(body: &Body<'_>, offset: u64) -> bool
    ensures { IsTrue result ↔ IsInBody body.now offset }
{
    body.place() <= offset && offset <= body.end()
}

/// Returns the index of the first line with a place, or `None` if no line has it.
fn first_line_at(lines: &[(Option<u64>, &str)], place: u64) -> Option<usize>
    ensures { result ≡ line_from 0 place (text_lines lines.now) }
{
    for number in 0..lines.len() {
        if has_place(lines[number].0, place) {
            return Some(number);
        }
    }
    None
}

/// Returns whether a line has a place.
fn has_place(start: Option<u64>, place: u64) -> bool
    ensures { result ≡ spec.has_place place start }
{
    match start {
        Some(start) => start == place,
        None => false,
    }
}
