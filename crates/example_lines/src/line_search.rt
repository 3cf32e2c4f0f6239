//! Searching the lines of a text.
ghost use Rattle.std.specs.Prelude.{◌<◌, MatchOption, IfSome, length, map};
ghost use Rattle.example_lines.specs.Places.{ShowsByte, IsAfterByte};
ghost use Rattle.example_lines.specs.Answers.{IsIndexFor, IsOutside};

use crate::query::Query;

/// A line with its place, the byte offset at which it starts, or `None` if the line shows nothing of the module.
pub type Line<'a> = (Option<u64>, &'a str);

/// Returns the index of the line that a query asks for, in a module with `len` bytes and these lines. Returns `None` if
/// the module has no such byte, if no line shows it, or if the text has no such line.
pub fn find(lines: &[Line<'_>], len: usize, query: Query) -> Option<usize>
    ensures within { IfSome result (λ index. index < length lines.now) }
    ensures found { let places = map (λ line. line.0) lines.now in
        MatchOption result (IsOutside places len query) (IsIndexFor places len query) }
{
    match query {
        Query::Byte(offset) if offset < len as u64 => line_of_byte(lines, offset),
        Query::Line(number) if 1 <= number && number <= lines.len() as u64 => {
            Some(number as usize - 1)
        }
        _ => None,
    }
}

/// Returns the index of the line that shows a byte: the last of the lines with the greatest place that is not after the
/// byte. The places of lines need not increase: a branch hint is before its operator in the text, and before all
/// functions in the module.
fn line_of_byte(lines: &[Line<'_>], offset: u64) -> Option<usize>
    ensures within { IfSome result (λ index. index < length lines.now) }
    ensures found { let places = map (λ line. line.0) lines.now in
        MatchOption result (IsAfterByte places offset) (ShowsByte places offset) }
{
    let mut found = None;
    let mut greatest = 0;
    for index in 0..lines.len() {
        if let Some(place) = lines[index].0 {
            if greatest <= place && place <= offset {
                found = Some(index);
                greatest = place;
            }
        }
    }
    found
}
