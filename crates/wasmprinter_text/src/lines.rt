//! Lines with their places and indentation, and the closing of groups.
ghost use Rattle.std.specs.Prelude.{◌≡◌, ◌≤◌, ◌+◌, min, [], ◌∷◌, ◌++◌, ◌||◌, false, true, None, Some};
ghost use Rattle.std.specs.Fmt.{digits};
ghost use Rattle.wasmprinter_spec.specs.Call.{Text, Newline, Line};
ghost use Rattle.wasmprinter_spec.specs.Piece.{Begin, EndLine, Break, most_indents, repetition_of, left_in, place_width, place_calls};
ghost use Rattle.wasmprinter_spec.specs.Layout.Groups.{close};
ghost use Rattle.wasmprinter_print.specs.OutputLaws.{ClosedGroup, groups, close_at};

use crate::integers::{hexadecimal_len, write_hexadecimal};
use wasmprinter_print::{Output, Style};

/// The number of characters to which a place is padded with spaces.
const PLACE_WIDTH: usize = 6;

/// The width of a padded place with its comment delimiters.
const COMMENT_WIDTH: usize = 11;

/// The maximum number of levels by which a line is indented. Lines that are nested deeper are indented by this
/// many levels.
const MOST_INDENTS: u64 = 50;

/// Writes a text `count` times.
fn write_repeated<O: Output>(out: &mut O, s: &str, count: usize)
    ensures { O.called out.old out.new (Text (repetition_of count s.now) ∷ []) }
{
    for _ in 0..count {
        out.write_str(s);
    }
}

/// Writes a place in hexadecimal, padded with spaces on the right.
#[tactic(auto, unfolding(wasmprinter_spec::specs::Piece::left_in), using(wasmprinter_print::proofs::Repeats::repeated_space))]
fn write_filled<O: Output>(out: &mut O, place: u64)
    ensures { O.called out.old out.new (Text (left_in place_width (digits 16 false place)) ∷ []) }
{
    write_hexadecimal(out, place);
    write_repeated(out, " ", PLACE_WIDTH.saturating_sub(hexadecimal_len(place)));
}

/// Writes a padded place between two texts.
fn write_filled_between<O: Output>(out: &mut O, before: &str, place: u64, after: &str)
    ensures { O.called out.old out.new (Text (before.now ++ (left_in place_width (digits 16 false place) ++ after.now)) ∷ []) }
{
    out.write_str(before);
    write_filled(out, place);
    out.write_str(after);
}

/// Writes a place as a comment.
#[tactic(auto, unfolding(wasmprinter_spec::specs::Piece::place_text))]
fn write_place<O: Output>(out: &mut O, place: u64)
    ensures { O.called out.old out.new (place_calls true (Some place)) }
{
    out.start(Style::Comment);
    write_filled_between(out, "(;@", place, ";)");
    out.reset_color();
}

/// Writes a place as a comment, or the same number of spaces if the line has no place.
#[tactic(auto, unfolding(wasmprinter_spec::specs::Piece::place_text, wasmprinter_spec::specs::Piece::repetition_of))]
fn write_offset<O: Output>(out: &mut O, place: Option<u64>)
    ensures { O.called out.old out.new (place_calls true place) }
{
    match place {
        Some(place) => write_place(out, place),
        None => write_repeated(out, " ", COMMENT_WIDTH),
    }
}

/// Writes the place of a line as a comment if the options ask for places.
fn write_wanted_offset<O: Output>(out: &mut O, place: Option<u64>)
    ensures { O.called out.old out.new (place_calls O.chosen.offsets place) }
{
    if out.offsets() {
        write_offset(out, place);
    }
}

/// Writes the indentation of this number of levels, level by level.
fn write_each_level<O: Output>(out: &mut O, levels: usize)
    ensures { O.called out.old out.new (Text (repetition_of levels O.chosen.indent) ∷ []) }
{
    for _ in 0..levels {
        out.write_level();
    }
}

/// Writes the indentation of this number of levels.
fn write_indent<O: Output>(out: &mut O, levels: usize)
    requires { levels ≤ most_indents }
    ensures { O.called out.old out.new (Text (repetition_of levels O.chosen.indent) ∷ []) }
{
    if !out.write_levels(levels) {
        write_each_level(out, levels);
    }
}

/// Returns the number of levels by which a line at nesting depth `nesting + depth` is indented.
fn levels_of(nesting: u64, depth: u64) -> usize
    ensures is { result ≡ min (nesting + depth) most_indents }
    ensures few { result ≤ most_indents }
{
    nesting.saturating_add(depth).min(MOST_INDENTS) as usize
}

/// Starts a new line that is indented by this number of levels.
fn write_line_start<O: Output>(out: &mut O, place: Option<u64>, levels: usize)
    requires { levels ≤ most_indents }
    ensures { O.called out.old out.new (Newline ∷ (Line place ∷ (place_calls O.chosen.offsets place
        ++ (Text (repetition_of levels O.chosen.indent) ∷ [])))) }
{
    out.end_line();
    out.start_line(place);
    write_wanted_offset(out, place);
    write_indent(out, levels);
}

/// Starts the first line, at this place: a byte offset from the start of the module. It writes no text: neither the
/// place nor an indent.
pub fn start_first_line<O: Output>(out: &mut O, place: u64)
    ensures { O.wrote out.old out.new (Begin place ∷ []) }
{
    out.start_line(Some(place));
}

/// Ends the last line: writes a line feed.
pub fn end_last_line<O: Output>(out: &mut O)
    ensures { O.wrote out.old out.new (EndLine ∷ []) }
{
    out.end_line();
}

/// Starts a new line at nesting depth `nesting`. `place` is its place, if it has one: a byte offset from the start of
/// the module. Ends the current line before. If the options ask for places, the new line begins with a comment `(;@h;)`
/// in the style of comments, where `h` is its place in hexadecimal, padded with spaces to 6 characters, or with 11
/// spaces if it has no place. The indent follows, once for each level up to 50.
pub fn write_break<O: Output>(out: &mut O, place: Option<u64>, nesting: u64)
    ensures { O.wrote out.old out.new (Break place nesting ∷ []) }
{
    write_line_start(out, place, nesting.min(MOST_INDENTS) as usize);
    out.begin_line();
}

/// Starts a new line with this place at nesting depth `nesting + depth`, as [`write_break`] does.
pub fn write_break_inside<O: Output>(out: &mut O, place: u64, nesting: u64, depth: u64)
    ensures { O.wrote out.old out.new (Break (Some place) (nesting + depth) ∷ []) }
{
    write_line_start(out, Some(place), levels_of(nesting, depth));
    out.begin_line();
}

/// Writes the closing parenthesis of a group, on a line of its own or on the current line.
fn write_close<O: Output>(out: &mut O, place: Option<u64>, nesting: u64, on_new_line: bool)
    ensures { O.wrote out.old out.new (close place nesting on_new_line) }
{
    if on_new_line {
        write_break(out, place, nesting);
    }
    out.write_str(")");
}

/// Closes a group and leaves it. If a line has begun in the group (`O.begun`), it closes on a line of its own, which
/// has no place. Otherwise it closes on the current line. `nesting` is the nesting depth of the group itself.
/// `outer_begun` says whether a line had begun in the group around it, as `enter_group` returned. A line that began in
/// the group has then begun in the group around it.
pub fn close_group<O: Output>(out: &mut O, nesting: u64, outer_begun: bool)
    ensures { ClosedGroup (groups O.wrote O.begun O.left_group) out.old out.new (close None nesting) outer_begun }
{
    let on_new_line = out.has_begun();
    write_close(out, None, nesting, on_new_line);
    out.leave_group(outer_begun);
}

/// Closes a group that ends at a place, and leaves it. If a line has begun in the group (`O.begun`), or lines begin
/// with their places, it closes on a line of its own, with that place. Otherwise it closes on the current line.
/// `nesting` is the nesting depth of the group itself. `outer_begun` says whether a line had begun in the group around
/// it, as `enter_group` returned. A line that began in the group has then begun in the group around it.
pub fn close_group_at<O: Output>(out: &mut O, place: u64, nesting: u64, outer_begun: bool)
    ensures { ClosedGroup (groups O.wrote O.begun O.left_group) out.old out.new (close_at O.chosen place nesting) outer_begun }
{
    let on_new_line = out.offsets() || out.has_begun();
    write_close(out, Some(place), nesting, on_new_line);
    out.leave_group(outer_begun);
}
