//! The first difference of two texts.
ghost use Rattle.std.specs.Prelude.{◌≡◌, ◌↔◌, IsNone, bytes_eq};
ghost use Rattle.std.specs.List.{common_prefix_len};
ghost use Rattle.std.specs.Str.Lines.{lines};

use std::fmt;

/// The first line that differs in two texts. Its `Display` text shows the line in both.
#[derive(Debug, Drop)]
pub struct Difference<'a> {
    /// The number of the line, counted from 1.
    number: usize,
    /// The start of the field to which the line belongs, such as `(data (;0;)`.
    field: &'a str,
    left: &'a str,
    right: &'a str,
}

/// Returns the first difference of two texts, or `None` if they are equal.
pub fn first_difference<'a>(left: &'a str, right: &'a str) -> Option<Difference<'a>>
    ensures { IsNone result ↔ (left.now ≡ right.now) }
{
    if left == right {
        return None;
    }
    let index = common_lines(left, right);
    let left_line = left.lines().nth(index).unwrap_or_default();
    let right_line = right.lines().nth(index).unwrap_or_default();
    // if only one of the lines starts a field, that field is named
    let text = if is_header(right_line) { right } else { left };
    Some(Difference {
        number: index.saturating_add(1),
        field: field_at(text, index),
        left: left_line,
        right: right_line,
    })
}

/// Returns the number of lines before the first that differs.
fn common_lines(left: &str, right: &str) -> usize
    ensures { result ≡ common_prefix_len bytes_eq (lines left.now) (lines right.now) }
{
    left.lines()
        .zip(right.lines())
        .take_while(|(left, right)| left == right)
        .count()
}

/// Returns the start of the field to which the line at `index` belongs: its first line, up to the comment that shows
/// its index, if there is one.
fn field_at(text: &str, index: usize) -> &str {
    let header = text
        .lines()
        .take(index.saturating_add(1))
        .filter(|line| is_header(line))
        .last()
        .unwrap_or_default();
    header
        .trim()
        .split_inclusive(";)")
        .next()
        .unwrap_or_default()
}

/// Returns whether a line starts a field, or the module.
fn is_header(line: &str) -> bool {
    let is_inside = line.starts_with("    ") || line.starts_with("  )");
    !is_inside && line != ")"
}

impl fmt::Display for Difference<'_> {
    fn fmt<W: fmt::Write>(&self, f: &mut fmt::Formatter<W>) -> fmt::Result {
        let number = self.number;
        let field = self.field;
        let left = self.left;
        let right = self.right;
        write!(
            f,
            "line {number} differs, in `{field}`\n-{left}\n+{right}\n"
        )
    }
}
