//! What the second argument asks for.
ghost use Rattle.std.specs.Prelude.{MatchOption};
ghost use Rattle.example_lines.specs.Queries.{AsksFor, AsksForNothing};

/// A query about a module and its text.
#[derive(Clone, Copy, Debug)]
pub enum Query {
    /// The line that shows the byte at this offset from the start of the module.
    Byte(u64),
    /// The line with this number, counted from 1.
    Line(u64),
}

impl Query {
    /// Returns what a word asks for: `12` and `0xc` for the byte at that offset, `line:12` for that line. A plus sign may
    /// precede the digits. Returns `None` if the word has another form, or if its number exceeds 64 bits.
    pub fn from_word(word: &str) -> Option<Query>
        ensures { MatchOption result (AsksForNothing word.now) (AsksFor word.now) }
    {
        if let Some(number) = word.strip_prefix("line:") {
            return number.parse().ok().map(Query::Line);
        }
        let offset = match word.strip_prefix("0x") {
            Some(digits) => u64::from_str_radix(digits, 16),
            None => word.parse(),
        };
        offset.ok().map(Query::Byte)
    }
}
