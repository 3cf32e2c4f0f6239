//! Detects two consecutive semicolons in a text that arrives in pieces. They may begin a line comment (section 6.2,
//! "Comments").
ghost use Rattle.std.specs.Prelude.{◌≡◌};
ghost use Rattle.wasmprinter_fold.specs.Buffers.{see_all};

/// The semicolons seen in a text so far.
#[derive(Clone, Copy, Debug)]
pub struct Semicolons {
    /// Whether the last byte is a semicolon.
    pub last: bool,
    /// Whether two consecutive semicolons occurred.
    pub double: bool,
}

/// The state before any text.
pub const UNSEEN: Semicolons = Semicolons {
    last: false,
    double: false,
};

/// Returns the state after one more piece of text: whether all text so far ends with a semicolon, and whether it
/// contains two consecutive semicolons.
pub fn see_text(seen: Semicolons, text: &str) -> Semicolons
    ensures { result ≡ see_all seen text.now }
{
    let mut seen = seen;
    for &byte in text.as_bytes() {
        let last = byte == b';';
        seen = Semicolons {
            last,
            double: seen.double || seen.last && last,
        };
    }
    seen
}
