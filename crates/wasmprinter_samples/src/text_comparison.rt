//! Comparison of a text with the text that a test expects.

ghost use Rattle.std.specs.Prelude.{IfOk, IfErr, ◌≡◌, ◌≢◌};

use std::test::Fail;

/// The difference between a text and the text that a test expects.
#[derive(Debug, PartialEq, Eq, Drop)]
pub enum Different {
    /// The number of the first line that differs, counted from 1.
    Line(usize),
}

/// Checks that a text equals the expected one.
///
/// # Errors
///
/// [`Different`] if the texts differ. The contract does not say which line it holds; tests check that.
pub fn expect_text(text: &str, typed: &str) -> Result<(), Different>
where
    ensures same { IfOk result (λ _. text.now ≡ typed.now) }
    ensures different { IfErr result (λ _. text.now ≢ typed.now) }
{
    if text == typed {
        return Ok(());
    }
    let same = text
        .split('\n')
        .zip(typed.split('\n'))
        .take_while(|(line, wanted)| line == wanted)
        .count();
    Err(Different::Line(same.saturating_add(1)))
}

/// Checks that a text equals the expected one. A failure shows this name.
///
/// # Errors
///
/// - The texts differ.
pub fn expect_same(name: &'static str, text: &str, typed: &str) -> Result<(), Fail> {
    match expect_text(text, typed) {
        Ok(()) => Ok(()),
        Err(different) => Err((name, different))?,
    }
}
