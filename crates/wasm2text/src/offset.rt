//! Byte offsets in arguments.
ghost use Rattle.std.specs.Prelude.{ℕ, ◌≤◌, MatchOption};
ghost use Rattle.wasm2text.specs.Arguments.{IsOffset, IsOffsetIn};

/// The start of a hexadecimal number.
const HEXADECIMAL: &str = "0x";

/// Returns the number that a word is: a decimal number, or a hexadecimal one after `0x`. Returns `None` if the word is
/// no such number, or if the number exceeds 64 bits.
pub fn read_offset(word: &str) -> Option<u64>
    ensures { MatchOption result ((n : ℕ) → IsOffset word.now n → ⊥) (IsOffset word.now) }
{
    match word.strip_prefix(HEXADECIMAL) {
        Some(digits) => read_digits(digits, 16),
        None => read_digits(word, 10),
    }
}

/// Returns the number that digits with this base write. Returns `None` if there is another character, also a sign, or
/// no digit, or if the number exceeds 64 bits.
fn read_digits(digits: &str, radix: u32) -> Option<u64>
    requires low { 2 ≤ radix }
    requires high { radix ≤ 36 }
    ensures { MatchOption result ((n : ℕ) → IsOffsetIn radix digits.now n → ⊥) (IsOffsetIn radix digits.now) }
{
    if digits.starts_with("+") {
        return None;
    }
    u64::from_str_radix(digits, radix).ok()
}
