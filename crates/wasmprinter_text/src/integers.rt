//! Integers (section 6.3 of the WebAssembly Core Specification, "Integers").
ghost use Rattle.std.specs.Prelude.{◌≡◌, ◌<◌, ◌/◌, ◌%◌, ◌^◌, false, [], ◌∷◌, ◌++◌, decimal, length};
ghost use Rattle.std.specs.Fmt.{digits, digit_glyph};
ghost use Rattle.wasmprinter_spec.specs.Call.{Text};
ghost use Rattle.wasmprinter_spec.specs.Piece.{OneSpace, Word, Number, Constant};

use crate::parens_and_words::{write_in_style, write_space, write_two_in_style};
use itoa::Buffer;
use wasmprinter_print::{Output, Style};

/// The base of hexadecimal numbers.
pub const HEXADECIMAL: u64 = 16;

/// Returns 2 to the power of `exponent`, which must be below 64.
pub fn power(exponent: u32) -> u64
    requires { exponent < 64 }
    ensures { result ≡ 2 ^ exponent }
{
    1 << exponent
}

/// The hexadecimal digits.
static GLYPHS: [u8; 16] = *b"0123456789abcdef";

/// Returns the character of a hexadecimal digit.
pub(crate) fn hex_digit(digit: u8) -> u8
    requires { digit < 16 }
    ensures { result ≡ digit_glyph false digit }
{
    GLYPHS[usize::from(digit)]
}

/// Writes a hexadecimal digit, in lower case.
#[inline(always)]
pub(crate) fn write_digit<O: Output>(out: &mut O, digit: u8)
    requires { digit < 16 }
    ensures { O.called out.old out.new (Text (digit_glyph false digit ∷ []) ∷ []) }
{
    out.write_str(char::from(hex_digit(digit)).encode_utf8(&mut [0; 4]));
}

/// Writes a number in hexadecimal, in lower case, without a prefix and without leading zeros. Each digit is a call of
/// its own, but the contract does not say how the text is split into calls.
pub fn write_hexadecimal<O: Output>(out: &mut O, n: u64)
    ensures { O.called out.old out.new (Text (digits 16 false n) ∷ []) }
{
    if n < HEXADECIMAL {
        write_digit(out, n as u8);
        return;
    }
    write_hexadecimal(out, n / HEXADECIMAL);
    write_digit(out, (n % HEXADECIMAL) as u8);
}

/// Writes a number in decimal.
pub(crate) fn write_decimal<O: Output>(out: &mut O, n: u64)
    ensures { O.called out.old out.new (Text (decimal n) ∷ []) }
{
    let mut digits = Buffer::new();
    out.write_str(digits.format(n));
}

/// Writes the two hexadecimal digits of a byte, in lower case and the higher one first.
pub fn write_byte_digits<O: Output>(out: &mut O, byte: u8)
    ensures { O.called out.old out.new
        (Text (digit_glyph false (byte / 16) ∷ (digit_glyph false (byte % 16) ∷ [])) ∷ []) }
{
    write_digit(out, byte / 16);
    write_digit(out, byte % 16);
}

/// Returns the number of hexadecimal digits of a number.
pub(crate) fn hexadecimal_len(n: u64) -> usize
    ensures { result ≡ length (digits 16 false n) }
{
    if n < HEXADECIMAL {
        return 1;
    }
    hexadecimal_len(n / HEXADECIMAL) + 1
}

/// Writes a number between two texts, in hexadecimal as [`write_hexadecimal`] does: in lower case, without a prefix and
/// without leading zeros.
pub fn write_hexadecimal_between<O: Output>(out: &mut O, before: &str, n: u64, after: &str)
    ensures { O.called out.old out.new (Text (before.now ++ (digits 16 false n ++ after.now)) ∷ []) }
{
    out.write_str(before);
    write_hexadecimal(out, n);
    out.write_str(after);
}

/// Writes a number in decimal between two texts.
pub fn write_decimal_between<O: Output>(out: &mut O, before: &str, n: u64, after: &str)
    ensures { O.called out.old out.new (Text (before.now ++ (decimal n ++ after.now)) ∷ []) }
{
    out.write_str(before);
    write_decimal(out, n);
    out.write_str(after);
}

/// Writes an index.
///
/// It is in decimal and in the style of names.
pub fn write_index<O: Output>(out: &mut O, n: u64)
    ensures { O.wrote out.old out.new (Number n ∷ []) }
{
    write_in_style(out, Style::Name, Buffer::new().format(n));
}

/// Writes a space without a style, and an index as [`write_index`] does.
pub fn write_space_index<O: Output>(out: &mut O, index: u32)
    ensures { O.wrote out.old out.new (OneSpace ∷ (Number index ∷ [])) }
{
    write_space(out);
    write_index(out, u64::from(index));
}

/// Writes a number in decimal as a word without a style.
pub fn write_number_word<O: Output>(out: &mut O, n: u64)
    ensures { O.wrote out.old out.new (Word (decimal n) ∷ []) }
{
    write_decimal(out, n);
}

/// Writes a word that ends in a number, without a style.
///
/// It consists of `word` and of the number in decimal.
pub fn write_numbered_word<O: Output>(out: &mut O, word: &str, n: u64)
    ensures { O.wrote out.old out.new (Word (word.now ++ decimal n) ∷ []) }
{
    out.write_str(word);
    write_decimal(out, n);
}

/// Writes a space and a signed number in decimal, both in the style of literals. Only a negative number has a sign.
pub fn write_signed<O: Output>(out: &mut O, n: i64)
    ensures { O.wrote out.old out.new (Constant n ∷ []) }
{
    write_two_in_style(out, Style::Literal, " ", Buffer::new().format(n));
}
