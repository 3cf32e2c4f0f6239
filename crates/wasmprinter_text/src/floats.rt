//! Writing floating-point numbers, given their bits (section 6.3 of the WebAssembly Core Specification,
//! "Floating-Point"). All arithmetic is on integers.
ghost use Rattle.std.specs.Prelude.{◌≡◌, ◌<◌, ◌≤◌, ◌^◌, [], ◌∷◌};
ghost use Rattle.wasmprinter_spec.specs.Call.{Text};
ghost use Rattle.wasmprinter_spec.specs.Float.{single, double};
ghost use Rattle.wasmprinter_spec.specs.FloatText.{digits_after, fraction_digits, after_point, exponent_text, normal_text};
ghost use Rattle.wasmprinter_spec.specs.FloatText.{subnormal_text, finite_text, special_text, remark, unsigned_calls, float_calls};
ghost use Rattle.wasmprinter_spec.specs.Piece.{Float};
ghost use Rattle.wasmprinter_text.specs.Formats.{width_of};
ghost use Rattle.wasmprinter_text.specs.Numbers.{letter_p};

use crate::float_bit_format::Format;
use crate::integers::{power, write_decimal, write_digit, write_hexadecimal};
use wasmprinter_print::{Output, Style};

/// Writes the hexadecimal digits of the number `n / 16 ^ count` after the point, up to the last digit that is not
/// 0.
fn write_digits_after<O: Output>(out: &mut O, count: u32, n: u64)
    requires count { count ≤ 16 }
    requires below { n < 16 ^ count }
    ensures { O.called out.old out.new (Text (digits_after count n) ∷ []) }
{
    if n == 0 {
        return;
    }
    let unit = power(4 * (count - 1));
    write_digit(out, (n / unit) as u8);
    write_digits_after(out, count - 1, n % unit);
}

/// Writes the hexadecimal digits of a fraction.
fn write_fraction<O: Output>(out: &mut O, format: Format, fraction: u64)
    requires { fraction < 2 ^ (width_of format).fraction }
    ensures { O.called out.old out.new (Text (fraction_digits (width_of format) fraction) ∷ []) }
{
    write_digits_after(out, format.digit_count(), format.filled_fraction(fraction));
}

/// Writes a point and the digits of a fraction, or nothing if the fraction is 0.
fn write_after_point<O: Output>(out: &mut O, format: Format, fraction: u64)
    requires { fraction < 2 ^ (width_of format).fraction }
    ensures { O.called out.old out.new (Text (after_point (fraction_digits (width_of format) fraction)) ∷ []) }
{
    if fraction == 0 {
        return;
    }
    out.write_str(".");
    write_fraction(out, format, fraction);
}

/// Writes the exponent `up - down`.
fn write_exponent<O: Output>(out: &mut O, up: u64, down: u64)
    ensures { O.called out.old out.new (Text (letter_p ∷ exponent_text up down) ∷ []) }
{
    if up < down {
        out.write_str("p-");
        write_decimal(out, down - up);
    } else {
        out.write_str("p+");
        write_decimal(out, up - down);
    }
}

/// Writes a normal number, with a leading 1.
fn write_normal<O: Output>(out: &mut O, format: Format, exponent: u64, fraction: u64)
    requires { fraction < 2 ^ (width_of format).fraction }
    ensures { O.called out.old out.new (Text (normal_text (width_of format) exponent fraction) ∷ []) }
{
    out.write_str("0x1");
    write_after_point(out, format, fraction);
    write_exponent(out, exponent, format.bias());
}

/// Writes a subnormal number, shifted so that its leading digit is 1.
fn write_subnormal<O: Output>(out: &mut O, format: Format, fraction: u64)
    requires some { 0 < fraction }
    requires below { fraction < 2 ^ (width_of format).fraction }
    ensures { O.called out.old out.new (Text (subnormal_text (width_of format) fraction) ∷ []) }
{
    out.write_str("0x1.");
    write_fraction(out, format, format.shifted_fraction(fraction));
    write_exponent(out, 1, format.bias() + u64::from(format.shift(fraction)));
}

/// Writes a finite number.
fn write_finite<O: Output>(out: &mut O, format: Format, exponent: u64, fraction: u64)
    requires { fraction < 2 ^ (width_of format).fraction }
    ensures { O.called out.old out.new (Text (finite_text (width_of format) exponent fraction) ∷ []) }
{
    if exponent != 0 {
        write_normal(out, format, exponent, fraction);
    } else if fraction != 0 {
        write_subnormal(out, format, fraction);
    } else {
        out.write_str("0x0p+0");
    }
}

/// Writes infinity or a NaN. The payload of a NaN is written in hexadecimal unless it is the canonical one.
fn write_special<O: Output>(out: &mut O, format: Format, fraction: u64)
    ensures { O.called out.old out.new (Text (special_text (width_of format) fraction) ∷ []) }
{
    if fraction == 0 {
        out.write_str("inf");
    } else if fraction == format.canonical_payload() {
        out.write_str("nan");
    } else {
        out.write_str("nan:0x");
        write_hexadecimal(out, fraction);
    }
}

/// Returns the comment after infinity or a NaN.
fn remark_on(negative: bool, fraction: u64) -> &'static str
    ensures { result.now ≡ remark negative fraction }
{
    if fraction != 0 {
        "(;=NaN;)"
    } else if negative {
        "(;=-inf;)"
    } else {
        "(;=inf;)"
    }
}

/// Writes a float without its sign.
#[tactic(auto, unfolding(wasmprinter_spec::specs::FloatText::unsigned_calls))]
fn write_unsigned<O: Output>(
    out: &mut O,
    format: Format,
    negative: bool,
    exponent: u64,
    fraction: u64,
)
    requires { fraction < 2 ^ (width_of format).fraction }
    ensures { O.called out.old out.new (unsigned_calls (width_of format) negative exponent fraction) }
{
    out.start(Style::Literal);
    if exponent == format.greatest_exponent() {
        write_special(out, format, fraction);
        out.write_str(" ");
        out.start(Style::Comment);
        out.write_str(remark_on(negative, fraction));
    } else {
        write_finite(out, format, exponent, fraction);
    }
    out.reset_color();
}

/// Writes a float.
#[tactic(auto, unfolding(wasmprinter_spec::specs::FloatText::float_calls))]
fn write_float<O: Output>(out: &mut O, format: Format, bits: u64)
    ensures { O.called out.old out.new (float_calls (width_of format) bits) }
{
    let one = power(format.fraction_bits());
    let sign = format.sign_bit();
    if bits < sign {
        write_unsigned(out, format, false, bits / one, bits % one);
        return;
    }
    let rest = bits - sign;
    out.write_str("-");
    write_unsigned(out, format, true, rest / one, rest % one);
}

/// Writes a 32-bit float, given its bits, in the text format: exactly the text of
/// [`write_f32`](crate::standalone_values::write_f32). A finite number is written in hexadecimal, so that the text has
/// exactly its value. A NaN is written with its payload unless that is the canonical one. A comment in its own style
/// follows infinity and NaN. A minus sign has no style, the rest of the number that of literals. The contract gives the
/// calls on the printer (`calls`) and the same as a piece of the layout (`pieces`).
pub fn write_single<O: Output>(out: &mut O, bits: u32)
    ensures calls { O.called out.old out.new (float_calls single bits) }
    ensures pieces { O.wrote out.old out.new (Float single bits ∷ []) }
{
    write_float(out, Format::Single, u64::from(bits));
}

/// Writes a 64-bit float, given its bits, as `write_single` writes a 32-bit float. The contract gives the calls on the
/// printer (`calls`) and the same as a piece of the layout (`pieces`).
pub fn write_double<O: Output>(out: &mut O, bits: u64)
    ensures calls { O.called out.old out.new (float_calls double bits) }
    ensures pieces { O.wrote out.old out.new (Float double bits ∷ []) }
{
    write_float(out, Format::Double, bits);
}
