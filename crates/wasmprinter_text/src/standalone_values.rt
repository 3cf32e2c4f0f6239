//! Writing single values to a printer: floats and quoted strings.
ghost use Rattle.std.specs.Prelude.{◌≡◌, chars};
ghost use Rattle.wasmprinter_spec.specs.Call.{Literal};
ghost use Rattle.wasmprinter_spec.specs.Float.{single, double};
ghost use Rattle.wasmprinter_spec.specs.FloatText.{float_calls};
ghost use Rattle.wasmprinter_spec.specs.Piece.{calls_in_style};
ghost use Rattle.wasmprinter_spec.specs.Quoted.{quoted_text, quoted_bytes};
ghost use Rattle.wasmprinter_print.specs.MadeCalls.{MadeCalls, outcome};
ghost use Rattle.wasmprinter_print.specs.Effects.{HasEffect, state, of_calls};
ghost use Rattle.wasmprinter_spec.specs.Options.{defaults};

use crate::floats::{write_double, write_single};
use crate::strings::{write_byte_string, write_string};
use std::marker::Brand;
use wasmprinter_bytes::Error;
use wasmprinter_print::{Output, Print, PrintOptions, Printer};

/// A value that is written alone.
pub trait Value {
    ghost use Rattle.std.specs.Prelude.{List};
    ghost use Rattle.wasmprinter_spec.specs.Call.{Call};

    /// The calls that write the value.
    ghost calls: { Self → List Call };

    /// Writes the value: makes the calls that write it (`calls`), up to the first error.
    fn write<O: Output>(&self, out: &mut O)
        ensures { O.called out.old out.new (calls self.now) };
}

/// A text that is written as a quoted string.
#[derive(Drop)]
struct Text<'t> {
    text: &'t str,
}

/// Bytes that are written as a quoted string.
#[derive(Drop)]
struct Bytes<'b> {
    bytes: &'b [u8],
}

/// A 32-bit float, given its bits.
#[derive(Drop)]
struct Single {
    bits: u32,
}

/// A 64-bit float, given its bits.
#[derive(Drop)]
struct Double {
    bits: u64,
}

impl<'t> Value for Text<'t> {
    ghost calls = { λ v. calls_in_style Literal (quoted_text (chars v.text.now)) };

    fn write<O: Output>(&self, out: &mut O) {
        write_string(out, self.text);
    }
}

impl<'b> Value for Bytes<'b> {
    ghost calls = { λ v. calls_in_style Literal (quoted_bytes v.bytes.now) };

    fn write<O: Output>(&self, out: &mut O) {
        write_byte_string(out, self.bytes);
    }
}

impl Value for Single {
    ghost calls = { λ v. float_calls single v.bits };

    fn write<O: Output>(&self, out: &mut O) {
        write_single(out, self.bits);
    }
}

impl Value for Double {
    ghost calls = { λ v. float_calls double v.bits };

    fn write<O: Output>(&self, out: &mut O) {
        write_double(out, self.bits);
    }
}

/// Writes a value to an output over a printer.
fn write_to_printer<P: Print, V: Value>(out: &mut Printer<'_, '_, P, Brand>, value: &V)
    ensures same { out.new.printer.ghost_name ≡ out.old.printer.ghost_name }
    ensures made { HasEffect P.meaning defaults (state out.old.printer.now out.old.halt out.old.begun)
        (state out.new.printer.now out.new.halt out.new.begun) (of_calls (V.calls value.now)) }
{
    value.write(out);
}

/// Writes a value to a printer. On `Ok`, all calls that write the value (`calls` of [`Value`]) were made and succeeded,
/// up to how text is split into calls.
///
/// # Errors
///
/// - `Printer` with exactly the error of the call on the printer that failed. The calls before it succeeded, and with
///   it they are a prefix of the calls for the value, up to how text is split into calls. No call was made after it.
///
/// No other error is returned.
pub fn write_value<P: Print, V: Value>(p: &mut P, value: &V) -> Result<(), Error>
    ensures { MadeCalls P.meaning p.old p.new (outcome result) (V.calls value.now) }
{
    let options = PrintOptions::new();
    let mut out: Printer<'_, '_, P, Brand> = Printer::new(p, &options);
    write_to_printer(&mut out, value);
    out.finish()
}

/// Writes a text as a quoted string in the style of literals: printable ASCII characters except `"` and `\` unescaped,
/// any other character as `\u{..}` with its number in hexadecimal, in lower case (section 6.3 of the standard,
/// "Strings"). On `Ok`, all calls for the value were made and succeeded, up to how text is split into calls.
///
/// # Errors
///
/// - `Printer` with exactly the error of the call on the printer that failed. The calls before it succeeded, and with
///   it they are a prefix of the calls for the value, up to how text is split into calls. No call was made after it.
///
/// No other error is returned.
pub fn write_quoted<P: Print>(p: &mut P, s: &str) -> Result<(), Error>
    ensures { MadeCalls P.meaning p.old p.new (outcome result) (calls_in_style Literal (quoted_text (chars s.now))) }
{
    write_value(p, &Text { text: s })
}

/// Writes bytes as a quoted string in the style of literals: printable ASCII except `"` and `\` unescaped, any other
/// byte as `\hh` with its two hexadecimal digits, in lower case (section 6.3 of the standard, "Strings"). On `Ok`, all
/// calls for the value were made and succeeded, up to how text is split into calls.
///
/// # Errors
///
/// - `Printer` with exactly the error of the call on the printer that failed. The calls before it succeeded, and with
///   it they are a prefix of the calls for the value, up to how text is split into calls. No call was made after it.
///
/// No other error is returned.
pub fn write_bytes<P: Print>(p: &mut P, bytes: &[u8]) -> Result<(), Error>
    ensures { MadeCalls P.meaning p.old p.new (outcome result) (calls_in_style Literal (quoted_bytes bytes.now)) }
{
    write_value(p, &Bytes { bytes })
}

/// Writes a 32-bit float, given its bits, in the text format (section 6.3 of the standard, "Floating-Point").
///
/// A finite number is written in hexadecimal with exactly its value: `0x1`, a point, the digits up to the last that is
/// not 0, and the exponent of 2 (`0x1.8p+0`). Without digits there is no point (`0x1p-126`), except in subnormal
/// numbers (`0x1.p-149`). Zero is `0x0p+0`. The others are `inf`, `nan` for the canonical payload, and `nan:0x..` with
/// any other, each with a space and a comment after it: `(;=inf;)`, `(;=-inf;)` if negative, or `(;=NaN;)`.
///
/// If the sign bit is set, `-` comes first, also before `nan`, before any style is chosen. The number and the space have
/// the style of literals, the comment that of comments. On `Ok`, all calls for the value were made and succeeded, up to
/// how text is split into calls.
///
/// # Errors
///
/// - `Printer` with exactly the error of the call on the printer that failed. The calls before it succeeded, and with
///   it they are a prefix of the calls for the value, up to how text is split into calls. No call was made after it.
///
/// No other error is returned.
pub fn write_f32<P: Print>(p: &mut P, bits: u32) -> Result<(), Error>
    ensures { MadeCalls P.meaning p.old p.new (outcome result) (float_calls single bits) }
{
    write_value(p, &Single { bits })
}

/// Writes a 64-bit float, given its bits, as `write_f32` writes a 32-bit float. On `Ok`, all calls for the value were
/// made and succeeded, up to how text is split into calls.
///
/// # Errors
///
/// - `Printer` with exactly the error of the call on the printer that failed. The calls before it succeeded, and with
///   it they are a prefix of the calls for the value, up to how text is split into calls. No call was made after it.
///
/// No other error is returned.
pub fn write_f64<P: Print>(p: &mut P, bits: u64) -> Result<(), Error>
    ensures { MadeCalls P.meaning p.old p.new (outcome result) (float_calls double bits) }
{
    write_value(p, &Double { bits })
}
