//! Limits and page sizes (section 6.4 of the WebAssembly Core Specification, "Limits"; page sizes are from a
//! proposal).
ghost use Rattle.std.specs.Prelude.{◌<◌, ◌^◌, false, [], ◌∷◌, ◌++◌, codes};
ghost use Rattle.std.specs.Fmt.{digits};
ghost use Rattle.wasmprinter_spec.specs.Call.{Text};
ghost use Rattle.wasmprinter_spec.specs.Types.{limits_of};
ghost use Rattle.wasmprinter_spec.specs.Piece.{Word, after_spaces};
ghost use Rattle.wasmprinter_spec.specs.Layout.Limits.{max_words, limits_pieces};

use crate::integers::{power, write_decimal, write_decimal_between, write_hexadecimal_between};
use wasmprinter_print::{Output, Style};

/// Writes a space and the maximum, or nothing if there is none.
fn write_max<O: Output>(out: &mut O, max: Option<u64>)
    ensures { O.called out.old out.new (Text (after_spaces (max_words max)) ∷ []) }
{
    if let Some(max) = max {
        write_decimal_between(out, " ", max, "");
    }
}

/// Writes the minimum and, if there is one, a space and the maximum, in decimal and in the style of literals. It is not
/// checked that the maximum is not below the minimum.
#[tactic(auto, unfolding(wasmprinter_spec::specs::Layout::Limits::limits_pieces))]
pub fn write_limits<O: Output>(out: &mut O, min: u64, max: Option<u64>)
    ensures { O.wrote out.old out.new (limits_pieces (limits_of min max)) }
{
    out.start(Style::Literal);
    write_decimal(out, min);
    write_max(out, max);
    out.reset_color();
}

/// Writes a page size in bytes in hexadecimal, given its exponent as a power of two, which must be below 64: `0x` and
/// the digits, without a style.
pub fn write_page_size<O: Output>(out: &mut O, exponent: u32)
    requires { exponent < 64 }
    ensures { O.wrote out.old out.new (Word (codes "0x" ++ digits 16 false (2 ^ exponent)) ∷ []) }
{
    write_hexadecimal_between(out, "0x", power(exponent), "");
}
