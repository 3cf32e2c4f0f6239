//! Vectors and lanes (section 6.5 of the WebAssembly Core Specification, "Vector Instructions").
ghost use Rattle.std.specs.Prelude.{[], ◌∷◌, reverse};
ghost use Rattle.wasmprinter_spec.specs.Call.{Text};
ghost use Rattle.wasmprinter_spec.specs.Piece.{SpaceLiterals, after_spaces};
ghost use Rattle.wasmprinter_spec.specs.Layout.Operators.{lane_pieces, lanes_pieces, hex_digits, hex_word, hex_words, vector_pieces};
ghost use Rattle.wasmprinter_text.specs.Numbers.{space};

use crate::index_immediates::write_count;
use wasmprinter_print::{Output, Style};
use wasmprinter_text::integers::write_byte_digits;
use wasmprinter_text::parens_and_words::write_space_type_word;

/// The size in bytes of each number of a vector.
const BYTES: usize = 4;

/// Writes a space and the number of a lane.
pub(crate) fn write_lane<O: Output>(out: &mut O, lane: u8)
    ensures { O.wrote out.old out.new (lane_pieces lane) }
{
    write_count(out, u32::from(lane));
}

/// Writes the numbers of lanes in order, with a space before each.
pub(crate) fn write_lanes<O: Output>(out: &mut O, lanes: &[u8])
    ensures { O.wrote out.old out.new (lanes_pieces lanes.now) }
{
    for &lane in lanes {
        write_lane(out, lane);
    }
}

/// Writes the hexadecimal digits of a number from its bytes in little-endian order.
fn write_hex_digits<O: Output>(out: &mut O, bytes: &[u8])
    ensures { O.called out.old out.new (Text (hex_digits (reverse bytes.now)) ∷ []) }
{
    for &byte in bytes.iter().rev() {
        write_byte_digits(out, byte);
    }
}

/// Writes a space and a number in hexadecimal, from its bytes in little-endian order.
fn write_hex_word<O: Output>(out: &mut O, bytes: &[u8])
    ensures { O.called out.old out.new (Text (space ∷ hex_word bytes.now) ∷ []) }
{
    out.write_str(" 0x");
    write_hex_digits(out, bytes);
}

/// Writes 32-bit numbers in hexadecimal, from their bytes, with a space before each.
fn write_hex_words<O: Output>(out: &mut O, bytes: &[u8])
    ensures { O.called out.old out.new (Text (after_spaces (hex_words bytes.now)) ∷ []) }
{
    for word in bytes.chunks_exact(BYTES) {
        write_hex_word(out, word);
    }
}

/// Writes 32-bit numbers in the style of literals, from their bytes, with a space before each.
fn write_hex_literals<O: Output>(out: &mut O, bytes: &[u8])
    ensures { O.wrote out.old out.new (SpaceLiterals (hex_words bytes.now) ∷ []) }
{
    out.start(Style::Literal);
    write_hex_words(out, bytes);
    out.reset_color();
}

/// Writes a vector from its bytes in little-endian order: a word and four 32-bit numbers, with a space before each.
#[tactic(auto, unfolding(wasmprinter_spec::specs::Layout::Operators::vector_pieces))]
pub(crate) fn write_vector<O: Output>(out: &mut O, bytes: &[u8])
    ensures { O.wrote out.old out.new (vector_pieces bytes.now) }
{
    write_space_type_word(out, "i32x4");
    write_hex_literals(out, bytes);
}
