//! The flags of symbols (tool conventions, "Linking").
ghost use Rattle.std.specs.Prelude.{false, [], ◌∷◌, ◌++◌, codes};
ghost use Rattle.std.specs.Fmt.{digits};
ghost use Rattle.wasmprinter_spec.specs.Piece.{OneSpace, Word};
ghost use Rattle.wasmprinter_spec.specs.Layout.Customs.{flag_words, flags_pieces};
ghost use Rattle.wasmprinter_custom.specs.Flags.{bits_of, words_by};
ghost use Rattle.wasmprinter_custom.specs.FlagPieces.{words_pieces, others_pieces};

use wasmprinter_custom::SymbolFlags;
use wasmprinter_print::Output;
use wasmprinter_text::integers::write_hexadecimal;
use wasmprinter_text::parens_and_words::{write_space, write_word};

/// Writes a space and a word.
fn write_space_word<O: Output>(out: &mut O, flag: &str)
    ensures { O.wrote out.old out.new (OneSpace ∷ (Word flag.now ∷ [])) }
{
    write_space(out);
    write_word(out, flag);
}

/// Writes the words of the flags that are set, with a space before each.
fn write_words<O: Output>(out: &mut O, flags: SymbolFlags)
    ensures { O.wrote out.old out.new (words_pieces (words_by flag_words (bits_of flags))) }
{
    for flag in flags.words() {
        write_space_word(out, flag);
    }
}

/// Writes a number in hexadecimal, as one word.
fn write_bits<O: Output>(out: &mut O, bits: u32)
    ensures { O.wrote out.old out.new (Word (codes "0x" ++ digits 16 false bits) ∷ []) }
{
    out.write_str("0x");
    write_hexadecimal(out, u64::from(bits));
}

/// Writes a space and bits in hexadecimal. Writes nothing if no bit is set.
#[tactic(auto, unfolding(wasmprinter_custom::specs::FlagPieces::others_pieces))]
fn write_others<O: Output>(out: &mut O, bits: u32)
    ensures { O.wrote out.old out.new (others_pieces bits) }
{
    if bits == 0 {
        return;
    }
    write_space(out);
    write_bits(out, bits);
}

/// Writes the words of the flags that are set and then all other bits, with a space before each.
#[tactic(auto, using(wasmprinter_custom::proofs::FlagPieces::flags_pieces_are))]
pub(crate) fn write_flags<O: Output>(out: &mut O, flags: SymbolFlags)
    ensures { O.wrote out.old out.new (flags_pieces (bits_of flags)) }
{
    write_words(out, flags);
    write_others(out, flags.other_bits());
}
