//! Float immediates, by their bits (section 6.5 of the WebAssembly Core Specification, "Numeric Instructions").
ghost use Rattle.std.specs.Prelude.{[], ◌∷◌};
ghost use Rattle.wasmprinter_spec.specs.Float.{single, double};
ghost use Rattle.wasmprinter_spec.specs.Piece.{OneSpace, Float};

use wasmprinter_print::Output;
use wasmprinter_text::floats::{write_double, write_single};
use wasmprinter_text::parens_and_words::write_space;

/// Writes a space and a 32-bit float.
pub(crate) fn write_f32<O: Output>(out: &mut O, bits: u32)
    ensures { O.wrote out.old out.new (OneSpace ∷ (Float single bits ∷ [])) }
{
    write_space(out);
    write_single(out, bits);
}

/// Writes a space and a 64-bit float.
pub(crate) fn write_f64<O: Output>(out: &mut O, bits: u64)
    ensures { O.wrote out.old out.new (OneSpace ∷ (Float double bits ∷ [])) }
{
    write_space(out);
    write_double(out, bits);
}
