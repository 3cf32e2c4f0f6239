//! Sizes of tables and memories (section 6.4 of the WebAssembly Core Specification, "Limits").
ghost use Rattle.wasmprinter_spec.specs.Layout.Limits.{wide_pieces, limits_pieces};
ghost use Rattle.wasmprinter_decoder.specs.Externs.{limits_view};

use wasmprinter_decoder::Limits;
use wasmprinter_print::Output;
use wasmprinter_text::limits::write_limits;
use wasmprinter_text::parens_and_words::write_type_word_space;

/// Writes the address type `i64` if addresses have 64 bits.
pub(crate) fn write_wide<O: Output>(out: &mut O, wide: bool)
    ensures { O.wrote out.old out.new (wide_pieces wide) }
{
    if wide {
        write_type_word_space(out, "i64");
    }
}

/// Writes the minimum size and, if there is one, the maximum size.
pub(crate) fn write_sizes<O: Output>(out: &mut O, limits: Limits)
    ensures { O.wrote out.old out.new (limits_pieces (limits_view limits)) }
{
    write_limits(out, limits.min, limits.max);
}
