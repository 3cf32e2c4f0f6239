//! Memory operands (section 6.5 of the WebAssembly Core Specification, "Memory Instructions"), with a space before
//! each part.
ghost use Rattle.std.specs.Prelude.{◌<◌, [], ◌∷◌, ◌++◌, decimal};
ghost use Rattle.wasmprinter_spec.specs.Piece.{OneSpace, Word};
ghost use Rattle.wasmprinter_spec.specs.Layout.Operators.{offset_pieces, align_pieces, mem_arg_pieces};
ghost use Rattle.wasmprinter_flat.specs.Contexts.{setting_in};

use crate::immediate_context::Context;
use crate::index_immediates::write_default_index;
use wasmprinter_ops::mem_arg::MemArg;
use wasmprinter_ops::opcode_shapes_arities_and_roles::Space;
use wasmprinter_print::Output;
use wasmprinter_text::integers::{power, write_numbered_word};
use wasmprinter_text::parens_and_words::write_space;
use wasmprinter_text::type_use::Signatures;

/// Writes a space and a word that ends in a number.
fn write_numbered<O: Output>(out: &mut O, word: &str, n: u64)
    ensures { O.wrote out.old out.new (OneSpace ∷ (Word (word.now ++ decimal n) ∷ [])) }
{
    write_space(out);
    write_numbered_word(out, word, n);
}

/// Writes a space and an offset. Writes nothing for offset 0.
#[tactic(auto, unfolding(wasmprinter_spec::specs::Layout::Operators::offset_pieces))]
fn write_offset<O: Output>(out: &mut O, offset: u64)
    ensures { O.wrote out.old out.new (offset_pieces offset) }
{
    if offset != 0 {
        write_numbered(out, "offset=", offset);
    }
}

/// Writes a space and an alignment, given its exponent. Writes nothing for the natural alignment.
#[tactic(auto, unfolding(wasmprinter_spec::specs::Layout::Operators::align_pieces))]
fn write_align<O: Output>(out: &mut O, natural: u32, exponent: u32)
    requires { exponent < 64 }
    ensures { O.wrote out.old out.new (align_pieces natural exponent) }
{
    if exponent != natural {
        write_numbered(out, "align=", power(exponent));
    }
}

/// Writes a memory operand, with a space before each of its parts. `natural` is the exponent of the operator's natural
/// alignment.
#[tactic(auto, unfolding(wasmprinter_spec::specs::Layout::Operators::mem_arg_pieces))]
pub(crate) fn write_mem_arg<O: Output, S: Signatures>(
    out: &mut O,
    context: &Context<'_, '_, '_, '_, S>,
    natural: u32,
    operand: MemArg,
)
    ensures { O.wrote out.old out.new
        (mem_arg_pieces (setting_in S.signature_at context.now) natural operand) }
{
    write_default_index(out, context, Space::Memory, operand.memory);
    write_offset(out, operand.offset);
    write_align(out, natural, operand.exponent);
}
