//! Labels (section 6.5 of the WebAssembly Core Specification, "Labels"), each with a space before it: an
//! identifier, or an index that counts the enclosing blocks from the innermost outward.
ghost use Rattle.std.specs.Prelude.{[], ◌∷◌, ◌++◌, codes, decimal, true, false};
ghost use Rattle.wasmprinter_spec.specs.Piece.{OneSpace, Word, Number, BlockComment};
ghost use Rattle.wasmprinter_spec.specs.Layout.Operators.{label_name_pieces, label_pieces, labels_pieces};
ghost use Rattle.wasmprinter_custom.specs.Shown.{identifier_view};
ghost use Rattle.wasmprinter_flat.specs.Contexts.{labels_around, labels_within};

use crate::immediate_context::Context;
use crate::open_labels::LabelRef;
use wasmprinter_custom::Identifier;
use wasmprinter_ops::block_immediates::Targets;
use wasmprinter_ops::opcode_shapes_arities_and_roles::Listed;
use wasmprinter_print::Output;
use wasmprinter_text::comments::{write_depth_comment, write_unstyled_comment};
use wasmprinter_text::declarations_and_indices::{write_id_and_name, write_index};
use wasmprinter_text::integers::{
    write_index as write_number, write_number_word, write_space_index,
};
use wasmprinter_text::parens_and_words::write_space;
use wasmprinter_text::type_use::Signatures;

/// Writes a space and the identifier of a label. A given identifier has no style, and its name annotation follows if
/// the name differs from it. A synthesized identifier has the style of names.
fn write_by_name<O: Output>(out: &mut O, identifier: Identifier<'_>, label: u32)
    ensures { O.wrote out.old out.new
        (OneSpace ∷ label_name_pieces (identifier_view identifier.entry).given label (identifier_view identifier.entry)) }
{
    write_space(out);
    match identifier {
        Identifier::Given(_) => write_id_and_name(out, identifier),
        Identifier::Synthesized { .. } => write_index(out, Some(identifier), u64::from(label)),
    }
}

/// Writes a space and the index of a label, with the number of its block in a comment.
fn write_around<O: Output>(out: &mut O, label: u64, block: u64)
    ensures { O.wrote out.old out.new
        (OneSpace ∷ (Number label ∷ (BlockComment true (codes "@" ++ decimal block) ∷ []))) }
{
    write_space(out);
    write_number(out, label);
    write_depth_comment(out, block);
}

/// Writes a space, a number that does not refer to a label, and a comment that says so.
fn write_invalid<O: Output>(out: &mut O, label: u64)
    ensures { O.wrote out.old out.new
        (OneSpace ∷ (Word (decimal label) ∷ (BlockComment false (codes " INVALID ") ∷ []))) }
{
    write_space(out);
    write_number_word(out, label);
    write_unstyled_comment(out, " INVALID ");
}

/// Writes a space and a label.
pub(crate) fn write_label<O: Output, S: Signatures>(
    out: &mut O,
    context: &Context<'_, '_, '_, '_, S>,
    label: u32,
)
    ensures { O.wrote out.old out.new
        (label_pieces (labels_within context.now) (labels_around context.now) label) }
{
    match context.labels.find(context.opcode.role(), label) {
        LabelRef::ByName(identifier) => write_by_name(out, identifier, label),
        LabelRef::ByNumber => write_space_index(out, label),
        LabelRef::ToBlock(block) => write_around(out, u64::from(label), block),
        LabelRef::ToNothing => write_invalid(out, u64::from(label)),
    }
}

/// Writes the labels of a `br_table`, the default label last, with a space before each.
pub(crate) fn write_labels<O: Output, S: Signatures>(
    out: &mut O,
    context: &Context<'_, '_, '_, '_, S>,
    targets: &Targets<'_>,
    default: u32,
)
    ensures { O.wrote out.old out.new
        (labels_pieces (labels_within context.now) (labels_around context.now) targets.now default) }
{
    for target in targets.iter() {
        if out.has_failed() {
            return;
        }
        write_label(out, context, target);
    }
    write_label(out, context, default);
}
