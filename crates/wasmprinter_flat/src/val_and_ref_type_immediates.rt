//! Type immediates (section 6.5 of the WebAssembly Core Specification), each with a space before it.
ghost use Rattle.std.specs.Prelude.{◌≡◌, ◌∷◌, ◌++◌, codes};
ghost use Rattle.wasmprinter_spec.specs.Piece.{OneSpace};
ghost use Rattle.wasmprinter_spec.specs.Layout.Groups.{line_group_space};
ghost use Rattle.wasmprinter_spec.specs.Layout.Operators.{label_pieces, select_pieces};
ghost use Rattle.wasmprinter_spec.specs.Layout.ValTypes.{heap_pieces, ref_pieces, val_pieces};
ghost use Rattle.wasmprinter_spec.specs.Text.Items.{the_only};
ghost use Rattle.wasmprinter_custom.specs.Shown.{names_of_identifiers};
ghost use Rattle.wasmprinter_ops.specs.Operands.{source_type, target_type};
ghost use Rattle.wasmprinter_ops.specs.ValTypes.{heap_view, ref_view, val_type_view, val_types_view};
ghost use Rattle.wasmprinter_flat.specs.Contexts.{names_in, labels_around, labels_within};

use crate::immediate_context::Context;
use crate::label_immediates::write_label;
use wasmprinter_custom::Identifiers;
use wasmprinter_ops::cast_flags::{cast_source, cast_target};
use wasmprinter_ops::{HeapType, RefType, ValType, ValTypes};
use wasmprinter_print::Output;
use wasmprinter_text::parens_and_words::{open_group_space, write_close_paren, write_space};
use wasmprinter_text::type_use::Signatures;
use wasmprinter_text::types::{write_heap_type, write_ref_type, write_type_group, write_val_type};

/// Writes a space and one type as a result group.
#[tactic(auto, unfolding(wasmprinter_spec::specs::Layout::Groups::line_group_space))]
pub(crate) fn write_result<O: Output>(
    out: &mut O,
    identifiers: &Identifiers<'_, '_>,
    value_type: ValType,
)
    ensures { O.wrote out.old out.new
        (OneSpace ∷ line_group_space (codes "result") (val_pieces (names_of_identifiers identifiers.now) (val_type_view value_type))) }
{
    write_space(out);
    open_group_space(out, "result");
    write_val_type(out, identifiers, value_type);
    write_close_paren(out);
}

/// Returns the type if there is exactly one.
fn only_type(types: &ValTypes<'_>) -> Option<ValType>
    ensures { result ≡ the_only types.now }
{
    if types.len() == 1 {
        types.iter().next()
    } else {
        None
    }
}

/// Writes a space and the types of a `select` as a group.
pub(crate) fn write_select<O: Output>(
    out: &mut O,
    identifiers: &Identifiers<'_, '_>,
    types: &ValTypes<'_>,
)
    ensures { O.wrote out.old out.new
        (select_pieces (names_of_identifiers identifiers.now) (val_types_view types.now)) }
{
    match only_type(types) {
        Some(value_type) => write_result(out, identifiers, value_type),
        None => write_type_group(out, identifiers, "result", types),
    }
}

/// Writes a space and a heap type.
pub(crate) fn write_heap<O: Output>(out: &mut O, identifiers: &Identifiers<'_, '_>, heap: HeapType)
    ensures { O.wrote out.old out.new
        (OneSpace ∷ heap_pieces (names_of_identifiers identifiers.now) (heap_view heap)) }
{
    write_space(out);
    write_heap_type(out, identifiers, heap);
}

/// Writes a space and a reference type.
pub(crate) fn write_ref<O: Output>(
    out: &mut O,
    identifiers: &Identifiers<'_, '_>,
    ref_type: RefType,
)
    ensures { O.wrote out.old out.new
        (OneSpace ∷ ref_pieces (names_of_identifiers identifiers.now) (ref_view ref_type)) }
{
    write_space(out);
    write_ref_type(out, identifiers, ref_type);
}

/// Writes two reference types, with a space before each.
fn write_refs<O: Output>(
    out: &mut O,
    identifiers: &Identifiers<'_, '_>,
    source: RefType,
    target: RefType,
)
    ensures { O.wrote out.old out.new
        (OneSpace ∷ (ref_pieces (names_of_identifiers identifiers.now) (ref_view source)
        ++ (OneSpace ∷ ref_pieces (names_of_identifiers identifiers.now) (ref_view target)))) }
{
    write_ref(out, identifiers, source);
    write_ref(out, identifiers, target);
}

/// Writes the label, the source type and the target type of a cast, with a space before each. The flags of
/// the cast say which types are nullable.
pub(crate) fn write_cast<O: Output, S: Signatures>(
    out: &mut O,
    context: &Context<'_, '_, '_, '_, S>,
    flags: u8,
    label: u32,
    source: HeapType,
    target: HeapType,
)
    ensures { O.wrote out.old out.new
        (label_pieces (labels_within context.now) (labels_around context.now) label
        ++ (OneSpace ∷ (ref_pieces (names_in context.now) (source_type flags source)
        ++ (OneSpace ∷ ref_pieces (names_in context.now) (target_type flags target))))) }
{
    write_label(out, context, label);
    write_refs(
        out,
        &context.identifiers(),
        cast_source(flags, source),
        cast_target(flags, target),
    );
}
