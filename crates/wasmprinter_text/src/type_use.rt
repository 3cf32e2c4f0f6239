//! Type uses: function types by their indices (section 6.4 of the WebAssembly Core Specification, "Type Uses").
ghost use Rattle.std.specs.Prelude.{◌∷◌, codes};
ghost use Rattle.wasmprinter_spec.specs.Piece.{OneSpace};
ghost use Rattle.wasmprinter_spec.specs.Layout.Groups.{line_group_space};
ghost use Rattle.wasmprinter_spec.specs.Layout.ValTypes.{type_index_pieces};
ghost use Rattle.wasmprinter_spec.specs.Layout.Types.{signature_if_any, type_use_pieces};
ghost use Rattle.wasmprinter_custom.specs.Shown.{names_of_identifiers};

use crate::declarations_and_indices::write_index_group;
use crate::parens_and_words::write_space;
use crate::types::write_signature;
use wasmprinter_custom::{Identifiers, Space};
use wasmprinter_ops::composite_types::FuncType;
use wasmprinter_print::Output;

/// The types of a module, by which function types are looked up.
pub trait Signatures {
    ghost use Rattle.std.specs.Prelude.{◌≡◌, ℕ, Option};
    ghost use Rattle.wasmprinter_spec.specs.Types.{FuncType};

    /// The function type with an index, if there is one.
    ghost signature_at: { Self → ℕ → Option FuncType };

    /// Returns the function type with the index, or `None` if there is no such type or it is not a function type.
    fn signature(&self, index: u32) -> Option<FuncType<'_>>
        ensures { result ≡ signature_at self.now index };
}

/// Writes the parameters and results of the function type with the index. Writes nothing if the index is not that of a
/// function type. The parameters have identifiers only if `owner` is their function.
fn write_signature_at<O: Output, S: Signatures>(
    out: &mut O,
    identifiers: &Identifiers<'_, '_>,
    owner: Option<u64>,
    types: &S,
    index: u32,
)
    ensures { O.wrote out.old out.new
        (signature_if_any (names_of_identifiers identifiers.now) owner (S.signature_at types.now index)) }
{
    if let Some(found) = types.signature(index) {
        write_signature(out, identifiers, owner, &found);
    }
}

/// Writes a space and a group `(type ..)` with the index of a type, by the type's identifier if it has one. It is not
/// checked that there is such a type: an index without one may have an identifier too, given or synthesized.
#[tactic(auto, unfolding(wasmprinter_spec::specs::Layout::ValTypes::type_index_pieces))]
pub fn write_type_index<O: Output>(out: &mut O, identifiers: &Identifiers<'_, '_>, index: u32)
    ensures { O.wrote out.old out.new
        (OneSpace ∷ line_group_space (codes "type") (type_index_pieces (names_of_identifiers identifiers.now) index)) }
{
    write_space(out);
    write_index_group(out, identifiers, "type", Space::Types, index);
}

/// Writes a space, a group `(type ..)` with the index of a type, and the parameters and results of that type if it is a
/// function type: groups `(param ..)`, then a group `(result ..)` if there are results, with a space before each. If
/// `types` has no function type with this index, only the space and the group `(type ..)` are written. The parameters
/// have the identifiers of those of the function `owner`; for `None` they have none. A parameter with an identifier has
/// a group of its own; adjacent ones without share a group.
pub fn write_type_use<O: Output, S: Signatures>(
    out: &mut O,
    identifiers: &Identifiers<'_, '_>,
    owner: Option<u64>,
    types: &S,
    index: u32,
)
    ensures { O.wrote out.old out.new
        (OneSpace ∷ type_use_pieces (names_of_identifiers identifiers.now) owner index (S.signature_at types.now index)) }
{
    write_type_index(out, identifiers, index);
    write_signature_at(out, identifiers, owner, types, index);
}
