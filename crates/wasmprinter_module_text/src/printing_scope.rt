//! Shared state for printing module fields, and helpers that print declarations, indices and types.
ghost use Rattle.std.specs.Prelude.{◌≡◌, ◌∷◌, ℕ};
ghost use Rattle.wasmprinter_spec.specs.Piece.{OneSpace};
ghost use Rattle.wasmprinter_spec.specs.Layout.Groups.{line_group_space};
ghost use Rattle.wasmprinter_spec.specs.Layout.Declarations.{type_use};
ghost use Rattle.wasmprinter_spec.specs.Layout.Identifiers.{declaration_pieces, index_pieces};
ghost use Rattle.wasmprinter_spec.specs.Layout.ValTypes.{ref_pieces, val_pieces};
ghost use Rattle.wasmprinter_spec.specs.Layout.Types.{type_pieces};
ghost use Rattle.wasmprinter_custom.specs.Shown.{names_of_identifiers};
ghost use Rattle.wasmprinter_text.specs.Items.{item_of};
ghost use Rattle.wasmprinter_ops.specs.ValTypes.{ref_view, val_type_view};
ghost use Rattle.wasmprinter_flat.specs.OpenLabels.LabelState.{names_of};
ghost use Rattle.wasmprinter_module_text.specs.Scopes.{scope_view, item_in};

use wasmprinter_custom::{Identifiers, Space};
use wasmprinter_decoder::{Fields, Module};
use wasmprinter_flat::open_labels::OpenLabels;
use wasmprinter_fold::Folder;
use wasmprinter_ops::composite_types::{FuncType, SubType};
use wasmprinter_ops::{RefType, ValType};
use wasmprinter_print::Output;
use wasmprinter_text::declarations_and_indices::{self, write_declaration_of, write_index_of};
use wasmprinter_text::type_use::{self, Signatures};
use wasmprinter_text::types;
use wasmprinter_text::types::definitions::write_type_field;

/// The nesting depth of the fields of a module.
pub const FIELD_NESTING: u64 = 1;

/// The types of a module, for looking up the types of blocks.
#[derive(Clone, Copy)]
pub struct ModuleTypes<'m, 'a> {
    /// The module.
    pub module: &'m Module<'a>,
}

impl<'m, 'a> Signatures for ModuleTypes<'m, 'a> {
    ghost use Rattle.wasmprinter_spec.specs.Types.{all_types, signature_at as signature_of_type};
    ghost use Rattle.wasmprinter_spec.specs.Module.{groups_of};

    ghost signature_at = { λ s n. signature_of_type (all_types (groups_of s.module.now.types)) n };

    fn signature(&self, index: u32) -> Option<FuncType<'_>> {
        self.module.signature(index)
    }
}

/// Shared state for printing module fields.
#[derive(Drop)]
pub struct Scope<'s, 'a> {
    /// The types of the module.
    pub types: ModuleTypes<'s, 'a>,
    /// The labels of open blocks, with the identifiers of the module.
    pub labels: OpenLabels<'s, 'a>,
    /// The function whose locals and labels an expression refers to.
    pub function: u64,
    /// The folder, if operators are folded.
    pub folder: Option<Folder<'s, 'a>>,
}

impl<'s, 'a> Scope<'s, 'a> {
    /// Returns the identifiers of the module: those of this scope for all items (`all`), and so for each single item of
    /// the module (`items`). There, 0 is the function or type that only locals, labels and fields have.
    pub fn identifiers(&self) -> Identifiers<'s, 'a>
        ensures all { names_of_identifiers result ≡ names_of self.now.labels }
        ensures items { (space : Space) (n : ℕ) → item_of result space 0 n ≡ item_in self.now.labels space n }
    {
        self.labels.identifiers()
    }
}

/// Writes the declaration of an item of the module: its identifier, if it has one, its name, if that is not the
/// identifier, and a comment with its index. `number` is the index.
pub fn write_declaration_in<O: Output>(
    out: &mut O,
    scope: &Scope<'_, '_>,
    space: Space,
    number: u64,
)
    ensures { O.wrote out.old out.new
        (declaration_pieces (item_in scope.now.labels space number) number) }
{
    write_declaration_of(out, &scope.identifiers(), space, 0, number);
}

/// Writes an index of an item of the module: the item's identifier or, if it has none, the number.
pub fn write_index_in<O: Output>(out: &mut O, scope: &Scope<'_, '_>, space: Space, index: u32)
    ensures { O.wrote out.old out.new
        (index_pieces (item_in scope.now.labels space index) index) }
{
    write_index_of(out, &scope.identifiers(), space, 0, u64::from(index));
}

/// Writes a group within one line: the keyword, a space and the index of an item of the module as [`write_index_in`]
/// writes it.
pub fn write_index_group_in<O: Output>(
    out: &mut O,
    scope: &Scope<'_, '_>,
    keyword: &str,
    space: Space,
    index: u32,
)
    ensures { O.wrote out.old out.new
        (line_group_space keyword.now (index_pieces (item_in scope.now.labels space index) index)) }
{
    declarations_and_indices::write_index_group(out, &scope.identifiers(), keyword, space, index);
}

/// Writes a space, the index of a type, and the parameters and results of that type if it is a function type. The
/// parameters have identifiers only if `owner` is their function.
pub(crate) fn write_type_use_in<O: Output>(
    out: &mut O,
    scope: &Scope<'_, '_>,
    owner: Option<u64>,
    index: u32,
)
    ensures { O.wrote out.old out.new
        (OneSpace ∷ type_use (scope_view O.chosen scope.now) owner index) }
{
    type_use::write_type_use(out, &scope.identifiers(), owner, &scope.types, index);
}

/// Writes a reference type. A type index in it is written by the identifier of the type, if it has one.
pub fn write_ref_type_in<O: Output>(out: &mut O, scope: &Scope<'_, '_>, ref_type: RefType)
    ensures { O.wrote out.old out.new
        (ref_pieces (names_of scope.now.labels) (ref_view ref_type)) }
{
    types::write_ref_type(out, &scope.identifiers(), ref_type);
}

/// Writes a value type. A type index in it is written by the identifier of the type, if it has one.
pub fn write_val_type_in<O: Output>(out: &mut O, scope: &Scope<'_, '_>, value_type: ValType)
    ensures { O.wrote out.old out.new
        (val_pieces (names_of scope.now.labels) (val_type_view value_type)) }
{
    types::write_val_type(out, &scope.identifiers(), value_type);
}

/// Writes the type with the index `number` as a group: its declaration, a space and its definition, `sub_type`.
pub fn write_type_in<O: Output>(
    out: &mut O,
    scope: &Scope<'_, '_>,
    number: u64,
    sub_type: &SubType<'_>,
)
    ensures { O.wrote out.old out.new
        (type_pieces (names_of scope.now.labels) number sub_type.now) }
{
    write_type_field(out, &scope.identifiers(), number, sub_type);
}
