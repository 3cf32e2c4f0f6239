//! Composite types and subtypes (section 6.4 of the WebAssembly Core Specification).
ghost use Rattle.std.specs.Prelude.{◌≡◌, [], ◌∷◌, true, ℕ, ◌&&◌, ◌==◌, None, length, option_map};
ghost use Rattle.wasmprinter_spec.specs.Names.{Names};
ghost use Rattle.wasmprinter_spec.specs.Types.{FuncComposite, ArrayComposite, StructComposite};
ghost use Rattle.wasmprinter_spec.specs.Layout.Types.{storage_pieces, field_pieces_by, field_pieces, composite_pieces};
ghost use Rattle.wasmprinter_spec.specs.Layout.Types.{final_pieces, supertype_pieces, sub_group, sub_pieces, type_pieces};
ghost use Rattle.wasmprinter_custom.specs.Shown.{identifier_view, names_of_identifiers};
ghost use Rattle.wasmprinter_ops.specs.Types.{storage_view, field_view, fields_view, composite_view};
ghost use Rattle.wasmprinter_text.specs.Items.{owned_field, owned_fields};

use crate::declarations_and_indices::{write_declaration_of, write_identifier_space};
use crate::parens_and_words::{
    open_group, open_group_space, open_plain, write_close_paren, write_space, write_word,
};
use crate::types::{write_signature, write_type_number, write_val_type};
use wasmprinter_custom::{Identifier, Identifiers, Space};
use wasmprinter_ops::composite_types::{
    CompositeType, FieldType, FieldTypes, FuncType, StorageType, SubType, TypeIndices,
};
use wasmprinter_print::Output;

/// Writes the storage type of a field.
#[tactic(auto, unfolding(wasmprinter_spec::specs::Layout::Types::storage_pieces))]
fn write_storage<O: Output>(out: &mut O, identifiers: &Identifiers<'_, '_>, storage: StorageType)
    ensures { O.wrote out.old out.new
        (storage_pieces (names_of_identifiers identifiers.now) (storage_view storage)) }
{
    match storage {
        StorageType::Val(value_type) => write_val_type(out, identifiers, value_type),
        StorageType::I8 => write_word(out, "i8"),
        StorageType::I16 => write_word(out, "i16"),
    }
}

/// Writes the storage type of a mutable field, as a group.
fn write_mutable<O: Output>(out: &mut O, identifiers: &Identifiers<'_, '_>, storage: StorageType)
    ensures { O.wrote out.old out.new
        (field_pieces_by (names_of_identifiers identifiers.now) true (storage_view storage)) }
{
    open_plain(out, "mut");
    write_space(out);
    write_storage(out, identifiers, storage);
    write_close_paren(out);
}

/// Writes a field type.
fn write_field_type<O: Output>(out: &mut O, identifiers: &Identifiers<'_, '_>, field: FieldType)
    ensures { O.wrote out.old out.new
        (field_pieces_by (names_of_identifiers identifiers.now) field.mutable (storage_view field.storage)) }
{
    if field.mutable {
        write_mutable(out, identifiers, field.storage);
    } else {
        write_storage(out, identifiers, field.storage);
    }
}

/// Writes a space, the identifier of a field, if it has one, and its type.
#[tactic(auto, unfolding(wasmprinter_spec::specs::Layout::Types::field_pieces))]
fn write_field<O: Output>(
    out: &mut O,
    identifiers: &Identifiers<'_, '_>,
    identifier: Option<Identifier<'_>>,
    field: FieldType,
)
    ensures { O.wrote out.old out.new
        (field_pieces (names_of_identifiers identifiers.now) (option_map identifier_view identifier.entry) (field_view field)) }
{
    write_space(out);
    write_identifier_space(out, identifier);
    write_field_type(out, identifiers, field);
}

/// Writes a space and a field of the structure type `owner`, as a group.
#[tactic(auto, unfolding(wasmprinter_spec::specs::Layout::Types::struct_field_pieces))]
fn write_field_group<O: Output>(
    out: &mut O,
    identifiers: &Identifiers<'_, '_>,
    owner: u64,
    number: u64,
    field: FieldType,
)
    ensures { O.wrote out.old out.new
        (owned_field (names_of_identifiers identifiers.now) owner number (field_view field)) }
{
    write_space(out);
    open_plain(out, "field");
    write_field(
        out,
        identifiers,
        identifiers.item(Space::Field, owner, number),
        field,
    );
    write_close_paren(out);
}

/// Writes the fields of the structure type `owner`, with a space before each.
fn write_fields<O: Output>(
    out: &mut O,
    identifiers: &Identifiers<'_, '_>,
    owner: u64,
    fields: &FieldTypes<'_>,
)
    ensures { O.wrote out.old out.new
        (owned_fields (names_of_identifiers identifiers.now) owner (fields_view fields.now)) }
{
    for (number, field) in (0..u64::from(fields.len())).zip(fields.iter()) {
        if out.has_failed() {
            return;
        }
        write_field_group(out, identifiers, owner, number, field);
    }
}

/// Writes a function type, as a group.
#[tactic(auto, unfolding(wasmprinter_spec::specs::Layout::Types::composite_pieces, wasmprinter_spec::specs::Layout::Groups::line_group))]
fn write_func_type<O: Output>(
    out: &mut O,
    identifiers: &Identifiers<'_, '_>,
    func_type: &FuncType<'_>,
)
    ensures { (i : ℕ) → O.wrote out.old out.new
        (composite_pieces (names_of_identifiers identifiers.now) i (FuncComposite func_type.now)) }
{
    open_group(out, "func");
    write_signature(out, identifiers, None, func_type);
    write_close_paren(out);
}

/// Writes an array type with the given element type, as a group.
#[tactic(auto, unfolding(wasmprinter_spec::specs::Layout::Types::composite_pieces, wasmprinter_spec::specs::Layout::Groups::line_group))]
fn write_array_type<O: Output>(out: &mut O, identifiers: &Identifiers<'_, '_>, element: FieldType)
    ensures { (i : ℕ) → O.wrote out.old out.new
        (composite_pieces (names_of_identifiers identifiers.now) i (ArrayComposite (field_view element))) }
{
    open_group(out, "array");
    write_field(out, identifiers, None, element);
    write_close_paren(out);
}

/// Writes the structure type with the given index and fields, as a group.
#[tactic(auto, unfolding(wasmprinter_spec::specs::Layout::Types::composite_pieces, wasmprinter_spec::specs::Layout::Groups::line_group))]
fn write_struct_type<O: Output>(
    out: &mut O,
    identifiers: &Identifiers<'_, '_>,
    number: u64,
    fields: &FieldTypes<'_>,
)
    ensures { O.wrote out.old out.new
        (composite_pieces (names_of_identifiers identifiers.now) number (StructComposite (fields_view fields.now))) }
{
    open_group(out, "struct");
    write_fields(out, identifiers, number, fields);
    write_close_paren(out);
}

/// Writes the composite type of the type with the given index.
fn write_composite_type<O: Output>(
    out: &mut O,
    identifiers: &Identifiers<'_, '_>,
    number: u64,
    composite: &CompositeType<'_>,
)
    ensures { O.wrote out.old out.new
        (composite_pieces (names_of_identifiers identifiers.now) number (composite_view composite.now)) }
{
    match composite {
        CompositeType::Func(func_type) => write_func_type(out, identifiers, func_type),
        CompositeType::Array(element) => write_array_type(out, identifiers, *element),
        CompositeType::Struct(fields) => write_struct_type(out, identifiers, number, fields),
    }
}

/// Writes `final` and a space if the subtype is final.
fn write_final_if<O: Output>(out: &mut O, is_final: bool)
    ensures { (names : Names) → O.wrote out.old out.new (final_pieces names is_final) }
{
    if is_final {
        write_word(out, "final");
        write_space(out);
    }
}

/// Writes the index of a supertype and a space.
#[tactic(auto, unfolding(wasmprinter_spec::specs::Layout::Types::supertype_pieces))]
fn write_supertype<O: Output>(out: &mut O, identifiers: &Identifiers<'_, '_>, index: u32)
    ensures { O.wrote out.old out.new
        (supertype_pieces (names_of_identifiers identifiers.now) (index ∷ [])) }
{
    write_type_number(out, identifiers, index);
    write_space(out);
}

/// Writes the indices of supertypes, with a space after each.
fn write_supertypes<O: Output>(
    out: &mut O,
    identifiers: &Identifiers<'_, '_>,
    supertypes: &TypeIndices<'_>,
)
    ensures { O.wrote out.old out.new
        (supertype_pieces (names_of_identifiers identifiers.now) supertypes.now) }
{
    for index in supertypes.iter() {
        if out.has_failed() {
            return;
        }
        write_supertype(out, identifiers, index);
    }
}

/// Writes the subtype of the type with the given index, as a group.
#[tactic(auto, unfolding(wasmprinter_spec::specs::Layout::Types::sub_group, wasmprinter_spec::specs::Layout::Groups::line_group))]
fn write_sub_group<O: Output>(
    out: &mut O,
    identifiers: &Identifiers<'_, '_>,
    number: u64,
    sub_type: &SubType<'_>,
)
    ensures { O.wrote out.old out.new
        (sub_group (names_of_identifiers identifiers.now) number sub_type.now.final sub_type.now.supertypes sub_type.now.composite) }
{
    open_group(out, "sub");
    write_space(out);
    write_final_if(out, sub_type.is_final());
    write_supertypes(out, identifiers, &sub_type.supertypes());
    write_composite_type(out, identifiers, number, sub_type.composite());
    write_close_paren(out);
}

/// Reports whether a subtype is written as its composite type alone: it is final and has no supertypes.
fn is_plain(sub_type: &SubType<'_>) -> bool
    ensures { result ≡ (sub_type.now.final && (length sub_type.now.supertypes == 0)) }
{
    sub_type.is_final() && sub_type.supertypes().len() == 0
}

/// Writes the subtype of the type with the given index. A final type without supertypes is written as its
/// composite type alone.
fn write_sub_type<O: Output>(
    out: &mut O,
    identifiers: &Identifiers<'_, '_>,
    number: u64,
    sub_type: &SubType<'_>,
)
    ensures { O.wrote out.old out.new
        (sub_pieces (names_of_identifiers identifiers.now) number sub_type.now) }
{
    if is_plain(sub_type) {
        write_composite_type(out, identifiers, number, sub_type.composite());
    } else {
        write_sub_group(out, identifiers, number, sub_type);
    }
}

/// Writes the type with the index `number` as one group on the current line: `(type`, its identifier if it has one, the
/// comment `(;number;)` ([`write_declaration_of`]), and its subtype. A final type without supertypes is written as its
/// composite type alone, any other as a group `(sub ..)`. The fields of a structure type have the identifiers that the
/// module gives to the fields of type `number`.
#[tactic(auto, unfolding(wasmprinter_spec::specs::Layout::Types::type_pieces, wasmprinter_spec::specs::Layout::Groups::line_group_space))]
pub fn write_type_field<O: Output>(
    out: &mut O,
    identifiers: &Identifiers<'_, '_>,
    number: u64,
    sub_type: &SubType<'_>,
)
    ensures { O.wrote out.old out.new
        (type_pieces (names_of_identifiers identifiers.now) number sub_type.now) }
{
    open_group_space(out, "type");
    write_declaration_of(out, identifiers, Space::Types, 0, number);
    write_space(out);
    write_sub_type(out, identifiers, number, sub_type);
    write_close_paren(out);
}
