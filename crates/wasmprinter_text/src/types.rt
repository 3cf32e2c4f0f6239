//! Heap types, reference types, value types, and signatures (section 6.4 of the WebAssembly Core Specification).
ghost use Rattle.std.specs.Prelude.{◌≡◌, [], ◌∷◌, codes};
ghost use Rattle.wasmprinter_spec.specs.Piece.{OneSpace};
ghost use Rattle.wasmprinter_spec.specs.Types.{Index};
ghost use Rattle.wasmprinter_spec.specs.Layout.ValTypes.{heap_word, ref_word, type_index_pieces, heap_pieces, null_ref_pieces};
ghost use Rattle.wasmprinter_spec.specs.Layout.ValTypes.{ref_pieces, val_pieces, type_list as list_of_types};
ghost use Rattle.wasmprinter_spec.specs.Layout.Types.{list_group as group_of_types, signature_pieces};
ghost use Rattle.wasmprinter_spec.specs.Layout.Groups.{line_group, line_group_space};
ghost use Rattle.wasmprinter_custom.specs.Shown.{names_of_identifiers};
ghost use Rattle.wasmprinter_ops.specs.ValTypes.{heap_view, ref_view, val_type_view, val_types_view};

pub mod definitions;
pub mod params_and_locals;

use crate::declarations_and_indices::write_index_of;
use crate::parens_and_words::{
    open_group, open_group_space, write_close_paren, write_space, write_type_word, write_word,
};
use crate::types::params_and_locals::write_params;
use wasmprinter_custom::{Identifiers, Space};
use wasmprinter_ops::composite_types::FuncType;
use wasmprinter_ops::{HeapType, RefType, ValType, ValTypes};
use wasmprinter_print::Output;

/// Returns the keyword of an abstract heap type, or an empty string for a type index.
fn heap_word(heap: HeapType) -> &'static str
    ensures { result.now ≡ heap_word (heap_view heap) }
{
    match heap {
        HeapType::Exn => "exn",
        HeapType::Array => "array",
        HeapType::Struct => "struct",
        HeapType::I31 => "i31",
        HeapType::Eq => "eq",
        HeapType::Any => "any",
        HeapType::Extern => "extern",
        HeapType::Func => "func",
        HeapType::NoAny => "none",
        HeapType::NoExtern => "noextern",
        HeapType::NoFunc => "nofunc",
        HeapType::NoExn => "noexn",
        HeapType::Index(_) => "",
    }
}

/// Returns the keyword of the nullable reference type to an abstract heap type, or an empty string for a type index.
fn ref_word(heap: HeapType) -> &'static str
    ensures { result.now ≡ ref_word (heap_view heap) }
{
    match heap {
        HeapType::Exn => "exnref",
        HeapType::Array => "arrayref",
        HeapType::Struct => "structref",
        HeapType::I31 => "i31ref",
        HeapType::Eq => "eqref",
        HeapType::Any => "anyref",
        HeapType::Extern => "externref",
        HeapType::Func => "funcref",
        HeapType::NoAny => "nullref",
        HeapType::NoExtern => "nullexternref",
        HeapType::NoFunc => "nullfuncref",
        HeapType::NoExn => "nullexnref",
        HeapType::Index(_) => "",
    }
}

/// Writes the index of a type.
#[tactic(auto, unfolding(wasmprinter_spec::specs::Layout::ValTypes::type_index_pieces))]
pub(crate) fn write_type_number<O: Output>(
    out: &mut O,
    identifiers: &Identifiers<'_, '_>,
    index: u32,
)
    ensures { O.wrote out.old out.new (type_index_pieces (names_of_identifiers identifiers.now) index) }
{
    write_index_of(out, identifiers, Space::Types, 0, u64::from(index));
}

/// Writes a heap type: its word in the style of types or, for a type index, the index as [`write_index_of`] does. It is
/// not checked that there is such a type.
#[tactic(auto, unfolding(wasmprinter_spec::specs::Layout::ValTypes::heap_pieces))]
pub fn write_heap_type<O: Output>(out: &mut O, identifiers: &Identifiers<'_, '_>, heap: HeapType)
    ensures { O.wrote out.old out.new (heap_pieces (names_of_identifiers identifiers.now) (heap_view heap)) }
{
    match heap {
        HeapType::Index(index) => write_type_number(out, identifiers, index),
        _ => write_type_word(out, heap_word(heap)),
    }
}

/// Writes the nullable reference type to a type index.
#[tactic(auto, unfolding(wasmprinter_spec::specs::Layout::ValTypes::null_ref_pieces, wasmprinter_spec::specs::Layout::Groups::line_group))]
fn write_null_index<O: Output>(out: &mut O, identifiers: &Identifiers<'_, '_>, index: u32)
    ensures { O.wrote out.old out.new
        (null_ref_pieces (names_of_identifiers identifiers.now) (Index index)) }
{
    open_group(out, "ref");
    write_space(out);
    write_word(out, "null");
    write_space(out);
    write_heap_type(out, identifiers, HeapType::Index(index));
    write_close_paren(out);
}

/// Writes a nullable reference type: one keyword, or a group if the heap type is a type index.
#[tactic(auto, unfolding(wasmprinter_spec::specs::Layout::ValTypes::null_ref_pieces))]
fn write_null_ref<O: Output>(out: &mut O, identifiers: &Identifiers<'_, '_>, heap: HeapType)
    ensures { O.wrote out.old out.new
        (null_ref_pieces (names_of_identifiers identifiers.now) (heap_view heap)) }
{
    match heap {
        HeapType::Index(index) => write_null_index(out, identifiers, index),
        _ => write_type_word(out, ref_word(heap)),
    }
}

/// Writes a non-nullable reference type.
#[tactic(auto, unfolding(wasmprinter_spec::specs::Layout::Groups::line_group_space))]
fn write_some_ref<O: Output>(out: &mut O, identifiers: &Identifiers<'_, '_>, heap: HeapType)
    ensures { O.wrote out.old out.new
        (line_group_space (codes "ref") (heap_pieces (names_of_identifiers identifiers.now) (heap_view heap))) }
{
    open_group_space(out, "ref");
    write_heap_type(out, identifiers, heap);
    write_close_paren(out);
}

/// Writes a reference type. A nullable reference to an abstract heap type is one word in the style of types, such as
/// `funcref`. Any other is a group, such as `(ref func)` or `(ref null 0)`, with its heap type as [`write_heap_type`]
/// does.
#[tactic(auto, unfolding(wasmprinter_spec::specs::Layout::ValTypes::ref_pieces))]
pub fn write_ref_type<O: Output>(out: &mut O, identifiers: &Identifiers<'_, '_>, ref_type: RefType)
    ensures { O.wrote out.old out.new (ref_pieces (names_of_identifiers identifiers.now) (ref_view ref_type)) }
{
    if ref_type.nullable {
        write_null_ref(out, identifiers, ref_type.heap);
    } else {
        write_some_ref(out, identifiers, ref_type.heap);
    }
}

/// Writes a value type: a word such as `i32` in the style of types, or a reference type as [`write_ref_type`] does.
#[tactic(auto, unfolding(wasmprinter_spec::specs::Layout::ValTypes::val_pieces))]
pub fn write_val_type<O: Output>(
    out: &mut O,
    identifiers: &Identifiers<'_, '_>,
    value_type: ValType,
)
    ensures { O.wrote out.old out.new (val_pieces (names_of_identifiers identifiers.now) (val_type_view value_type)) }
{
    match value_type {
        ValType::I32 => write_type_word(out, "i32"),
        ValType::I64 => write_type_word(out, "i64"),
        ValType::F32 => write_type_word(out, "f32"),
        ValType::F64 => write_type_word(out, "f64"),
        ValType::V128 => write_type_word(out, "v128"),
        ValType::Ref(ref_type) => write_ref_type(out, identifiers, ref_type),
    }
}

/// Writes a space and a value type.
pub(crate) fn write_space_val_type<O: Output>(
    out: &mut O,
    identifiers: &Identifiers<'_, '_>,
    value_type: ValType,
)
    ensures { O.wrote out.old out.new
        (list_of_types (names_of_identifiers identifiers.now) (val_type_view value_type ∷ [])) }
{
    write_space(out);
    write_val_type(out, identifiers, value_type);
}

/// Writes value types, with a space before each.
fn write_type_list<O: Output>(out: &mut O, identifiers: &Identifiers<'_, '_>, types: &ValTypes<'_>)
    ensures { O.wrote out.old out.new
        (list_of_types (names_of_identifiers identifiers.now) (val_types_view types.now)) }
{
    for value_type in types.iter() {
        if out.has_failed() {
            return;
        }
        write_space_val_type(out, identifiers, value_type);
    }
}

/// Writes a space and a group of a keyword and types, with a space before each type. The group is written also if there
/// are no types.
#[tactic(auto, unfolding(wasmprinter_spec::specs::Layout::Groups::line_group))]
pub fn write_type_group<O: Output>(
    out: &mut O,
    identifiers: &Identifiers<'_, '_>,
    keyword: &str,
    types: &ValTypes<'_>,
)
    ensures { O.wrote out.old out.new
        (OneSpace ∷ line_group keyword.now (list_of_types (names_of_identifiers identifiers.now) (val_types_view types.now))) }
{
    write_space(out);
    open_group(out, keyword);
    write_type_list(out, identifiers, types);
    write_close_paren(out);
}

/// Writes a space and a group of a keyword and types. Writes nothing if there are no types.
fn write_type_group_if_any<O: Output>(
    out: &mut O,
    identifiers: &Identifiers<'_, '_>,
    keyword: &str,
    types: &ValTypes<'_>,
)
    ensures { O.wrote out.old out.new
        (group_of_types (names_of_identifiers identifiers.now) keyword.now (val_types_view types.now)) }
{
    if types.len() != 0 {
        write_type_group(out, identifiers, keyword, types);
    }
}

/// Writes the parameters of a function type in groups, then its results in one group, with a space before each group.
/// The parameters have identifiers only if `owner` is their function.
#[tactic(auto, unfolding(wasmprinter_spec::specs::Layout::Types::signature_pieces))]
pub(crate) fn write_signature<O: Output>(
    out: &mut O,
    identifiers: &Identifiers<'_, '_>,
    owner: Option<u64>,
    func_type: &FuncType<'_>,
)
    ensures { O.wrote out.old out.new
        (signature_pieces (names_of_identifiers identifiers.now) owner func_type.now) }
{
    write_params(out, identifiers, owner, &func_type.params());
    write_type_group_if_any(out, identifiers, "result", &func_type.results());
}
