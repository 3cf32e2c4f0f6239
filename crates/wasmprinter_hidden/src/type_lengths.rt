//! Lengths of the shortest encodings of types (section 5.3 of the WebAssembly Core Specification).
ghost use Rattle.std.specs.Prelude.{◌≡◌, ◌-◌};
ghost use Rattle.wasmprinter_spec.specs.Types.{CompositeType as CompositeTypeValue};
ghost use Rattle.wasmprinter_hidden.specs.Lengths.{items_len, composite_type_len, sub_type_parts_len, sub_type_len, max_len, tag_len};

use crate::excess::{Excess, Shortest};
use crate::list_lengths::take_list;
use wasmprinter_decoder::{ExternType, GlobalType, Limits, MemoryType, TableType, TypeGroup};
use wasmprinter_ops::composite_types::{
    CompositeType, FieldType, FuncType, StorageType, SubType, SubTypes, TypeIndices,
};
use wasmprinter_ops::{HeapType, RefType, ValType};

impl Shortest for HeapType {
    ghost use Rattle.wasmprinter_ops.specs.ValTypes.{heap_view};
    ghost use Rattle.wasmprinter_hidden.specs.Lengths.{heap_type_len};

    ghost len = { λ t. heap_type_len (heap_view t) };

    fn take_from(&self, excess: &mut Excess) {
        match *self {
            HeapType::Index(index) => i64::from(index).take_from(excess),
            _ => excess.take(1),
        }
    }
}

impl Shortest for RefType {
    ghost use Rattle.wasmprinter_ops.specs.ValTypes.{ref_view};
    ghost use Rattle.wasmprinter_hidden.specs.Lengths.{ref_type_len};

    ghost len = { λ t. ref_type_len (ref_view t) };

    fn take_from(&self, excess: &mut Excess) {
        // A byte says whether the reference may be null. An abstract heap type alone encodes one that may.
        if !self.nullable || matches!(self.heap, HeapType::Index(_)) {
            excess.take(1);
        }
        self.heap.take_from(excess);
    }
}

impl Shortest for ValType {
    ghost use Rattle.wasmprinter_ops.specs.ValTypes.{val_type_view};
    ghost use Rattle.wasmprinter_hidden.specs.Lengths.{val_type_len};

    ghost len = { λ t. val_type_len (val_type_view t) };

    fn take_from(&self, excess: &mut Excess) {
        match self {
            ValType::Ref(ref_type) => ref_type.take_from(excess),
            _ => excess.take(1),
        }
    }
}

impl Shortest for StorageType {
    ghost use Rattle.wasmprinter_ops.specs.Types.{storage_view};
    ghost use Rattle.wasmprinter_hidden.specs.Lengths.{storage_type_len};

    ghost len = { λ t. storage_type_len (storage_view t) };

    fn take_from(&self, excess: &mut Excess) {
        match self {
            StorageType::Val(val_type) => val_type.take_from(excess),
            _ => excess.take(1),
        }
    }
}

impl Shortest for FieldType {
    ghost use Rattle.wasmprinter_ops.specs.Types.{field_view};
    ghost use Rattle.wasmprinter_hidden.specs.Lengths.{field_type_len};

    ghost len = { λ t. field_type_len (field_view t) };

    fn take_from(&self, excess: &mut Excess) {
        self.storage.take_from(excess);
        excess.take(1);
    }
}

impl Shortest for FuncType<'_> {
    ghost use Rattle.std.specs.Prelude.{◌+◌};
    ghost use Rattle.wasmprinter_hidden.specs.Lengths.{list_len, val_type_len};

    ghost len = { λ t. list_len val_type_len t.params + list_len val_type_len t.results };

    fn take_from(&self, excess: &mut Excess) {
        take_list(&self.params(), excess);
        take_list(&self.results(), excess);
    }
}

impl Shortest for CompositeType<'_> {
    ghost use Rattle.wasmprinter_ops.specs.Types.{composite_view};
    ghost use Rattle.wasmprinter_hidden.specs.Lengths.{composite_type_len};

    ghost len = { λ t. composite_type_len (composite_view t) };

    fn take_from(&self, excess: &mut Excess) {
        excess.take(1);
        match self {
            CompositeType::Func(func_type) => func_type.take_from(excess),
            CompositeType::Array(element) => element.take_from(excess),
            CompositeType::Struct(fields) => take_list(fields, excess),
        }
    }
}

/// Takes the bytes before the composite type of a subtype away: none if the type is final and has no supertypes, otherwise
/// a byte that says whether it is final, and the supertypes.
fn take_supertypes(is_final: bool, supertypes: &TypeIndices, excess: &mut Excess)
    ensures { (t : CompositeTypeValue) → excess.new.bytes - composite_type_len t ≡ excess.old.bytes - sub_type_parts_len is_final supertypes.now t }
{
    if is_final && supertypes.len() == 0 {
        return;
    }
    excess.take(1);
    take_list(supertypes, excess);
}

impl Shortest for SubType<'_> {
    ghost use Rattle.wasmprinter_hidden.specs.Lengths.{sub_type_len};

    ghost len = { sub_type_len };

    fn take_from(&self, excess: &mut Excess) {
        take_supertypes(self.is_final(), &self.supertypes(), excess);
        self.composite().take_from(excess);
    }
}

/// Takes the bytes of subtypes away, without those of their count.
fn take_sub_types(types: SubTypes, excess: &mut Excess)
    ensures { excess.new.bytes ≡ excess.old.bytes - items_len sub_type_len types.entry }
{
    for sub_type in types {
        sub_type.take_from(excess);
    }
}

impl Shortest for TypeGroup<'_> {
    ghost use Rattle.wasmprinter_hidden.specs.Lengths.{group_len};

    ghost len = { λ g. group_len g.value };

    fn take_from(&self, excess: &mut Excess) {
        let types = self.types();
        if self.is_explicit() {
            excess.take(1);
            types.len().take_from(excess);
        }
        take_sub_types(types, excess);
    }
}

/// Takes the bytes of a number away, if there is one.
fn take_max(max: Option<u64>, excess: &mut Excess)
    ensures { excess.new.bytes ≡ excess.old.bytes - max_len max }
{
    if let Some(max) = max {
        max.take_from(excess);
    }
}

impl Shortest for Limits {
    ghost use Rattle.wasmprinter_decoder.specs.Externs.{limits_view};
    ghost use Rattle.wasmprinter_hidden.specs.Lengths.{limits_len};

    ghost len = { λ l. limits_len (limits_view l) };

    fn take_from(&self, excess: &mut Excess) {
        self.min.take_from(excess);
        take_max(self.max, excess);
    }
}

impl Shortest for TableType {
    ghost use Rattle.wasmprinter_decoder.specs.Externs.{table_type_view};
    ghost use Rattle.wasmprinter_hidden.specs.Lengths.{table_type_len};

    ghost len = { λ t. table_type_len (table_type_view t) };

    fn take_from(&self, excess: &mut Excess) {
        self.element.take_from(excess);
        excess.take(1);
        self.limits.take_from(excess);
    }
}

impl Shortest for MemoryType {
    ghost use Rattle.wasmprinter_decoder.specs.Externs.{memory_type_view};
    ghost use Rattle.wasmprinter_hidden.specs.Lengths.{memory_type_len};

    ghost len = { λ t. memory_type_len (memory_type_view t) };

    fn take_from(&self, excess: &mut Excess) {
        excess.take(1);
        self.limits.take_from(excess);
        if let Some(page) = self.page {
            page.take_from(excess);
        }
    }
}

impl Shortest for GlobalType {
    ghost use Rattle.wasmprinter_decoder.specs.Externs.{global_type_view};
    ghost use Rattle.wasmprinter_hidden.specs.Lengths.{global_type_len};

    ghost len = { λ t. global_type_len (global_type_view t) };

    fn take_from(&self, excess: &mut Excess) {
        self.ty.take_from(excess);
        excess.take(1);
    }
}

/// Takes the bytes of a tag type away.
pub(crate) fn take_tag(type_index: u32, excess: &mut Excess)
    ensures { excess.new.bytes ≡ excess.old.bytes - tag_len type_index }
{
    excess.take(1);
    type_index.take_from(excess);
}

impl Shortest for ExternType {
    ghost use Rattle.wasmprinter_decoder.specs.Externs.{extern_view};
    ghost use Rattle.wasmprinter_hidden.specs.Lengths.{extern_type_len};

    ghost len = { λ t. extern_type_len (extern_view t) };

    fn take_from(&self, excess: &mut Excess) {
        excess.take(1);
        match self {
            ExternType::Func(type_index) => type_index.take_from(excess),
            ExternType::Table(table_type) => table_type.take_from(excess),
            ExternType::Memory(memory_type) => memory_type.take_from(excess),
            ExternType::Global(global_type) => global_type.take_from(excess),
            ExternType::Tag(type_index) => take_tag(*type_index, excess),
        }
    }
}
