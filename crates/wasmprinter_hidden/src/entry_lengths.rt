//! Lengths of the shortest encodings of the entries of sections (section 5.5 of the WebAssembly Core Specification), and of
//! the expressions in them (section 5.4, "Expressions").
ghost use Rattle.std.specs.Prelude.{◌≡◌, ◌-◌};
ghost use Rattle.wasmprinter_decoder.specs.Segments.{init_view, element_mode_view, element_items_view, data_mode_view};
ghost use Rattle.wasmprinter_hidden.specs.Lengths.{table_init_len, element_mode_len, omits_type, element_items_len, data_mode_len};

use crate::excess::{Excess, Shortest};
use crate::list_lengths::{take_bytes, take_list, take_slice};
use crate::operator_lengths::take_memory;
use crate::type_lengths::take_tag;
use wasmprinter_decoder::{
    Data, DataMode, Element, ElementItems, ElementMode, Export, Global, Import, LocalEntry, Memory,
    Table, Tag,
};
use wasmprinter_ops::expression::Expression;

/// The number of bytes before the type of a table with an initialiser.
const INIT_LEN: u64 = 2;

impl Shortest for Expression<'_> {
    ghost use Rattle.wasmprinter_hidden.specs.Lengths.{expression_len};

    ghost len = { λ e. expression_len e.items };

    fn take_from(&self, excess: &mut Excess) {
        for (_, operator) in self.operators() {
            operator.take_from(excess);
        }
        excess.take(1);
    }
}

impl Shortest for Import<'_> {
    ghost use Rattle.wasmprinter_hidden.specs.Lengths.{import_len};

    ghost len = { λ i. import_len i.value };

    fn take_from(&self, excess: &mut Excess) {
        take_bytes(self.module().as_bytes(), excess);
        take_bytes(self.name().as_bytes(), excess);
        self.ty().take_from(excess);
    }
}

/// Takes the bytes of the initialiser of a table away, if there is one, with those before the table's type.
fn take_init(init: Option<&Expression>, excess: &mut Excess)
    ensures { excess.new.bytes ≡ excess.old.bytes - table_init_len (init_view init.entry) }
{
    if let Some(init) = init {
        excess.take(INIT_LEN);
        init.take_from(excess);
    }
}

impl Shortest for Table<'_> {
    ghost use Rattle.wasmprinter_hidden.specs.Lengths.{table_len};

    ghost len = { λ t. table_len t.value };

    fn take_from(&self, excess: &mut Excess) {
        take_init(self.init(), excess);
        self.ty().take_from(excess);
    }
}

impl Shortest for Memory {
    ghost use Rattle.wasmprinter_hidden.specs.Lengths.{memory_type_len};

    ghost len = { λ m. memory_type_len m.value };

    fn take_from(&self, excess: &mut Excess) {
        self.ty().take_from(excess);
    }
}

impl Shortest for Tag {
    ghost use Rattle.wasmprinter_hidden.specs.Lengths.{tag_len};

    ghost len = { λ t. tag_len t.value };

    fn take_from(&self, excess: &mut Excess) {
        take_tag(self.type_index(), excess);
    }
}

impl Shortest for Global<'_> {
    ghost use Rattle.wasmprinter_hidden.specs.Lengths.{global_len};

    ghost len = { λ g. global_len g.value };

    fn take_from(&self, excess: &mut Excess) {
        self.ty().take_from(excess);
        self.init().take_from(excess);
    }
}

impl Shortest for Export<'_> {
    ghost use Rattle.wasmprinter_hidden.specs.Lengths.{export_len};

    ghost len = { λ e. export_len e.value };

    fn take_from(&self, excess: &mut Excess) {
        take_bytes(self.name().as_bytes(), excess);
        excess.take(1);
        self.index().take_from(excess);
    }
}

/// Takes the bytes of the mode of an element segment away, without its flags.
fn take_element_mode(mode: &ElementMode, has_table_index: bool, excess: &mut Excess)
    ensures { excess.new.bytes ≡ excess.old.bytes - element_mode_len has_table_index (element_mode_view mode.now) }
{
    if let ElementMode::Active { table, offset } = mode {
        if has_table_index {
            table.take_from(excess);
        }
        offset.take_from(excess);
    }
}

/// Reports whether an element segment omits the kind or type of its items: whether it is active and has no table index.
fn omits_type(mode: &ElementMode, has_table_index: bool) -> bool
    ensures { result ≡ omits_type has_table_index (element_mode_view mode.now) }
{
    !has_table_index && matches!(mode, ElementMode::Active { .. })
}

/// Takes the bytes of the items of an element segment away, with their kind or type unless it is omitted.
fn take_element_items(items: &ElementItems, omits_type: bool, excess: &mut Excess)
    ensures { excess.new.bytes ≡ excess.old.bytes - element_items_len omits_type (element_items_view items.now) }
{
    match items {
        ElementItems::Functions(indices) => {
            if !omits_type {
                excess.take(1);
            }
            take_list(indices, excess);
        }
        ElementItems::Expressions(ref_type, expressions) => {
            if !omits_type {
                ref_type.take_from(excess);
            }
            take_slice(expressions, excess);
        }
    }
}

impl Shortest for Element<'_> {
    ghost use Rattle.wasmprinter_hidden.specs.Lengths.{element_len};

    ghost len = { λ e. element_len e.value };

    fn take_from(&self, excess: &mut Excess) {
        let mode = self.mode();
        let has_table_index = self.has_table_index();
        excess.take(1);
        take_element_mode(mode, has_table_index, excess);
        take_element_items(self.items(), omits_type(mode, has_table_index), excess);
    }
}

/// Takes the bytes of the mode of a data segment away, without its flags.
fn take_data_mode(mode: &DataMode, excess: &mut Excess)
    ensures { excess.new.bytes ≡ excess.old.bytes - data_mode_len (data_mode_view mode.now) }
{
    if let DataMode::Active { memory, offset } = mode {
        take_memory(*memory, excess);
        offset.take_from(excess);
    }
}

impl Shortest for Data<'_> {
    ghost use Rattle.wasmprinter_hidden.specs.Lengths.{data_len};

    ghost len = { λ d. data_len d.value };

    fn take_from(&self, excess: &mut Excess) {
        excess.take(1);
        take_data_mode(self.mode(), excess);
        take_bytes(self.bytes(), excess);
    }
}

impl Shortest for LocalEntry {
    ghost use Rattle.wasmprinter_hidden.specs.Lengths.{local_entry_len};

    ghost len = { λ e. local_entry_len e.value };

    fn take_from(&self, excess: &mut Excess) {
        self.count().take_from(excess);
        self.val_type().take_from(excess);
    }
}
