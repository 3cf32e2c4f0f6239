//! Lengths of the shortest encodings of the data of `producers` and `dylink.0` sections (tool conventions, "Producers
//! Section" and "Dynamic Linking"). The data is compared without fields that have no values, and without lists of symbols
//! that have no symbols: no text shows these.
ghost use Rattle.std.specs.Prelude.{◌≡◌, ◌-◌};
ghost use Rattle.wasmprinter_custom.specs.Contents.{content_view};
ghost use Rattle.wasmprinter_custom.specs.Flags.{bits_of};
ghost use Rattle.wasmprinter_hidden.specs.HiddenData.{has_values, has_lines};
ghost use Rattle.wasmprinter_hidden.specs.Lengths.{unsigned_len};

use crate::excess::{Excess, Shortest, unsigned_len};
use crate::findings::shortest_len;
use crate::list_lengths::{take_bytes, take_list_in};
use bitflags::Flags;
use wasmprinter_custom::{
    Content, Dylink, DylinkNames, ExportInfo, ImportInfo, MemInfo, Producers, ProducersField,
    Subsection, SymbolFlags, Value,
};

impl Shortest for Value<'_> {
    ghost use Rattle.wasmprinter_hidden.specs.Lengths.{field_value_len};

    ghost len = { λ v. field_value_len v.value };

    fn take_from(&self, excess: &mut Excess) {
        take_bytes(self.name().as_bytes(), excess);
        take_bytes(self.version().as_bytes(), excess);
    }
}

impl Shortest for ProducersField<'_> {
    ghost use Rattle.wasmprinter_hidden.specs.Lengths.{field_len};

    ghost len = { field_len };

    fn take_from(&self, excess: &mut Excess) {
        take_bytes(self.name().as_bytes(), excess);
        take_list_in(&self.values(), excess);
    }
}

/// Reports whether the field has values.
fn has_values(field: &ProducersField) -> bool
    ensures { result ≡ has_values field.now }
{
    field.values().len() != 0
}

impl Shortest for Producers<'_> {
    ghost use Rattle.wasmprinter_hidden.specs.HiddenData.{producers_len};

    ghost len = { producers_len };

    fn take_from(&self, excess: &mut Excess) {
        let mut count: u64 = 0;
        for field in self.iter() {
            if has_values(&field) {
                count = count.saturating_add(1);
                field.take_from(excess);
            }
        }
        count.take_from(excess);
    }
}

impl Shortest for MemInfo {
    ghost use Rattle.wasmprinter_hidden.specs.Lengths.{mem_info_len};

    ghost len = { mem_info_len };

    fn take_from(&self, excess: &mut Excess) {
        self.memory_size().take_from(excess);
        self.memory_alignment().take_from(excess);
        self.table_size().take_from(excess);
        self.table_alignment().take_from(excess);
    }
}

/// Takes the bytes of flags away.
fn take_flags(flags: SymbolFlags, excess: &mut Excess)
    ensures { excess.new.bytes ≡ excess.old.bytes - unsigned_len (bits_of flags) }
{
    flags.bits().take_from(excess);
}

impl Shortest for ExportInfo<'_> {
    ghost use Rattle.wasmprinter_hidden.specs.Lengths.{export_info_len};

    ghost len = { export_info_len };

    fn take_from(&self, excess: &mut Excess) {
        take_bytes(self.name().as_bytes(), excess);
        take_flags(self.flags(), excess);
    }
}

impl Shortest for ImportInfo<'_> {
    ghost use Rattle.wasmprinter_hidden.specs.Lengths.{import_info_len};

    ghost len = { import_info_len };

    fn take_from(&self, excess: &mut Excess) {
        take_bytes(self.source().as_bytes(), excess);
        take_bytes(self.name().as_bytes(), excess);
        take_flags(self.flags(), excess);
    }
}

impl Shortest for DylinkNames<'_> {
    ghost use Rattle.wasmprinter_hidden.specs.Lengths.{list_len, bytes_len};

    ghost len = { list_len bytes_len };

    fn take_from(&self, excess: &mut Excess) {
        let mut count: u64 = 0;
        for name in self.iter() {
            count = count.saturating_add(1);
            take_bytes(name.as_bytes(), excess);
        }
        count.take_from(excess);
    }
}

impl Shortest for Content<'_> {
    ghost use Rattle.wasmprinter_custom.specs.Contents.{content_view};
    ghost use Rattle.wasmprinter_hidden.specs.Lengths.{dylink_content_len};

    ghost len = { λ c. dylink_content_len (content_view c) };

    fn take_from(&self, excess: &mut Excess) {
        match self {
            Content::MemInfo(info) => info.take_from(excess),
            Content::Needed(names) | Content::RuntimePath(names) => names.take_from(excess),
            Content::Exports(exports) => take_list_in(exports, excess),
            Content::Imports(imports) => take_list_in(imports, excess),
        }
    }
}

impl Shortest for Subsection<'_> {
    ghost use Rattle.wasmprinter_hidden.specs.Lengths.{dylink_subsection_len};

    ghost len = { λ s. dylink_subsection_len s.value };

    fn take_from(&self, excess: &mut Excess) {
        let content = self.content();
        excess.take(1);
        excess.take(unsigned_len(shortest_len(content)));
        content.take_from(excess);
    }
}

/// Reports whether a text has lines for this content: whether it is no empty list of symbols.
fn has_lines(content: &Content) -> bool
    ensures { result ≡ has_lines (content_view content.now) }
{
    match content {
        Content::Exports(exports) => exports.len() != 0,
        Content::Imports(imports) => imports.len() != 0,
        _ => true,
    }
}

impl Shortest for Dylink<'_> {
    ghost use Rattle.wasmprinter_hidden.specs.HiddenData.{dylink_len};

    ghost len = { dylink_len };

    fn take_from(&self, excess: &mut Excess) {
        for subsection in self.iter() {
            if has_lines(subsection.content()) {
                subsection.take_from(excess);
            }
        }
    }
}
