//! Data segments (section 6.6 of the WebAssembly Core Specification, "Data Segments").
ghost use Rattle.std.specs.Prelude.{◌≡◌, codes};
ghost use Rattle.wasmprinter_spec.specs.Layout.DataSegments.{named_memory, data_mode_pieces, data_parts};
ghost use Rattle.wasmprinter_decoder.specs.Segments.{data_mode_view};
ghost use Rattle.wasmprinter_module_text.specs.Scopes.{scope_view};

use crate::expressions::write_constant_group;
use crate::field_trait::Field;
use crate::printing_scope::{Scope, write_declaration_in, write_index_group_in};
use wasmprinter_custom::Space;
use wasmprinter_decoder::{Data, DataMode};
use wasmprinter_print::{FoldingOutput, Output};
use wasmprinter_text::bytes_or_ellipsis::write_shown_bytes;
use wasmprinter_text::parens_and_words::write_space;

/// Writes the memory of a segment and a space, or nothing for memory 0.
fn write_named_memory<O: Output>(out: &mut O, scope: &Scope<'_, '_>, memory: u32)
    ensures { O.wrote out.old out.new (named_memory (scope_view O.chosen scope.now) memory) }
{
    if memory == 0 {
        return;
    }
    write_index_group_in(out, scope, "memory", Space::Memory, memory);
    write_space(out);
}

/// Writes the mode of a segment, followed by a space if the segment is active.
#[tactic(auto, unfolding(wasmprinter_spec::specs::Layout::DataSegments::data_mode_pieces))]
fn write_data_mode<O: FoldingOutput>(out: &mut O, scope: &mut Scope<'_, '_>, mode: &DataMode<'_>)
    ensures pieces { O.wrote out.old out.new
        (data_mode_pieces (scope_view O.chosen scope.old) (data_mode_view mode.now)) }
    ensures scope { scope_view O.chosen scope.new ≡ scope_view O.chosen scope.old }
{
    match mode {
        DataMode::Passive => {}
        DataMode::Active { memory, offset } => {
            write_named_memory(out, scope, *memory);
            write_constant_group(out, scope, "offset", offset);
            write_space(out);
        }
    }
}

impl<'a> Field for Data<'a> {
    ghost keyword = { codes "data" };

    ghost line_place = { λ d. d.place };

    ghost parts = { λ o s i d. data_parts o.skeleton s i d.value };

    fn keyword(&self) -> &'static str {
        "data"
    }

    fn line_place(&self) -> u64 {
        self.place()
    }

    fn write_parts<O: FoldingOutput>(&self, out: &mut O, scope: &mut Scope<'_, '_>, number: u64) {
        write_declaration_in(out, scope, Space::Data, number);
        write_space(out);
        write_data_mode(out, scope, self.mode());
        write_shown_bytes(out, self.bytes());
    }
}
