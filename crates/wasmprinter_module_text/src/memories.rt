//! Memories (section 6.6 of the WebAssembly Core Specification, "Memories"), and their types
//! (section 6.4, "Memory Types").
ghost use Rattle.std.specs.Prelude.{◌<◌, codes};
ghost use Rattle.wasmprinter_spec.specs.Layout.Groups.{line_group_space};
ghost use Rattle.wasmprinter_spec.specs.Layout.Memories.{shared_pieces, page_pieces, memory_type_pieces, page_parts, declared_memory};
ghost use Rattle.wasmprinter_decoder.specs.Externs.{memory_type_view, IsPageExponent};
ghost use Rattle.wasmprinter_module_text.specs.Scopes.{scope_view};

use crate::field_trait::Field;
use crate::limits::{write_sizes, write_wide};
use crate::printing_scope::{Scope, write_declaration_in};
use wasmprinter_custom::Space;
use wasmprinter_decoder::{Memory, MemoryType};
use wasmprinter_print::{FoldingOutput, Output};
use wasmprinter_text::limits::write_page_size;
use wasmprinter_text::parens_and_words::{
    open_group_space, write_close_paren, write_space, write_space_type_word,
};

/// Writes that a memory is shared, if it is.
fn write_shared<O: Output>(out: &mut O, shared: bool)
    ensures { O.wrote out.old out.new (shared_pieces shared) }
{
    if shared {
        write_space_type_word(out, "shared");
    }
}

/// Writes the page size with this exponent as a group.
#[tactic(auto, unfolding(wasmprinter_spec::specs::Layout::Groups::line_group_space))]
fn write_page_group<O: Output>(out: &mut O, exponent: u32)
    requires { exponent < 64 }
    ensures { O.wrote out.old out.new
        (line_group_space (codes "pagesize") (page_parts exponent)) }
{
    open_group_space(out, "pagesize");
    write_page_size(out, exponent);
    write_close_paren(out);
}

/// Writes a space and the page size, if it is given.
fn write_page<O: Output>(out: &mut O, page: Option<u32>)
    requires { IsPageExponent page }
    ensures { O.wrote out.old out.new (page_pieces page) }
{
    if let Some(exponent) = page {
        write_space(out);
        write_page_group(out, exponent);
    }
}

/// Writes the type of a memory.
#[tactic(auto, unfolding(wasmprinter_spec::specs::Layout::Memories::memory_type_pieces))]
fn write_memory_type<O: Output>(out: &mut O, memory_type: MemoryType)
    requires { IsPageExponent memory_type.page }
    ensures { O.wrote out.old out.new
        (memory_type_pieces (memory_type_view memory_type)) }
{
    write_wide(out, memory_type.wide);
    write_sizes(out, memory_type.limits);
    write_shared(out, memory_type.shared);
    write_page(out, memory_type.page);
}

/// Writes the declaration of a memory, with its type.
pub(crate) fn write_declared_memory<O: Output>(
    out: &mut O,
    scope: &Scope<'_, '_>,
    number: u64,
    memory_type: MemoryType,
)
    requires { IsPageExponent memory_type.page }
    ensures { O.wrote out.old out.new
        (declared_memory (scope_view O.chosen scope.now) number (memory_type_view memory_type)) }
{
    write_declaration_in(out, scope, Space::Memory, number);
    write_space(out);
    write_memory_type(out, memory_type);
}

impl Field for Memory {
    ghost keyword = { codes "memory" };

    ghost line_place = { λ m. m.place };

    ghost parts = { λ o s i m. declared_memory s i m.value };

    fn keyword(&self) -> &'static str {
        "memory"
    }

    fn line_place(&self) -> u64 {
        self.place()
    }

    fn write_parts<O: FoldingOutput>(&self, out: &mut O, scope: &mut Scope<'_, '_>, number: u64) {
        write_declared_memory(out, scope, number, self.ty());
    }
}
