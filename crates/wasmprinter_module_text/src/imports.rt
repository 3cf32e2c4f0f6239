//! Imports (section 6.6 of the WebAssembly Core Specification, "Imports").
ghost use Rattle.std.specs.Prelude.{◌≡◌, ◌+◌, ◌<◌, ◌^◌, codes, length};
ghost use Rattle.wasmprinter_spec.specs.Layout.Imports.{number_of, numbers_after, no_numbers};
ghost use Rattle.wasmprinter_spec.specs.Layout.Imports.{extern_pieces, imports_pieces, extern_parts, import_parts};
ghost use Rattle.wasmprinter_decoder.specs.Externs.{extern_view, HasPageExponent};
ghost use Rattle.wasmprinter_module_text.specs.Scopes.{scope_view};

use crate::exports::kind_word;
use crate::field_trait::{Field, write_field};
use crate::func_and_tag_headers::{write_function_header, write_tag_header};
use crate::globals::write_declared_global;
use crate::memories::write_declared_memory;
use crate::printing_scope::Scope;
use crate::tables::write_declared_table;
use std::marker::Model;
use wasmprinter_decoder::{ExternType, Import};
use wasmprinter_print::{FoldingOutput, Output};
use wasmprinter_text::parens_and_words::{open_group_space, write_close_paren, write_space};
use wasmprinter_text::strings::write_string;

/// The number of preceding imports of each kind.
#[derive(Drop)]
struct Numbers {
    functions: u64,
    tables: u64,
    memories: u64,
    globals: u64,
    tags: u64,
}

impl Model for Numbers {
    ghost use Rattle.wasmprinter_spec.specs.Layout.Imports.{Numbers as DefinedNumbers};

    ghost Value = { DefinedNumbers };

    ghost view = { λ n. record {
      functions = n.functions;
      tables = n.tables;
      memories = n.memories;
      globals = n.globals;
      tags = n.tags;
    } };
}

impl Numbers {
    /// Returns the numbers before the first import, which are all 0.
    fn none() -> Numbers
        ensures { result ≡ no_numbers }
    {
        Numbers {
            functions: 0,
            tables: 0,
            memories: 0,
            globals: 0,
            tags: 0,
        }
    }

    /// Returns the index of an import of this type in its index space.
    fn of(&self, extern_type: ExternType) -> u64
        ensures { result ≡ number_of (extern_view extern_type) self.now }
    {
        match extern_type {
            ExternType::Func(_) => self.functions,
            ExternType::Table(_) => self.tables,
            ExternType::Memory(_) => self.memories,
            ExternType::Global(_) => self.globals,
            ExternType::Tag(_) => self.tags,
        }
    }

    /// Counts one more import of this type.
    fn count(&mut self, extern_type: ExternType)
        requires { number_of (extern_view extern_type) self.old + 1 < 2 ^ 64 }
        ensures { self.new ≡ numbers_after (extern_view extern_type) self.old }
    {
        match extern_type {
            ExternType::Func(_) => self.functions += 1,
            ExternType::Table(_) => self.tables += 1,
            ExternType::Memory(_) => self.memories += 1,
            ExternType::Global(_) => self.globals += 1,
            ExternType::Tag(_) => self.tags += 1,
        }
    }
}

/// Writes the declaration of an imported item, with its type.
fn write_extern_parts<O: Output>(
    out: &mut O,
    scope: &Scope<'_, '_>,
    number: u64,
    extern_type: ExternType,
)
    requires { HasPageExponent extern_type }
    ensures { O.wrote out.old out.new
        (extern_parts (scope_view O.chosen scope.now) number (extern_view extern_type)) }
{
    match extern_type {
        ExternType::Func(index) => write_function_header(out, scope, number, index),
        ExternType::Table(table_type) => write_declared_table(out, scope, number, table_type),
        ExternType::Memory(memory_type) => write_declared_memory(out, scope, number, memory_type),
        ExternType::Global(global_type) => write_declared_global(out, scope, number, global_type),
        ExternType::Tag(index) => write_tag_header(out, scope, number, index),
    }
}

/// Writes an imported item, with its index, as a group.
fn write_extern_type<O: Output>(
    out: &mut O,
    scope: &Scope<'_, '_>,
    number: u64,
    extern_type: ExternType,
)
    requires { HasPageExponent extern_type }
    ensures { O.wrote out.old out.new
        (extern_pieces (scope_view O.chosen scope.now) number (extern_view extern_type)) }
{
    open_group_space(out, kind_word(extern_type.kind()));
    write_extern_parts(out, scope, number, extern_type);
    write_close_paren(out);
}

impl<'a> Field for Import<'a> {
    ghost keyword = { codes "import" };

    ghost line_place = { λ i. i.place };

    ghost parts = { λ o s n i. import_parts s n i.value };

    fn keyword(&self) -> &'static str {
        "import"
    }

    fn line_place(&self) -> u64 {
        self.place()
    }

    fn write_parts<O: FoldingOutput>(&self, out: &mut O, scope: &mut Scope<'_, '_>, number: u64) {
        write_string(out, self.module());
        write_space(out);
        write_string(out, self.name());
        write_space(out);
        write_extern_type(out, scope, number, self.ty());
    }
}

/// Writes the imports, each on a line of its own. Each kind has its own indices, from 0. There must be fewer than 2^32
/// imports. `scope` is working memory and means the same afterwards.
pub fn write_imports<O: FoldingOutput>(
    out: &mut O,
    scope: &mut Scope<'_, '_>,
    imports: &[Import<'_>],
)
    requires { length imports.now < 2 ^ 32 }
    ensures pieces { O.wrote out.old out.new
        (imports_pieces (scope_view O.chosen scope.old) no_numbers imports.now) }
    ensures scope { scope_view O.chosen scope.new ≡ scope_view O.chosen scope.old }
{
    let mut numbers = Numbers::none();
    for import in imports {
        if out.has_failed() {
            return;
        }
        write_field(out, scope, numbers.of(import.ty()), import);
        numbers.count(import.ty());
    }
}
