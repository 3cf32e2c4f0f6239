//! Tables (section 6.6 of the WebAssembly Core Specification, "Tables"), and their types (section 6.4, "Table
//! Types").
ghost use Rattle.std.specs.Prelude.{◌≡◌, codes};
ghost use Rattle.wasmprinter_spec.specs.Layout.Tables.{table_type_pieces, init_pieces, declared_table, table_parts};
ghost use Rattle.wasmprinter_decoder.specs.Externs.{table_type_view};
ghost use Rattle.wasmprinter_flat.specs.OpenLabels.LabelState.{names_of};
ghost use Rattle.wasmprinter_module_text.specs.Scopes.{scope_view};

use crate::expressions::write_constant;
use crate::field_trait::Field;
use crate::limits::{write_sizes, write_wide};
use crate::printing_scope::{Scope, write_declaration_in, write_ref_type_in};
use wasmprinter_custom::Space;
use wasmprinter_decoder::{Table, TableType};
use wasmprinter_print::{FoldingOutput, Output};
use wasmprinter_text::parens_and_words::write_space;

/// Writes the type of a table.
#[tactic(auto, unfolding(wasmprinter_spec::specs::Layout::Tables::table_type_pieces))]
fn write_table_type<O: Output>(out: &mut O, scope: &Scope<'_, '_>, table_type: TableType)
    ensures { O.wrote out.old out.new
        (table_type_pieces (names_of scope.now.labels) (table_type_view table_type)) }
{
    write_wide(out, table_type.wide);
    write_sizes(out, table_type.limits);
    write_space(out);
    write_ref_type_in(out, scope, table_type.element);
}

/// Writes the declaration of a table, with its type.
pub(crate) fn write_declared_table<O: Output>(
    out: &mut O,
    scope: &Scope<'_, '_>,
    number: u64,
    table_type: TableType,
)
    ensures { O.wrote out.old out.new
        (declared_table (scope_view O.chosen scope.now) number (table_type_view table_type)) }
{
    write_declaration_in(out, scope, Space::Table, number);
    write_space(out);
    write_table_type(out, scope, table_type);
}

/// Writes a space and the initialiser, if there is one.
#[tactic(auto, unfolding(wasmprinter_spec::specs::Layout::Tables::init_pieces))]
fn write_init<O: FoldingOutput>(out: &mut O, scope: &mut Scope<'_, '_>, table: &Table<'_>)
    ensures pieces { O.wrote out.old out.new
        (init_pieces (scope_view O.chosen scope.old) table.now.value.init) }
    ensures scope { scope_view O.chosen scope.new ≡ scope_view O.chosen scope.old }
{
    if let Some(init) = table.init() {
        write_space(out);
        write_constant(out, scope, init);
    }
}

impl<'a> Field for Table<'a> {
    ghost keyword = { codes "table" };

    ghost line_place = { λ t. t.place };

    ghost parts = { λ o s i t. table_parts s i t.value };

    fn keyword(&self) -> &'static str {
        "table"
    }

    fn line_place(&self) -> u64 {
        self.place()
    }

    fn write_parts<O: FoldingOutput>(&self, out: &mut O, scope: &mut Scope<'_, '_>, number: u64) {
        write_declared_table(out, scope, number, self.ty());
        write_init(out, scope, self);
    }
}
