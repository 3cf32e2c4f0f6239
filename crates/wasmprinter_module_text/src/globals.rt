//! Globals (section 6.6 of the WebAssembly Core Specification, "Globals"), and their types (section 6.4, "Global
//! Types").
ghost use Rattle.std.specs.Prelude.{codes};
ghost use Rattle.wasmprinter_spec.specs.Layout.Globals.{global_type_pieces, declared_global, global_parts};
ghost use Rattle.wasmprinter_decoder.specs.Externs.{global_type_view};
ghost use Rattle.wasmprinter_flat.specs.OpenLabels.LabelState.{names_of};
ghost use Rattle.wasmprinter_module_text.specs.Scopes.{scope_view};

use crate::expressions::write_constant;
use crate::field_trait::Field;
use crate::printing_scope::{Scope, write_declaration_in, write_val_type_in};
use wasmprinter_custom::Space;
use wasmprinter_decoder::{Global, GlobalType};
use wasmprinter_print::{FoldingOutput, Output};
use wasmprinter_text::parens_and_words::{open_type_space, write_close_paren, write_space};

/// Writes the type of a global, in a group `(mut ..)` if the global is mutable.
#[tactic(auto, unfolding(wasmprinter_spec::specs::Layout::Globals::global_type_pieces))]
fn write_global_type<O: Output>(out: &mut O, scope: &Scope<'_, '_>, global_type: GlobalType)
    ensures { O.wrote out.old out.new
        (global_type_pieces (names_of scope.now.labels) (global_type_view global_type)) }
{
    if !global_type.mutable {
        write_val_type_in(out, scope, global_type.ty);
        return;
    }
    open_type_space(out, "mut");
    write_val_type_in(out, scope, global_type.ty);
    write_close_paren(out);
}

/// Writes the declaration of a global, with its type.
pub(crate) fn write_declared_global<O: Output>(
    out: &mut O,
    scope: &Scope<'_, '_>,
    number: u64,
    global_type: GlobalType,
)
    ensures { O.wrote out.old out.new
        (declared_global (scope_view O.chosen scope.now) number (global_type_view global_type)) }
{
    write_declaration_in(out, scope, Space::Global, number);
    write_space(out);
    write_global_type(out, scope, global_type);
}

impl<'a> Field for Global<'a> {
    ghost keyword = { codes "global" };

    ghost line_place = { λ g. g.place };

    ghost parts = { λ o s i g. global_parts s i g.value };

    fn keyword(&self) -> &'static str {
        "global"
    }

    fn line_place(&self) -> u64 {
        self.place()
    }

    fn write_parts<O: FoldingOutput>(&self, out: &mut O, scope: &mut Scope<'_, '_>, number: u64) {
        write_declared_global(out, scope, number, self.ty());
        write_space(out);
        write_constant(out, scope, self.init());
    }
}
