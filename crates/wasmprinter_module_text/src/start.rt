//! The start function (section 6.6 of the WebAssembly Core Specification, "Start Function").
ghost use Rattle.std.specs.Prelude.{◌≡◌, codes};
ghost use Rattle.wasmprinter_spec.specs.Row as row;
ghost use Rattle.wasmprinter_spec.specs.Layout.Start.{start_pieces};
ghost use Rattle.wasmprinter_spec.specs.Layout.Declarations.{item_index};
ghost use Rattle.wasmprinter_module_text.specs.Scopes.{scope_view};

use crate::field_trait::{Field, write_field};
use crate::printing_scope::{Scope, write_index_in};
use wasmprinter_custom::Space;
use wasmprinter_decoder::Start;
use wasmprinter_print::FoldingOutput;

impl Field for Start {
    ghost keyword = { codes "start" };

    ghost line_place = { λ f. f.place };

    ghost parts = { λ o s i f. item_index s row.Func f.value };

    fn keyword(&self) -> &'static str {
        "start"
    }

    fn line_place(&self) -> u64 {
        self.place()
    }

    fn write_parts<O: FoldingOutput>(&self, out: &mut O, scope: &mut Scope<'_, '_>, _number: u64) {
        write_index_in(out, scope, Space::Func, self.function());
    }
}

/// Writes a new line and the field of the start function, if there is one, with the function's identifier or, if it has
/// none, its index. `scope` is working memory and means the same afterwards.
#[tactic(auto, unfolding(wasmprinter_spec::specs::Layout::Start::start_pieces))]
pub fn write_start<O: FoldingOutput>(out: &mut O, scope: &mut Scope<'_, '_>, start: Option<Start>)
    ensures pieces { O.wrote out.old out.new
        (start_pieces (scope_view O.chosen scope.old) start) }
    ensures scope { scope_view O.chosen scope.new ≡ scope_view O.chosen scope.old }
{
    if let Some(start) = start {
        write_field(out, scope, 0, &start);
    }
}
