//! Tags (section 6.6 of the WebAssembly Core Specification, "Tags").
ghost use Rattle.std.specs.Prelude.{codes, None};
ghost use Rattle.wasmprinter_spec.specs.Row as row;
ghost use Rattle.wasmprinter_spec.specs.Layout.Functions.{header_pieces};

use crate::field_trait::Field;
use crate::func_and_tag_headers::write_tag_header;
use crate::printing_scope::Scope;
use wasmprinter_decoder::Tag;
use wasmprinter_print::FoldingOutput;

impl Field for Tag {
    ghost keyword = { codes "tag" };

    ghost line_place = { λ t. t.place };

    ghost parts = { λ o s i t. header_pieces s row.Tag None i t.value };

    fn keyword(&self) -> &'static str {
        "tag"
    }

    fn line_place(&self) -> u64 {
        self.place()
    }

    fn write_parts<O: FoldingOutput>(&self, out: &mut O, scope: &mut Scope<'_, '_>, number: u64) {
        write_tag_header(out, scope, number, self.type_index());
    }
}
