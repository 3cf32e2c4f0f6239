//! Fields of one kind (section 6.6 of the WebAssembly Core Specification), each on a line of its own.
ghost use Rattle.std.specs.Prelude.{◌≡◌, ◌+◌, ◌<◌, ◌^◌, length};
ghost use Rattle.wasmprinter_spec.specs.Layout.Groups.{numbered_pieces};
ghost use Rattle.wasmprinter_module_text.specs.Scopes.{scope_view};
ghost use Rattle.wasmprinter_module_text.specs.Parts.{field_line};

use crate::printing_scope::{FIELD_NESTING, Scope};
use wasmprinter_print::FoldingOutput;
use wasmprinter_text::lines::{close_group, write_break};
use wasmprinter_text::parens_and_words::open_group_space;

/// A field of a module that is printed as one group. It is on one line, unless operators are folded and the text of
/// a node without children contains `;;`, as a name may. Then that node and the field close on new lines.
pub trait Field {
    ghost use Rattle.std.specs.Prelude.{ℕ, List};
    ghost use Rattle.wasmprinter_spec.specs.Piece.{Piece};
    ghost use Rattle.wasmprinter_spec.specs.Options.{Options};
    ghost use Rattle.wasmprinter_spec.specs.Layout.Declarations.{Scope as FieldScope};

    /// The keyword of the group.
    ghost keyword: { List ℕ };

    /// The place of the line, a byte offset from the start of the module.
    ghost line_place: { Self → ℕ };

    /// The pieces inside the group, from the options, the scope and the field's number among those of its kind.
    ghost parts: { Options → FieldScope → ℕ → Self → List Piece };

    /// Returns the keyword of the group.
    fn keyword(&self) -> &'static str
        ensures { result.now ≡ keyword };

    /// Returns the place of the line, a byte offset from the start of the module.
    fn line_place(&self) -> u64
        ensures { result ≡ line_place self.now };

    /// Writes the pieces inside the field's group (`pieces`). `number` is the field's index in its index space. `scope`
    /// is working memory and means the same afterwards (`scope`).
    fn write_parts<O: FoldingOutput>(&self, out: &mut O, scope: &mut Scope<'_, '_>, number: u64)
        ensures pieces { O.wrote out.old out.new
            (parts O.chosen (scope_view O.chosen scope.old) number self.now) }
        ensures scope { scope_view O.chosen scope.new ≡ scope_view O.chosen scope.old };
}

/// Writes a field on a line of its own. `number` is its index in its index space.
pub(crate) fn write_field<O: FoldingOutput, F: Field>(
    out: &mut O,
    scope: &mut Scope<'_, '_>,
    number: u64,
    field: &F,
)
    ensures pieces { O.wrote out.old out.new
        (field_line F.keyword F.line_place (F.parts O.chosen (scope_view O.chosen scope.old)) number field.now) }
    ensures scope { scope_view O.chosen scope.new ≡ scope_view O.chosen scope.old }
{
    write_break(out, Some(field.line_place()), FIELD_NESTING);
    open_group_space(out, field.keyword());
    let outer_begun = out.enter_group();
    field.write_parts(out, scope, number);
    close_group(out, FIELD_NESTING, outer_begun);
}

/// Writes the fields of one kind in order, each as a group on a line of its own (`pieces`). The first of them has the
/// index `first`, and `first + fields.len()` must be below 2^64. `scope` is working memory and means the same
/// afterwards (`scope`).
pub fn write_each<O: FoldingOutput, F: Field>(
    out: &mut O,
    scope: &mut Scope<'_, '_>,
    first: u64,
    fields: &[F],
)
    requires { first + length fields.now < 2 ^ 64 }
    ensures pieces { O.wrote out.old out.new
        (numbered_pieces (field_line F.keyword F.line_place (F.parts O.chosen (scope_view O.chosen scope.old))) first fields.now) }
    ensures scope { scope_view O.chosen scope.new ≡ scope_view O.chosen scope.old }
{
    for (index, field) in fields.iter().enumerate() {
        if out.has_failed() {
            return;
        }
        write_field(out, scope, first + index as u64, field);
    }
}
