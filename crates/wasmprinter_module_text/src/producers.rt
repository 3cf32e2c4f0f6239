//! The lines of a `producers` section (tool conventions, "Producers Section").
ghost use Rattle.std.specs.Prelude.{[], ◌∷◌, codes, Some};
ghost use Rattle.wasmprinter_spec.specs.Piece.{Break};
ghost use Rattle.wasmprinter_spec.specs.Layout.Customs.{note, values_pieces, fields_pieces};

use crate::nesting_constants::{LINE_NESTING, SECTION_NESTING};
use wasmprinter_custom::{Producers, ProducersField, Value};
use wasmprinter_print::Output;
use wasmprinter_text::annotations::{open_annotation, open_annotation_word};
use wasmprinter_text::lines::{close_group, write_break};
use wasmprinter_text::parens_and_words::{write_close_paren, write_space};
use wasmprinter_text::strings::write_string;

/// Writes a value of a field, on a line of its own.
#[tactic(auto, unfolding(wasmprinter_spec::specs::Layout::Customs::values_pieces))]
fn write_value<O: Output>(out: &mut O, field: &str, value: &Value<'_>)
    ensures { O.wrote out.old out.new (values_pieces field.now (value.now ∷ [])) }
{
    write_break(out, Some(value.place()), LINE_NESTING);
    open_annotation_word(out, field);
    write_space(out);
    write_string(out, value.name());
    write_space(out);
    write_string(out, value.version());
    write_close_paren(out);
}

/// Writes the values of a field.
fn write_field<O: Output>(out: &mut O, field: &ProducersField<'_>)
    ensures { O.wrote out.old out.new (values_pieces field.now.name field.now.values) }
{
    for value in field.values() {
        if out.has_failed() {
            return;
        }
        write_value(out, field.name(), &value);
    }
}

/// Writes the values of all fields.
fn write_fields<O: Output>(out: &mut O, fields: &Producers<'_>)
    ensures { O.wrote out.old out.new (fields_pieces fields.now) }
{
    for field in fields.iter() {
        if out.has_failed() {
            return;
        }
        write_field(out, &field);
    }
}

/// Writes the section that starts at `place`.
pub(crate) fn write_producers<O: Output>(out: &mut O, place: u64, fields: &Producers<'_>)
    ensures { O.wrote out.old out.new
        (Break (Some place) 1 ∷ note (codes "producers") (fields_pieces fields.now)) }
{
    write_break(out, Some(place), SECTION_NESTING);
    open_annotation(out, "producers");
    let outer_begun = out.enter_group();
    write_fields(out, fields);
    close_group(out, SECTION_NESTING, outer_begun);
}
