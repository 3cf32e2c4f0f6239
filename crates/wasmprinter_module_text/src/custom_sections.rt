//! Custom sections at their positions among the other sections. The printer is first asked whether it claims each one.
ghost use Rattle.std.specs.Prelude.{◌≡◌, ◌↔◌, Bool, IsTrue, [], ◌∷◌};
ghost use Rattle.wasmprinter_spec.specs.Options.{Answers};
ghost use Rattle.wasmprinter_spec.specs.Customs.{custom_treatment_of};
ghost use Rattle.wasmprinter_spec.specs.Piece.{Piece, Claimed};
ghost use Rattle.wasmprinter_spec.specs.Layout.Customs.{treatment_part, custom_part, parts_at};
ghost use Rattle.wasmprinter_decoder.specs.Places.{after_view};
ghost use Rattle.wasmprinter_custom.specs.Treatments.{treatment_view};

use crate::dylink::write_dylink;
use crate::producers::write_producers;
use crate::raw::{write_malformed, write_raw};
use wasmprinter_custom::{CustomTreatment, custom_treatment};
use wasmprinter_decoder::custom_section_positions::{CustomEntry, SectionKind};
use wasmprinter_decoder::custom_sections::Custom;
use wasmprinter_print::Output;

/// Returns the treatment of a section in the text.
fn treatment_of<'a>(section: &Custom<'a>) -> CustomTreatment<'a>
    ensures { treatment_view result ≡ custom_treatment_of section.now.value }
{
    let content = section.cursor();
    prove!(content.end() <= u64::MAX);
    custom_treatment(section.name(), content.place(), content.rest())
}

/// Asks the printer whether it claims a section. Returns the answer.
fn write_claim<O: Output>(out: &mut O, section: &Custom<'_>) -> bool
    ensures { O.wrote out.old out.new
        (Claimed section.now.value.name section.now.value.bytes.place section.now.value.bytes.value result ∷ []) }
{
    out.print_custom_section(section.name(), section.bytes_place(), section.bytes())
}

/// Writes a section with this treatment after its claim, which the printer answered with no. Ends the layout if the
/// section is refused.
fn write_treatment<O: Output>(out: &mut O, entry: &CustomEntry<'_>, treatment: CustomTreatment<'_>)
    ensures { (a : O) (claim : Piece) → O.wrote a out.old (claim ∷ [])
        → O.laid a out.new (treatment_part O.chosen.skeleton claim entry.now (treatment_view treatment.entry) ∷ []) }
{
    let place = entry.section.place();
    match &treatment {
        CustomTreatment::Silent => {}
        CustomTreatment::Producers(fields) => write_producers(out, place, fields),
        CustomTreatment::Dylink(subsections) => write_dylink(out, place, subsections),
        CustomTreatment::Refused(id) => out.refuse_subsection(*id),
        CustomTreatment::Raw => write_raw(out, entry),
        CustomTreatment::Malformed => write_malformed(out, entry),
    }
}

/// Asks the printer whether it claims the section, and writes the section if it does not. `answer` is the printer's
/// answer. Nothing is written for a section `name` or `metadata.code.branch_hint`, whatever its data. A section
/// `producers` or `dylink.0` is written by its fields or subsections, and any other as raw bytes. If the data of
/// `producers` or `dylink.0` is malformed, a comment line reports this, and the section is written as raw bytes. So is,
/// without this line, `producers` with a field whose name is empty or not of identifier characters. Ends the layout at
/// a `dylink.0` section with an unknown subsection before its first error, unless the printer claims it.
pub fn write_custom<O: Output>(out: &mut O, entry: &CustomEntry<'_>)
    ensures { (answer : Bool) × O.laid out.old out.new (custom_part O.chosen.skeleton answer entry.now ∷ []) }
{
    let section = &entry.section;
    if write_claim(out, section) {
        return;
    }
    write_treatment(out, entry, treatment_of(section));
}

/// Reports whether a section comes after one of the kind or, for `None`, before all others.
fn comes_after(entry: &CustomEntry<'_>, after: Option<SectionKind>) -> bool
    ensures { IsTrue result ↔ (entry.now.after ≡ after_view after) }
{
    entry.after == after
}

/// Writes the custom sections that come after a section of the kind or, for `None`, before all others. Ends the
/// layout at the first section that is refused. Each is written as [`write_custom`] does. `answers` are the printer's
/// answers whether it claims each of them, by the position of the section in `customs`, from 0.
pub fn write_customs<O: Output>(
    out: &mut O,
    customs: &[CustomEntry<'_>],
    after: Option<SectionKind>,
)
    ensures { (answers : Answers) × O.laid out.old out.new
        (parts_at O.chosen.skeleton answers (after_view after) 0 customs.now) }
{
    for entry in customs {
        if !comes_after(entry, after) {
            continue;
        }
        write_custom(out, entry);
    }
}
