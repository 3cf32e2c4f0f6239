//! How the text represents a custom section.
ghost use Rattle.std.specs.Prelude.{◌≡◌, ◌+◌, ◌<◌, ◌^◌, length};
ghost use Rattle.wasmprinter_spec.specs.Placed.{custom_of};
ghost use Rattle.wasmprinter_spec.specs.Customs.{custom_treatment_of, producers_treatment, dylink_treatment};
ghost use Rattle.wasmprinter_spec.specs.Customs.Producers.{producers};
ghost use Rattle.wasmprinter_spec.specs.Customs.Dylink.{judgement_of};
ghost use Rattle.wasmprinter_custom.specs.Treatments.{treatment_view};

use crate::branch_hints::HINT_SECTION;
use crate::dylink::{Dylink, DylinkContents};
use crate::producers::{Producers, have_id_names, read_producers};
use wasmprinter_bytes::cursor::Cursor;

/// The name of name sections.
const NAME_SECTION: &str = "name";

/// The name of the section that lists the tools that produced the module.
const PRODUCERS_SECTION: &str = "producers";

/// The name of the section for dynamic linking.
const DYLINK_SECTION: &str = "dylink.0";

/// How the text represents a custom section. Match on a reference to it: `iter` returns its lists again.
#[derive(Drop)]
pub enum CustomTreatment<'a> {
    /// Nothing is printed for the section; its names or hints occur in the text.
    Silent,
    /// The fields of `producers`.
    Producers(Producers<'a>),
    /// The subsections of `dylink.0`.
    Dylink(Dylink<'a>),
    /// A subsection of `dylink.0` has this unknown id.
    Refused(u8),
    /// The section is printed as raw bytes.
    Raw,
    /// The section is printed as raw bytes, after a line that reports its error.
    Malformed,
}

/// Returns the treatment of a `producers` section.
fn producers_treatment(section: Cursor) -> CustomTreatment
    ensures { treatment_view result ≡ producers_treatment (producers.parse section.entry) }
{
    match read_producers(section) {
        Some(fields) if have_id_names(fields.iter()) => CustomTreatment::Producers(fields),
        Some(_) => CustomTreatment::Raw,
        None => CustomTreatment::Malformed,
    }
}

/// Returns the treatment of a `dylink.0` section.
fn dylink_treatment(section: Cursor) -> CustomTreatment
    ensures { treatment_view result ≡ dylink_treatment (judgement_of section.entry) }
{
    match DylinkContents::of(section) {
        DylinkContents::Whole(subsections) => CustomTreatment::Dylink(subsections),
        DylinkContents::Unknown(id) => CustomTreatment::Refused(id),
        DylinkContents::Faulty => CustomTreatment::Malformed,
    }
}

/// Returns the treatment of a custom section: how the text represents it, or why it is refused. The name decides, and
/// for `producers` and `dylink.0` also the bytes. `place` is the place of the bytes after the name. The place of their
/// end must be below 2^64.
pub fn custom_treatment<'a>(name: &str, place: u64, bytes: &'a [u8]) -> CustomTreatment<'a>
    requires { place + length bytes.now < 2 ^ 64 }
    ensures { treatment_view result ≡ custom_treatment_of (custom_of name.now (record { place = place; value = bytes.now })) }
{
    match name {
        NAME_SECTION | HINT_SECTION => CustomTreatment::Silent,
        PRODUCERS_SECTION => producers_treatment(Cursor::new(place, bytes)),
        DYLINK_SECTION => dylink_treatment(Cursor::new(place, bytes)),
        _ => CustomTreatment::Raw,
    }
}
