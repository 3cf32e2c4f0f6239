//! Findings in the data of custom sections, which is compared as a whole with its shortest encoding: `producers` and
//! `dylink.0` (tool conventions), and branch hints.
ghost use Rattle.std.specs.Prelude.{◌≡◌, ◌++◌, OnOk};
ghost use Rattle.wasmprinter_spec.specs.Customs.{custom_treatment_of};
ghost use Rattle.wasmprinter_custom.specs.Treatments.{treatment_view};
ghost use Rattle.wasmprinter_hidden.specs.HiddenData.{in_bytes, in_treatment};

use crate::excess::Shortest;
use crate::finding::Part;
use crate::findings::{Findings, OpenPart};
use std::alloc::AllocError;
use wasmprinter_custom::{CustomTreatment, custom_treatment};
use wasmprinter_decoder::Custom;

/// Appends the finding in the data of a section if it has more bytes than the shortest encoding of `content`.
pub(crate) fn add_longer_data<T: Shortest>(
    findings: &mut Findings,
    section: &Custom<'_>,
    content: &T,
) -> Result<(), AllocError>
    ensures { OnOk result (findings.new ≡ findings.old ++ in_bytes section.now.value.bytes (T.len content.now)) }
{
    let data = OpenPart::of_item(Part::CustomData, section.bytes_place(), content);
    findings.close(data, section.cursor().end())
}

/// Appends the finding that no text shows the data of a section.
fn add_all_data(findings: &mut Findings, section: &Custom<'_>) -> Result<(), AllocError>
    ensures { OnOk result (findings.new ≡ findings.old ++ in_bytes section.now.value.bytes 0) }
{
    let data = OpenPart {
        part: Part::CustomData,
        place: section.bytes_place(),
        len: 0,
    };
    findings.close(data, section.cursor().end())
}

/// Returns the treatment of a section in the text.
fn treatment_of<'a>(section: &Custom<'a>) -> CustomTreatment<'a>
    ensures { treatment_view result ≡ custom_treatment_of section.now.value }
{
    let data = section.cursor();
    prove!(data.end() <= u64::MAX);
    custom_treatment(section.name(), data.place(), data.rest())
}

/// Appends the finding in the data of a section by its treatment. Bytes that the text repeats have none, and no text shows
/// those of a refused section.
pub(crate) fn add_treatment(findings: &mut Findings, section: &Custom<'_>) -> Result<(), AllocError>
    ensures { OnOk result (findings.new ≡ findings.old
        ++ in_treatment section.now.value.bytes (custom_treatment_of section.now.value)) }
{
    match &treatment_of(section) {
        CustomTreatment::Producers(fields) => add_longer_data(findings, section, fields),
        CustomTreatment::Dylink(subsections) => add_longer_data(findings, section, subsections),
        CustomTreatment::Refused(_) => add_all_data(findings, section),
        CustomTreatment::Silent | CustomTreatment::Raw | CustomTreatment::Malformed => Ok(()),
    }
}
