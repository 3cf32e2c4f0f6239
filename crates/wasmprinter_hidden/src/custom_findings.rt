//! Findings in custom sections (section 5.5 of the WebAssembly Core Specification, "Custom Section").
ghost use Rattle.std.specs.Prelude.{◌≡◌, ◌+◌, ◌-◌, [], ◌∷◌, ◌++◌, length, IfOk, OnOk};
ghost use Rattle.wasmprinter_hidden.specs.Findings.{finding, if_longer};
ghost use Rattle.wasmprinter_hidden.specs.Hidden.{in_data, is_empty_custom, in_custom_section};
ghost use Rattle.wasmprinter_hidden.specs.Lengths.{bytes_len};
ghost use Rattle.wasmprinter_hidden.specs.OpenParts.{capped};
ghost use Rattle.wasmprinter_hidden.specs.declared.finding.Part.TheVariants.{CustomName, EmptyCustom};

use crate::custom_data_findings::add_treatment;
use crate::excess::unsigned_len;
use crate::finding::Part;
use crate::findings::{Findings, OpenPart};
use crate::hint_findings::{add_hint_section, gives_no_hints};
use crate::name_findings::add_names;
use crate::named_items::NamedItems;
use std::alloc::{AllocError, Global};
use wasmprinter_custom::is_hint_section;
use wasmprinter_decoder::{Custom, CustomEntry};

/// Returns the number of bytes of the shortest encoding of a name, or `u64::MAX` if that number is greater.
fn name_len(name: &str) -> u64
    ensures { result ≡ capped (bytes_len name.now) }
{
    let len = name.len() as u64;
    unsigned_len(len).saturating_add(len)
}

/// Appends the finding in the name of a custom section.
fn add_name(findings: &mut Findings, section: &Custom<'_>) -> Result<(), AllocError>
    ensures { OnOk result (findings.new ≡ findings.old
        ++ if_longer CustomName section.now.place section.now.value.bytes.place (bytes_len section.now.value.name)) }
{
    let name = OpenPart {
        part: Part::CustomName,
        place: section.place(),
        len: name_len(section.name()),
    };
    findings.close(name, section.bytes_place())
}

/// Appends the findings in the data of a custom section, by its name. `later` are the custom sections after it.
fn add_data(
    alloc: Global,
    findings: &mut Findings,
    named: &NamedItems<'_, '_>,
    later: &[CustomEntry<'_>],
    section: &Custom<'_>,
) -> Result<(), AllocError>
    ensures { OnOk result (findings.new ≡ findings.old ++ in_data named.now later.now section.now.value) }
{
    if section.is_name_section() {
        add_names(findings, named, section.cursor())
    } else if is_hint_section(section.name()) {
        add_hint_section(alloc, findings, named.module(), later, section)
    } else {
        add_treatment(findings, section)
    }
}

/// Reports whether the section is a name section without data, or a section with branch hints that gives no hints.
fn is_empty_custom(alloc: Global, section: &Custom<'_>) -> Result<bool, AllocError>
    ensures { IfOk result (λ empty. empty ≡ is_empty_custom section.now.value) }
{
    if section.is_name_section() {
        Ok(section.bytes().is_empty())
    } else if is_hint_section(section.name()) {
        gives_no_hints(alloc, section)
    } else {
        Ok(false)
    }
}

/// Appends the finding of a custom section as a whole, from its name on.
fn add_whole(findings: &mut Findings, section: &Custom<'_>) -> Result<(), AllocError>
    ensures { OnOk result (findings.new ≡ findings.old ++ finding section.now.place EmptyCustom
        (section.now.value.bytes.place + length section.now.value.bytes.value - section.now.place) ∷ []) }
{
    let place = section.place();
    let len = section.cursor().end().saturating_sub(place);
    findings.push(place, Part::EmptyCustom, len)
}

/// Appends the findings in a custom section: the whole section if it is empty, otherwise those in its name and in its
/// data. `later` are the custom sections after it.
pub(crate) fn add_custom_section(
    alloc: Global,
    findings: &mut Findings,
    named: &NamedItems<'_, '_>,
    later: &[CustomEntry<'_>],
    section: &Custom<'_>,
) -> Result<(), AllocError>
    ensures { OnOk result (findings.new ≡ findings.old ++ in_custom_section named.now later.now section.now) }
{
    if is_empty_custom(alloc, section)? {
        return add_whole(findings, section);
    }
    add_name(findings, section)?;
    add_data(alloc, findings, named, later, section)
}
