//! Finding what the text of a module does not show.
ghost use Rattle.std.specs.Prelude.{◌≡◌, ◌++◌, ◌<◌, ◌^◌, ◌⊎◌, ◌↔◌, drop, IfOk, IfErr, IsErrOf};
ghost use Rattle.std.specs.Prelude.{IsOkUnless, OnOk};
ghost use Rattle.std.specs.List.{AllByRecursion};
ghost use Rattle.wasmprinter_spec.specs.Binary.{IsComponent, Spells};
ghost use Rattle.wasmprinter_spec.specs.Limits.{IsWithinLimits};
ghost use Rattle.wasmprinter_spec.specs.Placed.{PlacedModule};
ghost use Rattle.wasmprinter_spec.specs.Sections.{kind_of};
ghost use Rattle.wasmprinter_decoder.specs.Decoding.{HasDecodingReason};
ghost use Rattle.wasmprinter_hidden.specs.Hidden.{body_end, in_start_section, in_section, AreHidden};
ghost use Rattle.wasmprinter_hidden.specs.Extents.{in_custom, customs_after};
ghost use Rattle.wasmprinter_hidden.specs.HiddenOnce.{FindingsAreUnique, ModulesHaveFindings};
ghost use Rattle.wasmprinter_hidden.specs.HiddenNames.{NamesAreThoseGiven};

use crate::custom_findings::add_custom_section;
use crate::excess::unsigned_len;
use crate::finding::Finding;
use crate::findings::Findings;
use crate::function_findings::{add_code_section, add_function_section};
use crate::named_items::NamedItems;
use crate::section_extents::Extent;
use crate::section_findings::{add_contents, add_entries, add_size};
use crate::section_ids::{
    CODE, CUSTOM, DATA, DATA_COUNT, ELEMENT, EXPORT, FUNCTION, GLOBAL, IMPORT, MEMORY, START,
    TABLE, TAG, TYPE,
};
use std::alloc::{AllocError, Global};
use wasmprinter_bytes::Error;
use wasmprinter_bytes::cursor::Cursor;
use wasmprinter_decoder::{CustomEntry, Fields, Module, Start, decode};

/// Appends the findings in the start section.
fn add_start_section(
    findings: &mut Findings,
    section: Extent,
    start: Option<Start>,
) -> Result<(), AllocError>
    ensures { OnOk result (findings.new ≡ findings.old ++ in_start_section start section) }
{
    match start {
        Some(start) => {
            add_contents(findings, section, unsigned_len(u64::from(start.function())))
        }
        None => Ok(()),
    }
}

/// Appends the findings in a section of the module. The place after each body must be below 2^64.
fn add_section(
    findings: &mut Findings,
    section: Extent,
    module: &Module<'_>,
) -> Result<(), AllocError>
    requires { AllByRecursion (λ f. body_end f < 2 ^ 64) «module».now.functions }
    ensures { OnOk result (findings.new
        ≡ findings.old ++ in_section «module».now (kind_of section.id) section) }
{
    match section.id {
        CUSTOM => add_size(findings, section),
        TYPE => add_entries(findings, section, module.types()),
        IMPORT => add_entries(findings, section, module.imports()),
        FUNCTION => add_function_section(findings, section, module),
        TABLE => add_entries(findings, section, module.tables()),
        MEMORY => add_entries(findings, section, module.memories()),
        TAG => add_entries(findings, section, module.tags()),
        GLOBAL => add_entries(findings, section, module.globals()),
        EXPORT => add_entries(findings, section, module.exports()),
        START => add_start_section(findings, section, module.start()),
        ELEMENT => add_entries(findings, section, module.elements()),
        DATA_COUNT => {
            let count = module.data_segments().len() as u64;
            add_contents(findings, section, unsigned_len(count))
        }
        CODE => add_code_section(findings, section, module),
        DATA => add_entries(findings, section, module.data_segments()),
        _ => Ok(()),
    }
}

/// Appends the findings in a section if it is a custom section. `before` is the number of custom sections before it.
/// Returns the number of custom sections up to it.
fn add_custom(
    alloc: Global,
    findings: &mut Findings,
    section: Extent,
    named: &NamedItems<'_, '_>,
    customs: &[CustomEntry<'_>],
    before: usize,
) -> Result<usize, AllocError>
    ensures { IfOk result (λ count. let left = drop before customs.now in
        (findings.new ≡ findings.old ++ in_custom named.now section.id left)
        × (drop count customs.now ≡ customs_after section.id left)) }
{
    if section.id != CUSTOM {
        return Ok(before);
    }
    let Some(custom) = customs.get(before) else {
        return Ok(before);
    };
    let count = before + 1;
    add_custom_section(alloc, findings, named, &customs[count..], &custom.section)?;
    Ok(count)
}

/// The number of bytes of the preamble of a module (section 5.5, "Modules").
const PREAMBLE_LEN: usize = 8;

/// Returns the findings in the sections of the module that the bytes encode.
fn findings_in_sections(
    alloc: Global,
    wasm: &[u8],
    module: &Module<'_>,
) -> Result<Findings, AllocError>
    requires { Spells wasm.now «module».now }
    ensures { IfOk result (AreHidden wasm.now) }
{
    let mut findings = Findings::new(alloc);
    let named = NamedItems::new(alloc, module)?;
    let mut custom_count = 0;
    let mut cursor = Cursor::new(PREAMBLE_LEN as u64, &wasm[PREAMBLE_LEN..]);
    // The bytes encode a module: reading fails only where they end.
    while let Ok(section) = Extent::read(&mut cursor) {
        add_section(&mut findings, section, module)?;
        custom_count = add_custom(
            alloc,
            &mut findings,
            section,
            &named,
            module.customs(),
            custom_count,
        )?;
    }
    Ok(findings)
}

/// Returns what the text of a module does not show. On `Ok`, the bytes encode a module, and the result lists each part of
/// it that has more bytes than its shortest encoding ([`lengths_are_shortest`](crate::shortest::lengths_are_shortest)),
/// each section without entries, and names and branch hints that the text does not have (`found`, [`names_are_those_given`]).
/// Parts of one section follow each other in the order of their places, as the sections do.
///
/// # Errors
///
/// The errors are those of [`decode`], for the reasons that it lists. `Memory` is also returned if the list cannot grow
/// (`refused`).
///
/// - `Component` exactly if the bytes are marked as a component, as [`decode`] says (`component`).
/// - If the bytes encode a module within the limits of [`decode`], only `Memory` is possible (`within`).
pub fn hidden(alloc: Global, wasm: &[u8]) -> Result<Vec<Finding>, Error>
    ensures found { IfOk result (λ list. AreHidden wasm.now list.items) }
    ensures refused { IfErr result (λ e. (e ≡ Error.Memory) ⊎ HasDecodingReason wasm.now e) }
    ensures component { IsErrOf result Error.Component ↔ IsComponent wasm.now }
    ensures within { (m : PlacedModule) → Spells wasm.now m → IsWithinLimits m
        → IsOkUnless result Error.Memory }
{
    let module = decode(alloc, wasm)?;
    let findings = findings_in_sections(alloc, wasm, &module)?;
    Ok(findings.into_list())
}

/// States that bytes have at most one list of findings, and one if they encode a module. Has no code: these are laws over
/// the definition of the list.
pub fn findings_are_unique()
    ensures unique { FindingsAreUnique }
    ensures exists { ModulesHaveFindings }
{}

/// States that the findings in a name section are about the names from which the text takes its identifiers: both definitions
/// read the same entries. Has no code: this is a law over definitions.
pub fn names_are_those_given()
    ensures { NamesAreThoseGiven }
{}
