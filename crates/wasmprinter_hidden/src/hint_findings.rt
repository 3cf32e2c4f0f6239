//! Findings in sections with branch hints (Code Metadata, a document that accompanies the standard).
ghost use Rattle.std.specs.Prelude.{◌≡◌, ◌++◌, None, IfOk, OnOk, codes, is_none, map};
ghost use Rattle.wasmprinter_spec.specs.Module.{func_import};
ghost use Rattle.wasmprinter_spec.specs.Customs.Hints.{last_named};
ghost use Rattle.wasmprinter_hidden.specs.HiddenNames.{imported};
ghost use Rattle.wasmprinter_hidden.specs.HiddenData.{is_empty};
ghost use Rattle.wasmprinter_hidden.specs.HiddenHints.{left_in_body, hints_in, left_hints, in_hint, gives_no_hints, whole_data, in_last_hints, in_hints};

use crate::custom_data_findings::add_longer_data;
use crate::finding::Part;
use crate::findings::Findings;
use crate::hint_entries::{FunctionEntry, HintEntries, read_entries, take_at};
use std::alloc::{AllocError, Global};
use wasmprinter_custom::is_hint_section;
use wasmprinter_decoder::{Body, Custom, CustomEntry, ExternKind, Fields, Module};

/// Appends a finding for each of the hints.
fn add_hints(findings: &mut Findings, hints: &HintEntries<'_>) -> Result<(), AllocError>
    ensures { OnOk result (findings.new ≡ findings.old ++ map in_hint hints.now) }
{
    for hint in hints.iter() {
        findings.push(hint.place(), Part::Hint, hint.len())?;
    }
    Ok(())
}

/// Appends a finding for each hint of the entries.
fn add_entries(findings: &mut Findings, entries: &[FunctionEntry<'_>]) -> Result<(), AllocError>
    ensures { OnOk result (findings.new ≡ findings.old ++ map in_hint (hints_in entries.now)) }
{
    for entry in entries {
        add_hints(findings, &entry.hints)?;
    }
    Ok(())
}

/// Returns the hints that no operator of the body has.
fn left_in_body<'a>(hints: &HintEntries<'a>, body: &Body<'_>) -> HintEntries<'a>
    ensures { result ≡ left_in_body body.now.place hints.now body.now.value.operators }
{
    let mut left = hints.iter();
    for (place, _) in body.operators() {
        take_at(&mut left, place.saturating_sub(body.place()));
    }
    left
}

/// Appends a finding for each hint that no operator of the functions has.
fn add_left_hints(
    findings: &mut Findings,
    module: &Module<'_>,
    entries: &[FunctionEntry<'_>],
) -> Result<(), AllocError>
    ensures { OnOk result (findings.new ≡ findings.old ++ map in_hint (left_hints (imported «module».now func_import) «module».now.functions entries.now)) }
{
    let first = module.imported_count(ExternKind::Func);
    let mut taken = 0;
    for index in 0..module.function_count() {
        let number = first + u64::from(index);
        if let Some(entry) = entries.get(taken) {
            if entry.is_of(number) {
                let function = module.function(index);
                add_hints(findings, &left_in_body(&entry.hints, function.body()))?;
                taken += 1;
            }
        }
    }
    add_entries(findings, &entries[taken..])
}

/// Appends a finding for the data of a section as a whole, unless it is empty.
fn add_whole_data(findings: &mut Findings, section: &Custom<'_>) -> Result<(), AllocError>
    ensures { OnOk result (findings.new ≡ findings.old ++ whole_data section.now.value.bytes) }
{
    let bytes = section.bytes();
    if bytes.is_empty() {
        return Ok(());
    }
    findings.push(section.bytes_place(), Part::HintSection, bytes.len() as u64)
}

/// Appends the findings in the data of the section with branch hints that counts.
fn add_last_hints(
    alloc: Global,
    findings: &mut Findings,
    module: &Module<'_>,
    section: &Custom<'_>,
) -> Result<(), AllocError>
    ensures { OnOk result (findings.new ≡ findings.old ++ in_last_hints «module».now section.now.value.bytes) }
{
    match read_entries(alloc, section.cursor())? {
        Some(entries) => {
            add_longer_data(findings, section, &entries)?;
            add_left_hints(findings, module, &entries)
        }
        None => add_whole_data(findings, section),
    }
}

/// Reports whether none of the functions has hints.
fn are_empty(entries: &[FunctionEntry<'_>]) -> bool
    ensures { result ≡ is_empty (hints_in entries.now) }
{
    for entry in entries {
        if entry.has_hints() {
            return false;
        }
    }
    true
}

/// Reports whether the data of a section with branch hints gives no hints: it has no bytes, or its functions have no
/// hints.
pub(crate) fn gives_no_hints(alloc: Global, section: &Custom<'_>) -> Result<bool, AllocError>
    ensures { IfOk result (λ none. none ≡ gives_no_hints section.now.value.bytes) }
{
    match read_entries(alloc, section.cursor())? {
        Some(entries) => Ok(are_empty(&entries)),
        None => Ok(section.bytes().is_empty()),
    }
}

/// Reports whether none of these custom sections has branch hints.
fn have_no_hints(customs: &[CustomEntry<'_>]) -> bool
    ensures { result ≡ is_none (last_named (codes "metadata.code.branch_hint") None customs.now) }
{
    for entry in customs {
        if is_hint_section(entry.section.name()) {
            return false;
        }
    }
    true
}

/// Appends the findings in the data of a section with branch hints. `later` are the custom sections after it.
///
/// The search for a later section with branch hints stops at the first one. So the searches for all sections of a module
/// go through each custom section at most once, and take linear time together.
pub(crate) fn add_hint_section(
    alloc: Global,
    findings: &mut Findings,
    module: &Module<'_>,
    later: &[CustomEntry<'_>],
    section: &Custom<'_>,
) -> Result<(), AllocError>
    ensures { OnOk result (findings.new ≡ findings.old ++ in_hints «module».now later.now section.now.value.bytes) }
{
    if have_no_hints(later) {
        add_last_hints(alloc, findings, module, section)
    } else {
        add_whole_data(findings, section)
    }
}
