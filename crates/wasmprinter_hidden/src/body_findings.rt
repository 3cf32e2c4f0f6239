//! Findings in the bodies of functions (section 5.5 of the WebAssembly Core Specification, "Code Section").
ghost use Rattle.std.specs.Prelude.{◌≡◌, ◌++◌, IfOk, OnOk};
ghost use Rattle.wasmprinter_hidden.specs.Hidden.{shown_group_len, in_body};
ghost use Rattle.wasmprinter_hidden.specs.OpenParts.{open_part, lengths_of_groups, lengths_of_operators, HasRead};
ghost use Rattle.wasmprinter_hidden.specs.declared.finding.Part.TheVariants.{LocalGroup, Instruction};

use crate::finding::Part;
use crate::findings::{Findings, OpenPart};
use std::alloc::AllocError;
use wasmprinter_decoder::{Body, BodyParts, LocalEntry, Locals};

/// Returns the part that consists of a group of locals at this place. No byte of a group without locals is needed: a text
/// shows nothing of it.
fn group_part(place: u64, entry: &LocalEntry) -> OpenPart
    ensures { result ≡ open_part LocalGroup place (shown_group_len entry.now.value) }
{
    if entry.count() == 0 {
        return OpenPart {
            part: Part::LocalGroup,
            place,
            len: 0,
        };
    }
    OpenPart::of_item(Part::LocalGroup, place, entry)
}

/// Appends the findings in the part `first` and in the groups of locals that follow it, except in the last group, or in
/// `first` if there is none. Returns the part that is left out.
fn add_locals(
    findings: &mut Findings,
    first: OpenPart,
    locals: &Locals<'_>,
) -> Result<OpenPart, AllocError>
    ensures { IfOk result (HasRead LocalGroup findings.old first
        (lengths_of_groups locals.now) findings.new) }
{
    let mut last = first;
    for entry in locals.iter() {
        let place = entry.place();
        findings.close(last, place)?;
        last = group_part(place, &entry);
    }
    Ok(last)
}

/// Appends the findings in the part `first` and in the operators that follow it, except in the last operator, or in
/// `first` if there is none. Returns the part that is left out.
fn add_operators(
    findings: &mut Findings,
    first: OpenPart,
    body: &Body<'_>,
) -> Result<OpenPart, AllocError>
    ensures { IfOk result (HasRead Instruction findings.old first
        (lengths_of_operators body.now.value.operators) findings.new) }
{
    let mut last = first;
    for (place, operator) in body.operators() {
        prove!(place <= u64::MAX);
        findings.close(last, place)?;
        last = OpenPart::of_item(Part::Instruction, place, &operator);
    }
    Ok(last)
}

/// Appends the findings in a body.
pub(crate) fn add_body(findings: &mut Findings, body: &Body<'_>) -> Result<(), AllocError>
    ensures { OnOk result (findings.new ≡ findings.old ++ in_body body.now) }
{
    let locals = body.locals();
    let count = OpenPart::of_item(Part::LocalCount, body.place(), &locals.len());
    let last_local = add_locals(findings, count, &locals)?;
    let last_operator = add_operators(findings, last_local, body)?;
    findings.close(last_operator, body.end())
}
