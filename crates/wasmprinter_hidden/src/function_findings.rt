//! Findings in the function section and the code section (section 5.5 of the WebAssembly Core Specification, "Function
//! Section" and "Code Section").
ghost use Rattle.std.specs.Prelude.{◌≡◌, ◌++◌, ◌<◌, ◌^◌, OnOk, map};
ghost use Rattle.std.specs.List.{AllByRecursion};
ghost use Rattle.wasmprinter_hidden.specs.Lengths.{unsigned_len, list_len};
ghost use Rattle.wasmprinter_hidden.specs.Hidden.{body_end, in_function_section, in_code_section};

use crate::body_findings::add_body;
use crate::excess::unsigned_len;
use crate::finding::Part;
use crate::findings::{Findings, OpenPart};
use crate::section_extents::Extent;
use crate::section_findings::{add_contents, add_empty_section, add_size};
use std::alloc::AllocError;
use wasmprinter_decoder::{Fields, Module};

/// Returns the number of bytes of the shortest encoding of the list of the functions' types.
fn type_indices_len(module: &Module<'_>) -> u64
    ensures { result ≡ list_len unsigned_len (map (λ f. f.type_index) «module».now.functions) }
{
    let count = module.function_count();
    let mut len = unsigned_len(u64::from(count));
    for number in 0..count {
        len += unsigned_len(u64::from(module.function(number).type_index()));
    }
    len
}

/// Appends the findings in the function section.
pub(crate) fn add_function_section(
    findings: &mut Findings,
    section: Extent,
    module: &Module<'_>,
) -> Result<(), AllocError>
    ensures { OnOk result (findings.new
        ≡ findings.old ++ in_function_section «module».now.functions section) }
{
    if module.function_count() == 0 {
        return add_empty_section(findings, section);
    }
    add_contents(findings, section, type_indices_len(module))
}

/// Appends the findings in the code section. The place after each body must be below 2^64.
pub(crate) fn add_code_section(
    findings: &mut Findings,
    section: Extent,
    module: &Module<'_>,
) -> Result<(), AllocError>
    requires { AllByRecursion (λ f. body_end f < 2 ^ 64) «module».now.functions }
    ensures { OnOk result (findings.new
        ≡ findings.old ++ in_code_section «module».now.functions section) }
{
    let count = module.function_count();
    if count == 0 {
        return add_empty_section(findings, section);
    }
    add_size(findings, section)?;
    let mut size = OpenPart {
        part: Part::Count(section.id),
        place: section.contents,
        len: unsigned_len(u64::from(count)),
    };
    for number in 0..count {
        let function = module.function(number);
        let body = function.body();
        let place = body.place();
        let end = body.end() + 1;
        size.len += unsigned_len(end.saturating_sub(place));
        findings.close(size, place)?;
        add_body(findings, body)?;
        size = OpenPart {
            part: Part::BodySize,
            place: end,
            len: 0,
        };
    }
    Ok(())
}
