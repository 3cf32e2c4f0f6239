//! Findings in the sections of a module (section 5.5 of the WebAssembly Core Specification, "Sections").
ghost use Rattle.std.specs.Prelude.{◌≡◌, ◌++◌, OnOk};
ghost use Rattle.wasmprinter_hidden.specs.Hidden.{in_size, in_contents, empty_section, in_entries};
ghost use Rattle.wasmprinter_hidden.specs.OpenParts.{lengths};

use crate::excess::unsigned_len;
use crate::finding::Part;
use crate::findings::{Entry, Findings, OpenPart};
use crate::section_extents::Extent;
use std::alloc::AllocError;

/// Appends the finding that a section has no entries.
pub(crate) fn add_empty_section(findings: &mut Findings, section: Extent) -> Result<(), AllocError>
    ensures { OnOk result (findings.new ≡ findings.old ++ empty_section section) }
{
    let bytes = section.end.saturating_sub(section.place);
    findings.push(section.place, Part::Section(section.id), bytes)
}

/// Appends the findings in the number that encodes the size of a section.
pub(crate) fn add_size(findings: &mut Findings, section: Extent) -> Result<(), AllocError>
    ensures { OnOk result (findings.new ≡ findings.old ++ in_size section) }
{
    let size = OpenPart {
        part: Part::SectionSize(section.id),
        place: section.place + 1,
        len: unsigned_len(section.end.saturating_sub(section.contents)),
    };
    findings.close(size, section.contents)
}

/// Appends the findings in a section whose contents are one part. `len` is the number of bytes of their shortest encoding.
pub(crate) fn add_contents(
    findings: &mut Findings,
    section: Extent,
    len: u64,
) -> Result<(), AllocError>
    ensures { OnOk result (findings.new ≡ findings.old ++ in_contents section len) }
{
    add_size(findings, section)?;
    let contents = OpenPart {
        part: Part::Contents(section.id),
        place: section.contents,
        len,
    };
    findings.close(contents, section.end)
}

/// Appends the findings in a section that is a list of entries.
pub(crate) fn add_entries<T: Entry>(
    findings: &mut Findings,
    section: Extent,
    entries: &[T],
) -> Result<(), AllocError>
    ensures { OnOk result (findings.new
        ≡ findings.old ++ in_entries (λ n. n) (lengths T.place T.len entries.now) section) }
{
    if entries.is_empty() {
        return add_empty_section(findings, section);
    }
    add_size(findings, section)?;
    let count = OpenPart {
        part: Part::Count(section.id),
        place: section.contents,
        len: unsigned_len(entries.len() as u64),
    };
    let last = findings.add_items(count, Part::Entry(section.id), entries)?;
    let end = section.end;
    prove!(end <= u64::MAX);
    findings.close(last, end)
}
