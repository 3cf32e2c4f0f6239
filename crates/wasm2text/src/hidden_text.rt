//! What no text of a module shows, as text.
ghost use Rattle.std.specs.Prelude.{◌≡◌, ◌++◌, Some, IfOk, IfErr, flat_map, string_bytes};
ghost use Rattle.std.specs.Fmt.{WritesOnOk};
ghost use Rattle.wasm2text.specs.HiddenText.{kind_word, section_text, subsection_text, part_text, finding_line, IsHiddenText, IsHiddenRefusal};
ghost use Rattle.wasmprinter_spec.specs.Sections.{kind_of};

use crate::cause::Cause;
use crate::code_section::CODE;
use std::alloc::{AllocError, Global};
use std::fmt;
use wasmprinter_hidden::finding::{Finding, Part};
use wasmprinter_hidden::hidden;

/// Returns what no text of a module shows: a line for each part that has a longer encoding than needed, for each section
/// or list without entries, and for names and branch hints that are not used.
///
/// # Errors
///
/// - `Module`: the module can't be decoded, or an allocation failed.
pub fn hidden_text(alloc: Global, wasm: &[u8]) -> Result<String, Cause>
    ensures shown { IfOk result (λ text. IsHiddenText wasm.now (string_bytes text)) }
    ensures refused { IfErr result (IsHiddenRefusal wasm.now) }
{
    let found = hidden(alloc, wasm)?;
    Ok(finding_lines(alloc, &found)?)
}

/// Returns a line for each finding.
pub fn finding_lines(alloc: Global, found: &[Finding]) -> Result<String, AllocError>
    ensures { IfOk result (λ text. string_bytes text ≡ flat_map finding_line found.now) }
{
    let mut text = String::new(alloc);
    for finding in found {
        let line = FindingLine(*finding);
        write!(text, "{line}")?;
    }
    Ok(text)
}

/// The line of a finding.
#[derive(Clone, Copy)]
struct FindingLine(Finding);

impl fmt::Display for FindingLine {
    ghost output = { λ line. Some (finding_line line.0) };

    fn fmt<W: fmt::Write>(&self, f: &mut fmt::Formatter<W>) -> fmt::Result {
        let place = self.0.place;
        let part = PartText(self.0.part);
        let extra = self.0.extra;
        write!(f, "0x{place:x}: {part}, extra bytes: {extra}\n")
    }
}

/// A part of a module, in words.
#[derive(Clone, Copy)]
struct PartText(Part);

impl fmt::Display for PartText {
    ghost output = { λ part. Some (part_text part.0) };

    fn fmt<W: fmt::Write>(&self, f: &mut fmt::Formatter<W>) -> fmt::Result {
        match self.0 {
            Part::Section(id) => write_section(f, "empty ", id),
            Part::SectionSize(id) => write_section(f, "size of the ", id),
            Part::Count(CODE) => write_section(f, "count and first size of the ", CODE),
            Part::Count(id) => write_section(f, "count of the ", id),
            Part::Contents(id) => write_section(f, "contents of the ", id),
            Part::Entry(id) => write_section(f, "entry of the ", id),
            Part::CustomName => f.write_str("name of a custom section"),
            Part::EmptyCustom => f.write_str("empty custom section"),
            Part::CustomData => f.write_str("data of a custom section"),
            Part::BodySize => f.write_str("size of a function body"),
            Part::LocalCount => f.write_str("count of groups of locals"),
            Part::LocalGroup => f.write_str("group of locals"),
            Part::Instruction => f.write_str("instruction"),
            Part::NameSubsection(id) => write_subsection(f, id),
            Part::NameSubsectionSize(id) => write!(f, "size of subsection {id} of a name section"),
            Part::NameCount => f.write_str("count of names"),
            Part::NameOwner => f.write_str("index of a function or type with names"),
            Part::OwnerWithoutNames => f.write_str("function or type without names"),
            Part::Name => f.write_str("name"),
            Part::NameOfNothing => f.write_str("name of nothing"),
            Part::ReplacedName => f.write_str("replaced name"),
            Part::UnreadNames => f.write_str("unread bytes of a name section"),
            Part::MissingNames => f.write_str("missing names"),
            Part::Hint => f.write_str("unused branch hint"),
            Part::HintSection => f.write_str("malformed or replaced branch hints"),
        }
    }
}

/// The last known id of a subsection of a name section (the extended name section proposal).
const LAST_SUBSECTION: u8 = 11;

/// Writes the subsection of a name section with this id, in words. It gives no names: its id is unknown, or its list is
/// empty.
fn write_subsection<W: fmt::Write>(f: &mut fmt::Formatter<W>, id: u8) -> fmt::Result
    ensures { WritesOnOk W.write_str_gives f.old result (subsection_text id) f.new }
{
    if id > LAST_SUBSECTION {
        write!(f, "unknown subsection {id} of a name section")
    } else {
        write!(f, "empty subsection {id} of a name section")
    }
}

/// Writes a part of the section with this id, in words.
fn write_section<W: fmt::Write>(f: &mut fmt::Formatter<W>, part: &str, id: u8) -> fmt::Result
    ensures { WritesOnOk W.write_str_gives f.old result (part.now ++ section_text id) f.new }
{
    let name = section_name(id);
    write!(f, "{part}{name} section")
}

/// Returns the name of the sections with this id (section 5.5 of the WebAssembly Core Specification, "Sections").
fn section_name(id: u8) -> &'static str
    ensures { result.now ≡ kind_word (kind_of id) }
{
    match id {
        0 => "custom",
        1 => "type",
        2 => "import",
        3 => "function",
        4 => "table",
        5 => "memory",
        6 => "global",
        7 => "export",
        8 => "start",
        9 => "element",
        10 => "code",
        11 => "data",
        12 => "data count",
        13 => "tag",
        _ => "unknown",
    }
}
