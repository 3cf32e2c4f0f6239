//! Runs of the program that print what no text shows. Expected lines are typed by hand.

use crate::hidden_text::finding_lines;
use crate::program_tests::{Row, first_other_row};
use std::alloc::Global;
use std::test::Fail;
use wasmprinter_hidden::finding::{Finding, Part};

/// A module that has four parts with longer encodings than needed, among them an empty section:
///
/// - at 9, the size of the type section, with 4 more bytes than needed
/// - at 15 (hexadecimal), an import, whose first name has a length with 2 more bytes than needed
/// - at 21, the empty global section
/// - at 29, the instruction `i32.const 0`, with 4 more bytes than needed
pub const PADDED: &[u8] = b"\0asm\x01\0\0\0\
    \x01\x84\x80\x80\x80\x00\x01\x60\x00\x00\
    \x02\x09\x01\x81\x80\x00m\x01g\x00\x00\
    \x03\x02\x01\x00\
    \x06\x01\x00\
    \x0a\x0b\x01\x09\x00\x41\x80\x80\x80\x80\x00\x1a\x0b";

/// The lines of that module.
const LINES: &str = "0x9: size of the type section, extra bytes: 4
0x15: entry of the import section, extra bytes: 2
0x21: empty global section, extra bytes: 3
0x29: instruction, extra bytes: 4
";

/// The same lines twice.
const TWICE: &str = "0x9: size of the type section, extra bytes: 4
0x15: entry of the import section, extra bytes: 2
0x21: empty global section, extra bytes: 3
0x29: instruction, extra bytes: 4
0x9: size of the type section, extra bytes: 4
0x15: entry of the import section, extra bytes: 2
0x21: empty global section, extra bytes: 3
0x29: instruction, extra bytes: 4
";

/// The import of that module.
const IMPORT: &str = "  (import \"m\" \"g\" (func (;0;) (type 0)))\n";

/// What no text shows, with other options, and instead of a part of the text.
const HIDDEN: &[Row] = &[
    (&["--hidden", "padded.wasm"], 0, LINES, ""),
    (&["--hidden", "identity.wasm"], 0, "", ""),
    (
        &["padded.wasm", "--hidden", "empty.wasm", "padded.wasm"],
        0,
        TWICE,
        "",
    ),
    (
        &[
            "-p",
            "-f",
            "--skeleton",
            "--name-unnamed",
            "--indent=9",
            "--color=always",
            "--hidden",
            "padded.wasm",
        ],
        0,
        LINES,
        "",
    ),
    (
        &["--at=0", "--func=0", "--hidden", "padded.wasm"],
        0,
        LINES,
        "",
    ),
    (&["--hidden", "--func=0", "padded.wasm"], 0, IMPORT, ""),
    (&["--hidden", "-o", "new.wat", "padded.wasm"], 0, "", ""),
];

#[test]
fn prints_what_no_text_shows(rt: HostRuntime) -> Result<(), Fail> {
    let other = first_other_row(rt.alloc(), HIDDEN)?;
    assert!(rt; other == None, "row {other:?}");
    Ok(())
}

/// Modules that can't be decoded, one that can only be decoded, and a word that is no option.
const FAILURES: &[Row] = &[
    (
        &[
            "--hidden",
            "cut.wasm",
            "component.wasm",
            "none.wasm",
            "padded.wasm",
        ],
        1,
        LINES,
        "wasm2text: cut.wasm: malformed module at byte 0x0
wasm2text: component.wasm: components are not supported
wasm2text: none.wasm: no such file or directory
",
    ),
    (
        &["--hidden", "late.wasm"],
        0,
        "0x13: data of a custom section, extra bytes: 2\n",
        "",
    ),
    (
        &["--hidden=yes", "padded.wasm"],
        2,
        "",
        "wasm2text: unknown option '--hidden=yes'. Try 'wasm2text --help'.\n",
    ),
];

#[test]
fn reports_modules_that_cant_be_decoded(rt: HostRuntime) -> Result<(), Fail> {
    let other = first_other_row(rt.alloc(), FAILURES)?;
    assert!(rt; other == None, "row {other:?}");
    Ok(())
}

/// The place, the part and the number of extra bytes of a finding, and its line.
type LineRow = (u64, Part, u64, &'static str);

/// A finding for each other part, and for each section.
const LINE_ROWS: &[LineRow] = &[
    (
        8,
        Part::Section(1),
        3,
        "0x8: empty type section, extra bytes: 3\n",
    ),
    (
        9,
        Part::SectionSize(0),
        1,
        "0x9: size of the custom section, extra bytes: 1\n",
    ),
    (
        10,
        Part::Count(10),
        8,
        "0xa: count and first size of the code section, extra bytes: 8\n",
    ),
    (
        15,
        Part::Count(11),
        4,
        "0xf: count of the data section, extra bytes: 4\n",
    ),
    (
        16,
        Part::Contents(12),
        4,
        "0x10: contents of the data count section, extra bytes: 4\n",
    ),
    (
        255,
        Part::Entry(2),
        10,
        "0xff: entry of the import section, extra bytes: 10\n",
    ),
    (
        256,
        Part::CustomName,
        4,
        "0x100: name of a custom section, extra bytes: 4\n",
    ),
    (
        256,
        Part::EmptyCustom,
        5,
        "0x100: empty custom section, extra bytes: 5\n",
    ),
    (
        257,
        Part::CustomData,
        1,
        "0x101: data of a custom section, extra bytes: 1\n",
    ),
    (
        4095,
        Part::BodySize,
        4,
        "0xfff: size of a function body, extra bytes: 4\n",
    ),
    (
        0xabcdef,
        Part::LocalCount,
        4,
        "0xabcdef: count of groups of locals, extra bytes: 4\n",
    ),
    (
        2748,
        Part::LocalGroup,
        4,
        "0xabc: group of locals, extra bytes: 4\n",
    ),
    (
        u64::MAX,
        Part::Instruction,
        u64::MAX,
        "0xffffffffffffffff: instruction, extra bytes: 18446744073709551615\n",
    ),
    (
        0,
        Part::Contents(3),
        0,
        "0x0: contents of the function section, extra bytes: 0\n",
    ),
    (
        0,
        Part::Entry(4),
        0,
        "0x0: entry of the table section, extra bytes: 0\n",
    ),
    (
        0,
        Part::Section(5),
        0,
        "0x0: empty memory section, extra bytes: 0\n",
    ),
    (
        0,
        Part::Count(6),
        0,
        "0x0: count of the global section, extra bytes: 0\n",
    ),
    (
        0,
        Part::SectionSize(7),
        0,
        "0x0: size of the export section, extra bytes: 0\n",
    ),
    (
        0,
        Part::Contents(8),
        0,
        "0x0: contents of the start section, extra bytes: 0\n",
    ),
    (
        0,
        Part::Entry(9),
        0,
        "0x0: entry of the element section, extra bytes: 0\n",
    ),
    (
        0,
        Part::Section(10),
        0,
        "0x0: empty code section, extra bytes: 0\n",
    ),
    (
        0,
        Part::Count(13),
        0,
        "0x0: count of the tag section, extra bytes: 0\n",
    ),
    (
        0,
        Part::SectionSize(14),
        0,
        "0x0: size of the unknown section, extra bytes: 0\n",
    ),
];

/// A finding for each part of a name section and of branch hints.
const NAME_ROWS: &[LineRow] = &[
    (
        0,
        Part::NameSubsection(255),
        2,
        "0x0: unknown subsection 255 of a name section, extra bytes: 2\n",
    ),
    (
        0,
        Part::NameSubsection(12),
        7,
        "0x0: unknown subsection 12 of a name section, extra bytes: 7\n",
    ),
    (
        0,
        Part::NameSubsection(11),
        3,
        "0x0: empty subsection 11 of a name section, extra bytes: 3\n",
    ),
    (
        1,
        Part::NameSubsectionSize(0),
        1,
        "0x1: size of subsection 0 of a name section, extra bytes: 1\n",
    ),
    (
        2,
        Part::NameCount,
        1,
        "0x2: count of names, extra bytes: 1\n",
    ),
    (
        3,
        Part::NameOwner,
        1,
        "0x3: index of a function or type with names, extra bytes: 1\n",
    ),
    (
        3,
        Part::OwnerWithoutNames,
        2,
        "0x3: function or type without names, extra bytes: 2\n",
    ),
    (4, Part::Name, 1, "0x4: name, extra bytes: 1\n"),
    (
        4,
        Part::ReplacedName,
        3,
        "0x4: replaced name, extra bytes: 3\n",
    ),
    (
        5,
        Part::NameOfNothing,
        9,
        "0x5: name of nothing, extra bytes: 9\n",
    ),
    (
        6,
        Part::UnreadNames,
        1,
        "0x6: unread bytes of a name section, extra bytes: 1\n",
    ),
    (
        6,
        Part::MissingNames,
        0,
        "0x6: missing names, extra bytes: 0\n",
    ),
    (
        7,
        Part::Hint,
        3,
        "0x7: unused branch hint, extra bytes: 3\n",
    ),
    (
        8,
        Part::HintSection,
        1,
        "0x8: malformed or replaced branch hints, extra bytes: 1\n",
    ),
];

/// Returns whether the finding of a row has its line.
fn is_line(alloc: Global, row: &LineRow) -> Result<bool, Fail> {
    let (place, part, extra, line) = *row;
    let text = finding_lines(alloc, &[Finding { place, part, extra }])?;
    Ok(text.as_str() == line)
}

/// Returns the number of the first row whose finding has another line, or `None` if there is no such row.
fn first_other_line(alloc: Global, rows: &[LineRow]) -> Result<Option<usize>, Fail> {
    for (number, row) in rows.iter().enumerate() {
        if !is_line(alloc, row)? {
            return Ok(Some(number));
        }
    }
    Ok(None)
}

#[test]
fn names_each_part_of_names_and_hints(rt: HostRuntime) -> Result<(), Fail> {
    let other = first_other_line(rt.alloc(), NAME_ROWS)?;
    assert!(rt; other == None, "row {other:?}");
    Ok(())
}

#[test]
fn names_each_part_and_section(rt: HostRuntime) -> Result<(), Fail> {
    let other = first_other_line(rt.alloc(), LINE_ROWS)?;
    assert!(rt; other == None, "row {other:?}");
    Ok(())
}
