//! Tests of the text of custom sections. The bytes and the texts are typed by hand.
ghost use Rattle.std.specs.Prelude.{◌≡◌, None, false};
ghost use Rattle.wasmprinter_spec.specs.Options.{with_color};

use crate::parts::printing::finish;
use std::alloc::Global;
use std::io;
use std::io::ErrorKind;
use std::marker::Brand;
use std::test::Fail;
use wasmprinter_bytes::Error;
use wasmprinter_bytes::cursor::Cursor;
use wasmprinter_decoder::custom_section_positions::{CustomEntry, SectionKind};
use wasmprinter_decoder::custom_sections::Custom;
use wasmprinter_module_text::{write_custom, write_customs};
use wasmprinter_print::{LayoutOptions, Print, PrintOptions, Printer};
use wasmprinter_samples::expect_same;

/// The place of each section.
const PLACE: u64 = 0x10;

/// A printer that keeps the text, and claims sections by a list of answers. It does not claim sections after the
/// end of the list.
#[derive(Drop)]
struct Taker<'a> {
    text: String,
    answers: &'a [bool],
    /// The name of each section that the printer was asked for, with the place and the length in bytes of its data
    asked: String,
    /// The number of sections that the printer was asked for
    count: usize,
    /// The number of the question that fails, counted from 1, or 0 for none
    failing: usize,
}

impl<'a> Taker<'a> {
    fn new(alloc: Global, answers: &'a [bool]) -> Self {
        Taker {
            text: String::new(alloc),
            answers,
            asked: String::new(alloc),
            count: 0,
            failing: 0,
        }
    }

    /// Reports whether the printer was asked for these sections and wrote this text.
    fn has(&self, asked: &str, text: &str) -> bool {
        self.asked.as_str() == asked && self.text.as_str() == text
    }
}

impl<'a> Print for Taker<'a> {
    ghost meaning = { record {
      after = λ _ _ _. Unit {0};
      may_fail = λ _ _. Unit {0};
      partly = λ _ _ _ _. Unit {0};
      faults = λ _. None;
    } };

    ghost colors = { λ _. false };

    fn write_str(&mut self, s: &str) -> io::Result<()> {
        self.text.push_str(s)?;
        Ok(())
    }

    fn newline(&mut self) -> io::Result<()> {
        self.text.push('\n')?;
        Ok(())
    }

    fn start_line(&mut self, _binary_offset: Option<u64>) {}

    fn print_custom_section(
        &mut self,
        name: &str,
        binary_offset: u64,
        bytes: &[u8],
    ) -> io::Result<bool> {
        write!(self.asked, "[{name} {binary_offset:#x} {}]", bytes.len())?;
        let answer = self.answers.get(self.count).copied();
        self.count = self.count.saturating_add(1);
        if self.count == self.failing {
            return Err(io::Error::from(ErrorKind::BrokenPipe));
        }
        Ok(answer == Some(true))
    }

    fn start_literal(&mut self) -> io::Result<()> {
        Ok(())
    }

    fn start_name(&mut self) -> io::Result<()> {
        Ok(())
    }

    fn start_keyword(&mut self) -> io::Result<()> {
        Ok(())
    }

    fn start_type(&mut self) -> io::Result<()> {
        Ok(())
    }

    fn start_comment(&mut self) -> io::Result<()> {
        Ok(())
    }

    fn reset_color(&mut self) -> io::Result<()> {
        Ok(())
    }

    fn supports_async_color(&self) -> bool {
        false
    }
}

/// Prints a section with the options of `K`. Returns whether a line began, or the error.
fn print_section_by<K: LayoutOptions>(
    printer: &mut Taker<'_>,
    options: &PrintOptions,
    section: &CustomEntry<'_>,
) -> Result<bool, Error>
    requires { with_color options.now K.options.color ≡ K.options }
{
    let mut out: Printer<'_, '_, Taker<'_>, K> = Printer::new(printer, options);
    write_custom(&mut out, section);
    finish(out)
}

/// Prints a section. Returns whether a line began, or the error.
fn print_section(
    printer: &mut Taker<'_>,
    options: &PrintOptions,
    section: &CustomEntry<'_>,
) -> Result<bool, Error> {
    print_section_by::<Brand>(printer, options, section)
}

/// Prints the sections at one place with the default options. Returns whether a line began, or the error.
fn print_sections(
    printer: &mut Taker<'_>,
    customs: &[CustomEntry<'_>],
    after: Option<SectionKind>,
) -> Result<bool, Error> {
    let options = PrintOptions::new();
    let mut out: Printer<'_, '_, Taker<'_>, Brand> = Printer::new(printer, &options);
    write_customs(&mut out, customs, after);
    finish(out)
}

/// Reads a section from these bytes, which begin with its name.
fn entry<'a>(after: Option<SectionKind>, bytes: &'a [u8]) -> Result<CustomEntry<'a>, Error> {
    let section = Custom::read(&mut Cursor::new(PLACE, bytes))?;
    Ok(CustomEntry { after, section })
}

/// The options of a row.
#[derive(Clone, Copy)]
enum Options {
    Default,
    Skeleton,
    Offsets,
}

impl Options {
    /// Returns these options.
    fn print_options(self) -> PrintOptions {
        let mut options = PrintOptions::new();
        match self {
            Options::Default => {}
            Options::Skeleton => options.skeleton = true,
            Options::Offsets => options.offsets = true,
        }
        options
    }
}

/// A section: the name of the row, the options, the section of the module after which it occurs, its bytes, and its
/// text.
type Row = (
    &'static str,
    Options,
    Option<SectionKind>,
    &'static [u8],
    &'static str,
);

/// Checks the text of the section of each row.
///
/// # Errors
///
/// - A section is refused, or its text differs.
fn expect_rows(alloc: Global, rows: &[Row]) -> Result<(), Fail> {
    for (name, options, after, bytes, typed) in rows {
        let mut printer = Taker::new(alloc, &[]);
        let printed = match entry(*after, *bytes) {
            Ok(section) => print_section(&mut printer, &options.print_options(), &section),
            Err(error) => Err(error),
        };
        if let Err(error) = printed {
            return Err((*name, error))?;
        }
        expect_same(*name, printer.text.as_str(), *typed)?;
    }
    Ok(())
}

/// Sections without a form of their own, also after a section of each kind.
const RAW: &[Row] = &[
    (
        "escapes",
        Options::Default,
        None,
        b"\x03a\"b\x00h\\\xff",
        "\n  (@custom \"a\\u{22}b\" (before first) \"\\00h\\5c\\ff\")",
    ),
    (
        "no bytes in a skeleton",
        Options::Skeleton,
        None,
        b"\x01abytes",
        "\n  (@custom \"a\" (before first) ...)",
    ),
    (
        "after type",
        Options::Default,
        Some(SectionKind::Type),
        b"\x01a",
        "\n  (@custom \"a\" (after type) \"\")",
    ),
    (
        "after import",
        Options::Default,
        Some(SectionKind::Import),
        b"\x01a",
        "\n  (@custom \"a\" (after import) \"\")",
    ),
    (
        "after func",
        Options::Default,
        Some(SectionKind::Function),
        b"\x01a",
        "\n  (@custom \"a\" (after func) \"\")",
    ),
    (
        "after table",
        Options::Default,
        Some(SectionKind::Table),
        b"\x01a",
        "\n  (@custom \"a\" (after table) \"\")",
    ),
    (
        "after memory",
        Options::Default,
        Some(SectionKind::Memory),
        b"\x01a",
        "\n  (@custom \"a\" (after memory) \"\")",
    ),
    (
        "after tag",
        Options::Default,
        Some(SectionKind::Tag),
        b"\x01a",
        "\n  (@custom \"a\" (after tag) \"\")",
    ),
    (
        "after global",
        Options::Default,
        Some(SectionKind::Global),
        b"\x01a",
        "\n  (@custom \"a\" (after global) \"\")",
    ),
    (
        "after export",
        Options::Default,
        Some(SectionKind::Export),
        b"\x01a",
        "\n  (@custom \"a\" (after export) \"\")",
    ),
    (
        "after start",
        Options::Default,
        Some(SectionKind::Start),
        b"\x01a",
        "\n  (@custom \"a\" (after start) \"\")",
    ),
    (
        "after elem",
        Options::Default,
        Some(SectionKind::Element),
        b"\x01a",
        "\n  (@custom \"a\" (after elem) \"\")",
    ),
    (
        "after code",
        Options::Default,
        Some(SectionKind::Code),
        b"\x01a",
        "\n  (@custom \"a\" (after code) \"\")",
    ),
    (
        "after data",
        Options::Default,
        Some(SectionKind::Data),
        b"\x01a",
        "\n  (@custom \"a\" (after data) \"\")",
    ),
];

#[test]
fn prints_raw_sections_with_their_places(rt: HostRuntime) -> Result<(), Fail> {
    expect_rows(rt.alloc(), RAW)
}

/// Sections with the name `producers`.
const PRODUCERS: &[Row] = &[
    (
        "a line for each value",
        Options::Offsets,
        None,
        b"\x09producers\x02\x08language\x02\x04Rust\x00\x01C\x0211\x03sdk\x01\x01e\x011",
        "\n(;@10    ;)  (@producers\
         \n(;@25    ;)    (language \"Rust\" \"\")\
         \n(;@2b    ;)    (language \"C\" \"11\")\
         \n(;@35    ;)    (sdk \"e\" \"1\")\
         \n             )",
    ),
    (
        "a byte after the last field",
        Options::Default,
        None,
        b"\x09producers\x00\x01",
        "\n  ;; failed to parse custom section `producers`\
         \n  (@custom \"producers\" (before first) \"\\00\\01\")",
    ),
    (
        "a truncated field",
        Options::Default,
        None,
        b"\x09producers\x01\x01",
        "\n  ;; failed to parse custom section `producers`\
         \n  (@custom \"producers\" (before first) \"\\01\\01\")",
    ),
    (
        "no fields",
        Options::Default,
        None,
        b"\x09producers\x00",
        "\n  (@producers)",
    ),
    (
        "a field without values",
        Options::Default,
        None,
        b"\x09producers\x01\x03sdk\x00",
        "\n  (@producers)",
    ),
    (
        "a field with a name that is no keyword",
        Options::Default,
        None,
        b"\x09producers\x01\x03a b\x00",
        "\n  (@custom \"producers\" (before first) \"\\01\\03a b\\00\")",
    ),
    (
        "a zero after the last field",
        Options::Default,
        None,
        b"\x09producers\x00\x00",
        "\n  ;; failed to parse custom section `producers`\
         \n  (@custom \"producers\" (before first) \"\\00\\00\")",
    ),
];

#[test]
fn prints_producers(rt: HostRuntime) -> Result<(), Fail> {
    expect_rows(rt.alloc(), PRODUCERS)
}

/// Sections with the name `dylink.0`.
const DYLINK: &[Row] = &[
    (
        // Sizes three times; libraries; exports with flags 0x3f7, 0x409 and 0xfffffc08; imports with flags 0x20 and 0;
        // paths
        "a line for each item",
        Options::Default,
        None,
        b"\x08dylink.0\
            \x01\x04\x10\x02\x03\x00\x01\x04\x00\x00\x00\x01\x01\x04\x00\x00\x00\x00\
            \x02\x05\x02\x01a\x01b\
            \x03\x10\x03\x01f\xf7\x07\x01g\x89\x08\x01h\x88\xf8\xff\xff\x0f\
            \x04\x0b\x02\x01m\x01g\x20\x01m\x01h\x00\
            \x05\x03\x01\x01/",
        "\n  (@dylink.0\
         \n    (mem-info (memory 16 2) (table 3 0))\
         \n    (mem-info (table 0 1))\
         \n    (mem-info)\
         \n    (needed \"a\" \"b\")\
         \n    (export-info \"f\" binding-weak binding-local visibility-hidden undefined exported explicit-name no-strip tls absolute)\
         \n    (export-info \"g\" binding-weak 0x408)\
         \n    (export-info \"h\" 0xfffffc08)\
         \n    (import-info \"m\" \"g\" exported)\
         \n    (import-info \"m\" \"h\")\
         \n    (runtime-path \"/\")\
         \n  )",
    ),
    (
        "no subsections",
        Options::Default,
        None,
        b"\x08dylink.0",
        "\n  (@dylink.0)",
    ),
    (
        "subsections without items",
        Options::Default,
        None,
        b"\x08dylink.0\x03\x01\x00\x04\x01\x00",
        "\n  (@dylink.0)",
    ),
];

#[test]
fn prints_subsections_of_dylink(rt: HostRuntime) -> Result<(), Fail> {
    expect_rows(rt.alloc(), DYLINK)
}

/// Sections, each with its position among the others and its bytes.
type Sections = &'static [(Option<SectionKind>, &'static [u8])];

/// A section with subsections 5 and 9, the second of which is unknown.
const UNKNOWN: Sections = &[(None, b"\x08dylink.0\x05\x01\x00\x09\x00")];

/// The sections `a` and `b` after the type section, and `c`, a refused section and `d` after the code section.
const FIVE: Sections = &[
    (Some(SectionKind::Type), b"\x01a"),
    (Some(SectionKind::Type), b"\x01b"),
    (Some(SectionKind::Code), b"\x01c"),
    (Some(SectionKind::Code), b"\x08dylink.0\x09\x00"),
    (Some(SectionKind::Code), b"\x01d"),
];

/// Which sections are printed.
#[derive(Clone, Copy)]
enum Printed {
    /// The first section alone
    First,
    /// All sections at this position
    At(Option<SectionKind>),
}

/// The expected result of printing sections.
#[derive(Clone, Copy)]
enum Outcome {
    /// Printing succeeds, and returns whether a line began.
    Begun(bool),
    /// Printing is refused for an unknown subsection with this id.
    Refused(u8),
    /// Printing fails with the printer's error.
    Broken,
}

impl Outcome {
    /// Reports whether printing had this result.
    fn is_of(self, printed: &Result<bool, Error>) -> bool {
        match self {
            Outcome::Begun(wanted) => matches!(printed, Ok(begun) if *begun == wanted),
            Outcome::Refused(wanted) => {
                matches!(printed, Err(Error::DylinkSubsection { id }) if *id == wanted)
            }
            Outcome::Broken => {
                matches!(printed, Err(Error::Printer(e)) if e.kind() == ErrorKind::BrokenPipe)
            }
        }
    }
}

/// Questions to a printer, whether it claims sections.
struct Question {
    name: &'static str,
    sections: Sections,
    printed: Printed,
    /// The printer's answers
    answers: &'static [bool],
    /// The number of the question that fails, counted from 1, or 0 for none
    failing: usize,
    /// The name of each section that the printer is asked for, with the place and the length in bytes of its data
    asked: &'static str,
    text: &'static str,
    outcome: Outcome,
}

const QUESTIONS: &[Question] = &[
    Question {
        name: "a section with an unknown subsection is refused",
        sections: UNKNOWN,
        printed: Printed::First,
        answers: &[],
        failing: 0,
        asked: "[dylink.0 0x19 5]",
        text: "",
        outcome: Outcome::Refused(9),
    },
    Question {
        name: "a claimed section with an unknown subsection is accepted",
        sections: UNKNOWN,
        printed: Printed::First,
        answers: &[true],
        failing: 0,
        asked: "[dylink.0 0x19 5]",
        text: "",
        outcome: Outcome::Begun(false),
    },
    Question {
        name: "a name section is not printed",
        sections: &[(Some(SectionKind::Data), b"\x04name\x00")],
        printed: Printed::First,
        answers: &[],
        failing: 0,
        asked: "[name 0x15 1]",
        text: "",
        outcome: Outcome::Begun(false),
    },
    Question {
        name: "all sections at a place",
        sections: FIVE,
        printed: Printed::At(Some(SectionKind::Type)),
        answers: &[],
        failing: 0,
        asked: "[a 0x12 0][b 0x12 0]",
        text: "\n  (@custom \"a\" (after type) \"\")\n  (@custom \"b\" (after type) \"\")",
        outcome: Outcome::Begun(true),
    },
    Question {
        name: "a claimed section at a place",
        sections: FIVE,
        printed: Printed::At(Some(SectionKind::Type)),
        answers: &[true],
        failing: 0,
        asked: "[a 0x12 0][b 0x12 0]",
        text: "\n  (@custom \"b\" (after type) \"\")",
        outcome: Outcome::Begun(true),
    },
    Question {
        name: "a place without sections",
        sections: FIVE,
        printed: Printed::At(None),
        answers: &[],
        failing: 0,
        asked: "",
        text: "",
        outcome: Outcome::Begun(false),
    },
    Question {
        name: "a section among others is refused",
        sections: FIVE,
        printed: Printed::At(Some(SectionKind::Code)),
        answers: &[],
        failing: 0,
        asked: "[c 0x12 0][dylink.0 0x19 2]",
        text: "\n  (@custom \"c\" (after code) \"\")",
        outcome: Outcome::Refused(9),
    },
    Question {
        name: "a question fails",
        sections: &[(None, b"\x01a"), (None, b"\x01b"), (None, b"\x01c")],
        printed: Printed::At(None),
        answers: &[true],
        failing: 2,
        asked: "[a 0x12 0][b 0x12 0]",
        text: "",
        outcome: Outcome::Broken,
    },
];

/// Reads the sections from these bytes.
fn entries_of(alloc: Global, sections: Sections) -> Result<Vec<CustomEntry<'static>>, Error> {
    let mut entries = Vec::new(alloc);
    for (after, bytes) in sections {
        entries.push(entry(*after, bytes)?)?;
    }
    Ok(entries)
}

/// Prints some of the sections with the default options. Returns whether a line began, or the error.
fn print_some(
    printer: &mut Taker<'_>,
    customs: &[CustomEntry<'_>],
    printed: Printed,
) -> Result<bool, Error> {
    match (printed, customs) {
        (Printed::At(after), _) => print_sections(printer, customs, after),
        (Printed::First, [first, ..]) => print_section(printer, &PrintOptions::new(), first),
        // No row expects this error
        (Printed::First, []) => Err(Error::Unreadable),
    }
}

/// Checks the result of printing the sections of a row, the sections that the printer is asked for, and the text.
///
/// # Errors
///
/// - A section is not read, or the result, the sections or the text differ.
fn expect_asked(alloc: Global, question: &Question) -> Result<(), Fail> {
    let customs = match entries_of(alloc, question.sections) {
        Ok(customs) => customs,
        Err(error) => return Err((question.name, error))?,
    };
    let mut printer = Taker::new(alloc, question.answers);
    printer.failing = question.failing;
    let result = print_some(&mut printer, &customs, question.printed);
    if !question.outcome.is_of(&result) {
        return Err((question.name, "the result differs"))?;
    }
    if !printer.has(question.asked, question.text) {
        return Err((question.name, "the sections or the text differ"))?;
    }
    Ok(())
}

/// Checks each row.
///
/// # Errors
///
/// - A section is not read, or the result, the sections or the text differ.
fn expect_each_asked(alloc: Global, questions: &[Question]) -> Result<(), Fail> {
    for question in questions {
        expect_asked(alloc, question)?;
    }
    Ok(())
}

#[test]
fn a_printer_is_asked_for_each_section(rt: HostRuntime) -> Result<(), Fail> {
    expect_each_asked(rt.alloc(), QUESTIONS)
}
