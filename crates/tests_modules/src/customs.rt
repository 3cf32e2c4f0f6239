//! Tests of custom sections (section 5.5.3 of the standard): malformed ones, their places in a decoded module, calls on a
//! printer before a `dylink.0` section (tool conventions) is refused, and sections that the printer claims.

use crate::rows::{Row, expect_rows};
use std::alloc::{AllocError, Global};
use std::test::Fail;
use wasmprinter::wasm::decode;
use wasmprinter::{Config, Error};
use wasmprinter_decoder::{CustomEntry, Fields, SectionKind};
use wasmprinter_expecting::Expected::Malformed;
use wasmprinter_expecting::Options::Default;
use wasmprinter_expecting::{
    CallsRow, Refusal, expect_each_calls, expect_recorded, print_to, refusal_of,
};
use wasmprinter_samples::modules_and_texts_from_parts::Part::{Bytes, Custom, Section};
use wasmprinter_samples::modules_and_texts_from_parts::{Parts, add_parts, build};
use wasmprinter_samples::sections::CUSTOM;
use wasmprinter_samples::{PREAMBLE, Recorder};

// ---- places

/// A memory between two custom sections.
const AROUND_A_MEMORY: &[u8] = &[
    0x00, 0x61, 0x73, 0x6d, 0x01, 0x00, 0x00, 0x00, // preamble
    0x00, 0x03, 0x01, 0x61, 0x01, // a
    0x05, 0x03, 0x01, 0x00, 0x01, // memories
    0x00, 0x02, 0x01, 0x62, // b
];

/// Modules with a malformed custom section.
const MALFORMED: &[Row] = &[
    (
        "the id of a custom section without a size",
        &[Bytes(AROUND_A_MEMORY), Bytes(&[0x00])],
        Malformed,
    ),
    (
        "a name of one byte that is not UTF-8",
        &[Bytes(PREAMBLE), Section(CUSTOM, &[0x01, 0xff])],
        Malformed,
    ),
    (
        "a name of two bytes that is not UTF-8",
        &[Bytes(PREAMBLE), Section(CUSTOM, &[0x02, 0xc3, 0x28])],
        Malformed,
    ),
    (
        "a name that is truncated",
        &[Bytes(PREAMBLE), Section(CUSTOM, &[0x02, 0x61])],
        Malformed,
    ),
    (
        "an empty section, which has no name",
        &[Bytes(PREAMBLE), Section(CUSTOM, &[])],
        Malformed,
    ),
];

#[test]
fn refuses_malformed_sections(rt: HostRuntime) -> Result<(), Fail> {
    expect_rows(rt.alloc(), MALFORMED)
}

/// A section: the id and the content.
type SectionRow = (u8, &'static [u8]);

/// Sections in the order of the standard.
const SECTIONS: &[SectionRow] = &[
    (1, &[0x01, 0x60, 0x00, 0x00]), // type
    (2, &[0x01, 0x01, 0x6d, 0x01, 0x66, 0x00, 0x00]), // import
    (3, &[0x01, 0x00]), // func
    (4, &[0x01, 0x70, 0x00, 0x01]), // table
    (5, &[0x01, 0x00, 0x01]), // memory
    (13, &[0x01, 0x00, 0x00]), // tag
    (6, &[0x01, 0x7f, 0x00, 0x41, 0x00, 0x0b]), // global
    (7, &[0x01, 0x01, 0x66, 0x00, 0x00]), // export
    (8, &[0x00]), // start
    (9, &[0x01, 0x01, 0x00, 0x01, 0x00]), // elem
    // The count of data segments. It is never the section before a custom section.
    (12, &[0x01]),
    (10, &[0x01, 0x02, 0x00, 0x0b]), // code
    (11, &[0x01, 0x01, 0x01, 0x61]), // data
];

/// The positions of a custom section before all sections, and of one after each: the section before it.
const EVERY_PLACE: &[Option<SectionKind>] = &[
    None,
    Some(SectionKind::Type),
    Some(SectionKind::Import),
    Some(SectionKind::Function),
    Some(SectionKind::Table),
    Some(SectionKind::Memory),
    Some(SectionKind::Tag),
    Some(SectionKind::Global),
    Some(SectionKind::Export),
    Some(SectionKind::Start),
    Some(SectionKind::Element),
    Some(SectionKind::Element),
    Some(SectionKind::Code),
    Some(SectionKind::Data),
];

/// Reports whether the custom sections have these kinds of sections as their places.
fn are_after(customs: &[CustomEntry<'_>], kinds: &[Option<SectionKind>]) -> bool {
    for (custom, kind) in customs.iter().zip(kinds) {
        if custom.after != *kind {
            return false;
        }
    }
    customs.len() == kinds.len()
}

/// Appends each of these sections, with a custom section after it.
fn add_sections(
    alloc: Global,
    wasm: &mut Vec<u8>,
    sections: &[SectionRow],
) -> Result<(), AllocError> {
    for (id, content) in sections {
        add_parts(alloc, wasm, &[Section(*id, content), Custom("c", &[])])?;
    }
    Ok(())
}

/// Returns a module of these sections, with a custom section before them and after each.
fn with_customs(alloc: Global, sections: &[SectionRow]) -> Result<Vec<u8>, AllocError> {
    let mut wasm = build(alloc, &[Bytes(PREAMBLE), Custom("c", &[])])?;
    add_sections(alloc, &mut wasm, sections)?;
    Ok(wasm)
}

/// Reports whether the custom sections of a module have these kinds of sections as their places.
fn has_places(alloc: Global, wasm: &[u8], kinds: &[Option<SectionKind>]) -> Result<bool, Error> {
    let module = decode(alloc, wasm)?;
    Ok(are_after(module.customs(), kinds))
}

#[test]
fn knows_every_place(rt: HostRuntime) -> Result<(), Fail> {
    let wasm = with_customs(rt.alloc(), SECTIONS)?;
    assert!(rt; has_places(rt.alloc(), &wasm, EVERY_PLACE)?);
    Ok(())
}

// ---- `dylink.0`

/// The calls on a printer before a `dylink.0` section is refused.
const CALLS_BEFORE_REFUSAL: &str = r#"[0x0]({K}module{R}{? "a" 0xc [1]}
[0xa]  ({K}@custom {R}{L}"a"{R} (before first) {L}"\\01"{R})
[0x10]  ({K}memory {R}{N}(;0;){R} {L}1{R}){? "b" 0x16 []}
[0x14]  ({K}@custom {R}{L}"b"{R} (after memory) {L}""{R}){? "dylink.0" 0x21 [9, 0]}"#;

/// A memory between custom sections, of which the third is a `dylink.0` section with an unknown subsection.
const UNKNOWN_SUBSECTION: Parts = &[
    Bytes(AROUND_A_MEMORY),
    Custom("dylink.0", &[0x09, 0x00]),
    Custom("c", &[]),
];

/// Checks that a module is refused for subsection 9, after these calls on a printer.
///
/// # Errors
///
/// - The module is not refused for this subsection, or its calls differ.
fn expect_refused_after(alloc: Global, wasm: &[u8], calls: &str) -> Result<(), Fail> {
    let mut recorder = Recorder::new(alloc);
    let refusal = Refusal::DylinkSubsection { id: 9 };
    if !refusal.is(print_to(&Config::new(), alloc, wasm, &mut recorder).err()) {
        return Err("is not refused for its subsection")?;
    }
    expect_recorded("an unknown subsection", &recorder, calls)
}

#[test]
fn refuses_a_subsection_that_is_not_known(rt: HostRuntime) -> Result<(), Fail> {
    let wasm = build(rt.alloc(), UNKNOWN_SUBSECTION)?;
    let refused = refusal_of(rt.alloc(), &wasm);
    assert!(rt; matches!(refused, Some(Error::DylinkSubsection { id: 9 })));
    // The text before the refused section is printed.
    expect_refused_after(rt.alloc(), &wasm, CALLS_BEFORE_REFUSAL)
}

// ---- claims

/// Modules with custom sections, of which the printer claims some, each with the calls. A claimed section is not
/// printed, not even if it has an unknown subsection.
const CLAIMS: &[CallsRow] = &[
    (
        "a `dylink.0` section with an unknown subsection, between two other sections",
        Default,
        &[
            Bytes(PREAMBLE),
            Custom("a", &[]),
            Custom("dylink.0", &[0x09, 0x00]),
            Custom("b", &[]),
        ],
        "dylink.0",
        r#"[0x0]({K}module{R}{? "a" 0xc []}
[0xa]  ({K}@custom {R}{L}"a"{R} (before first) {L}""{R}){? "dylink.0" 0x17 [9, 0]}{? "b" 0x1d []}
[0x1b]  ({K}@custom {R}{L}"b"{R} (before first) {L}""{R})
[0x1d])
"#,
    ),
    (
        "the same section twice",
        Default,
        &[Bytes(PREAMBLE), Custom("a", &[0x01]), Custom("a", &[0x01])],
        "a",
        "[0x0]({K}module{R}{? \"a\" 0xc [1]}{? \"a\" 0x11 [1]})\n",
    ),
    (
        "a section that names the module, whose names are used",
        Default,
        &[Bytes(PREAMBLE), Custom("name", b"\x00\x02\x01m")],
        "name",
        "[0x0]({K}module{R} $m{? \"name\" 0xf [0, 2, 1, 109]})\n",
    ),
];

#[test]
fn prints_nothing_of_claimed_sections(rt: HostRuntime) -> Result<(), Fail> {
    expect_each_calls(rt.alloc(), CLAIMS)
}
