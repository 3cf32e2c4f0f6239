//! Tests of the contents of custom sections. The bytes and the expected values are typed by hand.

use bitflags::Flags;
use std::alloc::{AllocError, Global};
use std::test::Fail;
use wasmprinter_custom::{
    Content, CustomTreatment, Dylink, FunctionHints, Hint, Hints, Producers, Subsection,
    SymbolFlags, custom_treatment, is_hint_section,
};

/// The place of the bytes of a section.
const PLACE: u64 = 0x100;

/// Returns the fields of a `producers` section, or `None` if it has another treatment.
fn fields_of<'a>(bytes: &'a [u8]) -> Option<Producers<'a>> {
    let treatment = custom_treatment("producers", PLACE, bytes);
    match &treatment {
        CustomTreatment::Producers(fields) => Some(fields.iter()),
        _ => None,
    }
}

/// Returns the subsections of a `dylink.0` section, or `None` if it has another treatment.
fn subsections_of<'a>(bytes: &'a [u8]) -> Option<Dylink<'a>> {
    let treatment = custom_treatment("dylink.0", PLACE, bytes);
    match &treatment {
        CustomTreatment::Dylink(subsections) => Some(subsections.iter()),
        _ => None,
    }
}

/// Returns this file's word for the treatment of a section, and the id of an unknown subsection or 0.
fn treatment_of(name: &str, bytes: &[u8]) -> (&'static str, u8) {
    match custom_treatment(name, 0, bytes) {
        CustomTreatment::Silent => ("silent", 0),
        CustomTreatment::Producers(_) => ("producers", 0),
        CustomTreatment::Dylink(_) => ("dylink", 0),
        CustomTreatment::Refused(id) => ("refused", id),
        CustomTreatment::Raw => ("raw", 0),
        CustomTreatment::Malformed => ("malformed", 0),
    }
}

/// Sections: the name of the row, the section's name and bytes, the word for its treatment, and the id of an unknown
/// subsection or 0.
type TreatmentRow = (
    &'static str,
    &'static str,
    &'static [u8],
    (&'static str, u8),
);

const TREATMENTS: &[TreatmentRow] = &[
    ("names", "name", b"\xff", ("silent", 0)),
    ("hints", "metadata.code.branch_hint", b"\xff", ("silent", 0)),
    ("an unknown section", "names", b"", ("raw", 0)),
    ("no count of fields", "producers", b"", ("malformed", 0)),
    ("no fields", "producers", b"\x00", ("producers", 0)),
    (
        "a byte after the fields",
        "producers",
        b"\x00\x00",
        ("malformed", 0),
    ),
    (
        "a field `$`",
        "producers",
        b"\x01\x01$\x00",
        ("producers", 0),
    ),
    (
        "a field with an empty name",
        "producers",
        b"\x01\x00\x00",
        ("raw", 0),
    ),
    (
        "a field with a space",
        "producers",
        b"\x01\x03a b\x00",
        ("raw", 0),
    ),
    (
        "a field that is not UTF-8",
        "producers",
        b"\x01\x01\xff\x00",
        ("malformed", 0),
    ),
    ("no subsections", "dylink.0", b"", ("dylink", 0)),
    (
        "a truncated subsection",
        "dylink.0",
        b"\x01\x05\x10",
        ("malformed", 0),
    ),
    (
        "unknown subsection 9",
        "dylink.0",
        b"\x05\x01\x00\x09\x00",
        ("refused", 9),
    ),
    (
        "an unknown subsection before a truncated one",
        "dylink.0",
        b"\x09\x01\x00\x01\x05\x10",
        ("refused", 9),
    ),
    (
        "an unknown subsection after a malformed one",
        "dylink.0",
        b"\x05\x02\x00\x00\x09\x00",
        ("malformed", 0),
    ),
    (
        "a subsection without bytes",
        "dylink.0",
        b"\x00\x01",
        ("malformed", 0),
    ),
    (
        "unknown subsection 7",
        "dylink.0",
        b"\x07\x00",
        ("refused", 7),
    ),
];

/// Characters, each with the word for the treatment of a `producers` section whose only field has this character as its
/// name.
const CHARACTERS: &[(u8, &str)] = &[
    (b'!', "producers"),
    (b'~', "producers"),
    (b'@', "producers"),
    (b'\\', "producers"),
    (b' ', "raw"),
    (b'"', "raw"),
    (b'(', "raw"),
    (b')', "raw"),
    (b',', "raw"),
    (b';', "raw"),
    (b'[', "raw"),
    (b']', "raw"),
    (b'{', "raw"),
    (b'}', "raw"),
    (0x7f, "raw"),
];

#[test]
fn sections_have_treatments(rt: HostRuntime) {
    for (name, section, bytes, wanted) in TREATMENTS {
        assert!(rt; treatment_of(section, bytes) == *wanted, "{name}");
    }
    for (byte, wanted) in CHARACTERS {
        let treatment = treatment_of("producers", &[0x01, 0x01, *byte, 0x00]);
        assert!(rt;
            treatment == (*wanted, 0),
            "a field named by byte {byte:#x}"
        );
    }
}

/// An expected fact about the contents of a section.
#[derive(Clone, Copy)]
enum Fact {
    /// The place, name and version of the second value of the first field
    SecondValue(u64, &'static str, &'static str),
    /// The name of the second field
    SecondField(&'static str),
    /// The place of the second subsection
    SecondSubsection(u64),
    /// The sizes and alignments of the first subsection: those of the memory, then those of the table
    Sizes([u32; 4]),
    /// The second name of the first subsection, which has libraries or paths, or `None` if there is one name
    SecondPath(Option<&'static str>),
    /// The name and the flags of the first export of the first subsection
    Export(&'static str, u32),
    /// The module, the name and the flags of the first import of the first subsection
    Import(&'static str, &'static str, u32),
}

/// Returns the place, name and version of the second value of the first field.
fn second_value(bytes: &[u8]) -> Option<(u64, &str, &str)> {
    let field = fields_of(bytes)?.next()?;
    let value = field.values().nth(1)?;
    Some((value.place(), value.name(), value.version()))
}

/// Returns the name of the second field.
fn second_name(bytes: &[u8]) -> Option<&str> {
    let field = fields_of(bytes)?.nth(1)?;
    Some(field.name())
}

/// Returns the place of the second subsection.
fn second_place(bytes: &[u8]) -> Option<u64> {
    let subsection = subsections_of(bytes)?.nth(1)?;
    Some(subsection.place())
}

/// Returns the first subsection.
fn first_subsection<'a>(bytes: &'a [u8]) -> Option<Subsection<'a>> {
    subsections_of(bytes)?.next()
}

/// Returns the sizes and alignments of the first subsection: those of the memory, then those of the table.
fn sizes_of(bytes: &[u8]) -> Option<[u32; 4]> {
    let subsection = first_subsection(bytes)?;
    match subsection.content() {
        Content::MemInfo(m) => Some([
            m.memory_size(),
            m.memory_alignment(),
            m.table_size(),
            m.table_alignment(),
        ]),
        _ => None,
    }
}

/// Returns the second name of the first subsection, which has libraries or paths.
fn second_path(bytes: &[u8]) -> Option<&str> {
    let subsection = first_subsection(bytes)?;
    match subsection.content() {
        Content::Needed(names) | Content::RuntimePath(names) => names.iter().nth(1),
        _ => None,
    }
}

/// Returns the name and the flags of the first export of the first subsection.
fn export_of(bytes: &[u8]) -> Option<(&str, u32)> {
    let subsection = first_subsection(bytes)?;
    match subsection.content() {
        Content::Exports(exports) => {
            let export = exports.iter().next()?;
            Some((export.name(), export.flags().bits()))
        }
        _ => None,
    }
}

/// Returns the module, the name and the flags of the first import of the first subsection.
fn import_of(bytes: &[u8]) -> Option<(&str, &str, u32)> {
    let subsection = first_subsection(bytes)?;
    match subsection.content() {
        Content::Imports(imports) => {
            let import = imports.iter().next()?;
            Some((import.source(), import.name(), import.flags().bits()))
        }
        _ => None,
    }
}

/// Reports whether this is a fact about a section with these bytes.
fn is_fact(fact: Fact, bytes: &[u8]) -> bool {
    match fact {
        Fact::SecondValue(place, name, version) => {
            second_value(bytes) == Some((place, name, version))
        }
        Fact::SecondField(name) => second_name(bytes) == Some(name),
        Fact::SecondSubsection(place) => second_place(bytes) == Some(place),
        Fact::Sizes(sizes) => sizes_of(bytes) == Some(sizes),
        Fact::SecondPath(path) => second_path(bytes) == path,
        Fact::Export(name, flags) => export_of(bytes) == Some((name, flags)),
        Fact::Import(source, name, flags) => import_of(bytes) == Some((source, name, flags)),
    }
}

/// A `producers` section: `language` with `Rust` and `C` "11"; `sdk` without values.
const PRODUCERS: &[u8] = b"\x02\x08language\x02\x04Rust\x00\x01C\x0211\x03sdk\x00";

/// A `dylink.0` section with sizes and no paths.
const SIZES: &[u8] = b"\x01\x04\x10\x02\x03\x00\x05\x01\x00";

/// Sections: the name of the row, the bytes, and a fact.
const FACTS: &[(&str, &[u8], Fact)] = &[
    ("a value", PRODUCERS, Fact::SecondValue(0x111, "C", "11")),
    ("a field", PRODUCERS, Fact::SecondField("sdk")),
    ("a subsection", SIZES, Fact::SecondSubsection(0x106)),
    ("sizes", SIZES, Fact::Sizes([16, 2, 3, 0])),
    (
        "libraries",
        b"\x02\x05\x02\x01a\x01b",
        Fact::SecondPath(Some("b")),
    ),
    ("one path", b"\x05\x03\x01\x01a", Fact::SecondPath(None)),
    (
        "an export",
        b"\x03\x04\x01\x01f\x21",
        Fact::Export("f", 0x21),
    ),
    (
        "an import",
        b"\x04\x07\x01\x01m\x01g\x88\x08",
        Fact::Import("m", "g", 0x408),
    ),
];

#[test]
fn contents_of_sections_are_read(rt: HostRuntime) {
    for (name, bytes, fact) in FACTS {
        assert!(rt; is_fact(*fact, bytes), "{name}");
    }
}

/// Reports whether flags have exactly these words, in this order, and these other bits.
fn are_flags(flags: SymbolFlags, wanted: &[&str], other_bits: u32) -> bool {
    let mut words = flags.words();
    for word in wanted {
        if words.next() != Some(*word) {
            return false;
        }
    }
    words.next() == None && flags.other_bits() == other_bits
}

/// The flags, each with its bit and its word (tool conventions, "Linking").
const FLAGS: &[(SymbolFlags, u32, &str)] = &[
    (SymbolFlags::BINDING_WEAK, 0x1, "binding-weak"),
    (SymbolFlags::BINDING_LOCAL, 0x2, "binding-local"),
    (SymbolFlags::VISIBILITY_HIDDEN, 0x4, "visibility-hidden"),
    (SymbolFlags::UNDEFINED, 0x10, "undefined"),
    (SymbolFlags::EXPORTED, 0x20, "exported"),
    (SymbolFlags::EXPLICIT_NAME, 0x40, "explicit-name"),
    (SymbolFlags::NO_STRIP, 0x80, "no-strip"),
    (SymbolFlags::TLS, 0x100, "tls"),
    (SymbolFlags::ABSOLUTE, 0x200, "absolute"),
];

#[test]
fn flags_have_bits_and_words(rt: HostRuntime) {
    for (flag, bit, word) in FLAGS {
        assert!(rt;
            flag.bits() == *bit && are_flags(*flag, &[*word], 0),
            "{word}"
        );
    }
}

#[test]
fn flags_have_words(rt: HostRuntime) {
    let flags = SymbolFlags::EXPORTED.union(SymbolFlags::BINDING_WEAK);
    assert!(rt; are_flags(flags, &["binding-weak", "exported"], 0));
    let odd = SymbolFlags::from_bits_retain(0xffff_fc0a);
    assert!(rt; are_flags(odd, &["binding-local"], 0xffff_fc08));
    assert!(rt; odd.contains(SymbolFlags::BINDING_LOCAL));
    let named = SymbolFlags::from_name("no-strip");
    assert!(rt; matches!(named, Some(flags) if flags.bits() == 0x80));
}

/// Returns the place of a hint, and whether the branch is likely taken.
fn place_and_direction(hint: Option<Hint>) -> Option<(u64, bool)> {
    let hint = hint?;
    Some((hint.place(), hint.is_taken()))
}

/// Offsets in a function, each with the expected hint: its place, and whether the branch is likely taken.
type Offsets = &'static [(u64, Option<(u64, bool)>)];

/// Reports whether a function has the expected hints at these offsets, which are asked for in this order.
fn are_hints(mut hints: FunctionHints, offsets: Offsets) -> bool {
    for (offset, hint) in offsets {
        if place_and_direction(hints.next_at(*offset)) != *hint {
            return false;
        }
    }
    true
}

/// The expected hints of functions, asked for in this order. The section has hints of function 1, at offsets 3 and
/// 7, and of function 4, at offset 2.
const HINTED: &[(u64, Offsets)] = &[
    (0, &[(3, None)]),
    (
        1,
        &[
            (7, None),
            (3, Some((0x53, true))),
            (3, None),
            (7, Some((0x56, false))),
            (7, None),
        ],
    ),
    (1, &[(3, None)]),
    (4, &[(2, Some((0x5b, true)))]),
];

/// Returns the number of the first row whose hints differ, or `None` if none differ.
fn first_other(hints: &mut Hints, rows: &[(u64, Offsets)]) -> Option<usize> {
    for (number, (function, offsets)) in rows.iter().enumerate() {
        if !are_hints(hints.next_function(*function), offsets) {
            return Some(number);
        }
    }
    None
}

#[test]
fn hints_are_taken_in_order(rt: HostRuntime) {
    assert!(rt; is_hint_section("metadata.code.branch_hint"));
    assert!(rt; !is_hint_section("metadata.code.branch_hints"));
    let bytes = b"\x02\x01\x02\x03\x01\x01\x07\x01\x00\x04\x01\x02\x01\x01";
    let other = first_other(&mut Hints::of_section(0x50, bytes), HINTED);
    assert!(rt; other == None, "row {other:?}");
    assert!(rt; are_hints(Hints::none().next_function(1), &[(3, None)]));
}

/// Hint sections with an error in or after the first hint, which is that of function 1 at offset 3. Each has the name
/// of its row.
const FAULTS: &[(&str, &[u8])] = &[
    ("an unknown direction", b"\x01\x01\x01\x03\x01\x02"),
    ("a hint of two bytes", b"\x01\x01\x01\x03\x02\x01"),
    ("a byte after the hints", b"\x01\x01\x01\x03\x01\x01\x00"),
    ("a missing function", b"\x02\x01\x01\x03\x01\x01"),
];

/// Reports whether the next operator of a function, at this offset, has no hint.
fn has_no_hint(hints: &mut Hints, function: u64, offset: u64) -> bool {
    hints.next_function(function).next_at(offset).is_none()
}

/// Returns a section with `count` hints of function 100,000, all at offset 0. `count_bytes` is the count, encoded
/// in LEB128.
fn many_hints(alloc: Global, count: usize, count_bytes: [u8; 3]) -> Result<Vec<u8>, AllocError> {
    let mut bytes = Vec::from_slice(alloc, &[0x01, 0xa0, 0x8d, 0x06])?;
    bytes.extend_from_slice(&count_bytes)?;
    bytes.extend_from_slice(&[0x00, 0x01, 0x01].repeat(alloc, count)?)?;
    Ok(bytes)
}

/// Reports whether no function before this one has a hint at offset 0.
fn have_no_hints_before(hints: &mut Hints, function: u64) -> bool {
    for number in 0..function {
        if !has_no_hint(hints, number, 0) {
            return false;
        }
    }
    true
}

// If the hints were read again for each of the earlier functions, this would take minutes.
#[test]
fn hints_are_read_once(rt: HostRuntime) -> Result<(), Fail> {
    let bytes = many_hints(rt.alloc(), 131_071, [0xff, 0xff, 0x07])?;
    let mut hints = Hints::of_section(0, &bytes);
    assert!(rt; have_no_hints_before(&mut hints, 100_000));
    let offsets: Offsets = &[(0, Some((7, true))), (0, Some((10, true)))];
    assert!(rt; are_hints(hints.next_function(100_000), offsets));
    Ok(())
}

/// Reports whether a section gives no hint to the operator of a function at this offset.
fn gives_no_hint(bytes: &[u8], function: u64, offset: u64) -> bool {
    has_no_hint(&mut Hints::of_section(0, bytes), function, offset)
}

#[test]
fn a_fault_gives_no_hints(rt: HostRuntime) -> Result<(), Fail> {
    for (name, bytes) in FAULTS {
        assert!(rt; gives_no_hint(bytes, 1, 3), "{name}");
    }
    let bytes = many_hints(rt.alloc(), 131_072, [0x80, 0x80, 0x08])?;
    assert!(rt; gives_no_hint(&bytes, 100_000, 0), "a hint too many");
    Ok(())
}
