//! Tests of custom sections: their names and bytes, errors in them, and the names of a module. All expected values
//! are typed by hand.

use crate::module::modules::{
    CODE, Compared, Expected, FUNCTIONS, TYPES, are_all, are_as, are_refused_at,
};
use std::alloc::{AllocError, Global};
use std::test::Fail;
use wasmprinter_custom::{Names, Space};
use wasmprinter_decoder::custom_sections::Custom;
use wasmprinter_decoder::{CustomEntry, Fields, Module};

/// A name section with the names `m` for the module and `a` for function 0.
const FIRST_NAMES: &[u8] = b"\x00\x0f\x04name\x00\x02\x01m\x01\x04\x01\x00\x01a";

/// A name section with the names `b` for function 0 and `a` for function 1.
const SECOND_NAMES: &[u8] = b"\x00\x0e\x04name\x01\x07\x02\x00\x01b\x01\x01a";

/// The data of the first name section, in a custom section named `names`.
const OTHER_NAMES: &[u8] = b"\x00\x10\x05names\x00\x02\x01m\x01\x04\x01\x00\x01a";

/// A name section without names.
const NO_NAMES: &[u8] = b"\x00\x05\x04name";

/// A name section whose only subsection, with function names, is truncated after the first name.
const CUT_NAMES: &[u8] = b"\x00\x0e\x04name\x01\x07\x02\x00\x01c\x01\x05d";

/// Returns the sections of a module with one function, and these at three places among them.
fn with_others([before, amid, after]: Places) -> [&'static [u8]; 6] {
    [before, TYPES, FUNCTIONS, amid, CODE, after]
}

/// No section.
const NONE: &[u8] = &[];

/// Sections at three places: before all others, among them, and after them.
type Places = [&'static [u8]; 3];

/// An expected fact about a custom section.
#[derive(Clone, Copy)]
enum Fact {
    /// It is a name section whose content is at this place.
    Names(u64),
    /// It has this name and this data, and is not a name section.
    Other(&'static str, &'static [u8]),
    /// It has this data at this place.
    Data(u64, &'static [u8]),
}

/// Custom sections: the name of the row, the sections at three places, and a fact about each custom section.
type Row = (&'static str, Places, &'static [Fact]);

const ROWS: &[Row] = &[
    ("no custom section", [NONE, NONE, NONE], &[]),
    (
        "names before all sections",
        [FIRST_NAMES, NONE, NONE],
        &[Fact::Names(0x0a)],
    ),
    (
        "names among sections",
        [NONE, FIRST_NAMES, NONE],
        &[Fact::Names(0x14)],
    ),
    (
        "names after all sections",
        [NONE, NONE, FIRST_NAMES],
        &[Fact::Names(0x1a)],
    ),
    (
        "names before and after all sections",
        [FIRST_NAMES, NONE, SECOND_NAMES],
        &[Fact::Names(0x0a), Fact::Names(0x2b)],
    ),
    (
        "names before and among sections",
        [FIRST_NAMES, SECOND_NAMES, NONE],
        &[Fact::Names(0x0a), Fact::Names(0x25)],
    ),
    (
        "no names, truncated ones, and names",
        [NO_NAMES, CUT_NAMES, FIRST_NAMES],
        &[Fact::Names(0x0a), Fact::Names(0x1b), Fact::Names(0x31)],
    ),
    (
        "three sections without names",
        [NO_NAMES, NO_NAMES, NO_NAMES],
        &[Fact::Names(0x0a), Fact::Names(0x1b), Fact::Names(0x28)],
    ),
    (
        "places of the bytes after the name",
        [NO_NAMES, FIRST_NAMES, NONE],
        &[
            Fact::Data(0x0f, b""),
            Fact::Data(0x20, b"\x00\x02\x01m\x01\x04\x01\x00\x01a"),
        ],
    ),
    (
        "places before the name",
        [NO_NAMES, FIRST_NAMES, NONE],
        &[Fact::Names(0x0a), Fact::Names(0x1b)],
    ),
    (
        "a longer name",
        [b"\x00\x06\x05names", NONE, b"\x00\x06\x05names"],
        &[Fact::Other("names", b""), Fact::Other("names", b"")],
    ),
    (
        "a shorter name",
        [b"\x00\x04\x03nam", NONE, b"\x00\x04\x03nam"],
        &[Fact::Other("nam", b""), Fact::Other("nam", b"")],
    ),
    (
        "an empty name",
        [b"\x00\x01\x00", NONE, b"\x00\x01\x00"],
        &[Fact::Other("", b""), Fact::Other("", b"")],
    ),
    (
        "a name with a capital letter",
        [b"\x00\x05\x04Name", NONE, b"\x00\x05\x04Name"],
        &[Fact::Other("Name", b""), Fact::Other("Name", b"")],
    ),
    (
        "a name outside ASCII",
        [
            b"\x00\x05\x02\xc3\xa9\xff\x00",
            NONE,
            b"\x00\x05\x02\xc3\xa9\xff\x00",
        ],
        &[Fact::Other("é", b"\xff\x00"), Fact::Other("é", b"\xff\x00")],
    ),
    (
        "producers",
        [
            b"\x00\x0b\x09producers\x00",
            NONE,
            b"\x00\x0b\x09producers\x00",
        ],
        &[
            Fact::Other("producers", b"\x00"),
            Fact::Other("producers", b"\x00"),
        ],
    ),
];

/// Reports whether a custom section has this data at this place, and a cursor over its data has the same place and
/// length.
fn holds(section: &Custom, place: u64, bytes: &[u8]) -> bool {
    let cursor = section.cursor();
    section.bytes_place() == place
        && section.bytes() == bytes
        && cursor.place() == place
        && cursor.len() == bytes.len()
}

/// The fact is about the custom section.
impl Compared<Fact> for CustomEntry<'_> {
    fn is(&self, fact: &Fact) -> bool {
        let section = &self.section;
        match *fact {
            Fact::Names(place) => {
                section.place() == place && section.name() == "name" && section.is_name_section()
            }
            Fact::Other(name, bytes) => {
                section.name() == name && section.bytes() == bytes && !section.is_name_section()
            }
            Fact::Data(place, bytes) => holds(section, place, bytes),
        }
    }
}

/// What is expected of the custom sections of a module.
#[derive(Clone, Copy)]
enum Customs {
    /// There is one custom section for each fact, about which it holds.
    Facts(&'static [Fact]),
    /// There are this many.
    Count(usize),
    /// They give these names to the module and to functions 0 and 1.
    Names(Option<&'static str>, Option<&'static str>, Option<&'static str>),
}

impl Expected for Customs {
    fn is_met(&self, alloc: Global, module: &Module) -> bool {
        match *self {
            Customs::Facts(facts) => are_all(module.customs(), facts),
            Customs::Count(count) => module.customs().len() == count,
            Customs::Names(of_module, first, second) => match module.names(alloc) {
                Ok(names) => are_given(&names, of_module, first, second),
                Err(_) => false,
            },
        }
    }
}

#[test]
fn custom_sections_have_names_places_and_data(rt: HostRuntime) -> Result<(), Fail> {
    for (name, sections, facts) in ROWS {
        let sections = with_others(*sections);
        let expected = Customs::Facts(*facts);
        assert!(rt; are_as(rt.alloc(), &sections, &expected)?, "{name}");
    }
    Ok(())
}

/// Custom sections that are refused before all other sections and after them: the name of the row, the section, and the
/// offset of the error from its first byte.
const REFUSED: &[(&str, &[u8], u64)] = &[
    ("no name", b"\x00\x00", 2),
    (
        "a name that exceeds the section by a byte",
        b"\x00\x04\x04nam",
        3,
    ),
    (
        "a name that exceeds the section by more",
        b"\x00\x04\x09pro",
        3,
    ),
    ("a name with the byte ff", b"\x00\x05\x04nam\xff", 2),
    ("a name with a truncated character", b"\x00\x03\x02\xc3n", 2),
    (
        "a length in six bytes",
        b"\x00\x0a\x84\x80\x80\x80\x80\x00name",
        6,
    ),
];

/// Reports whether a section is refused before all other sections and after them, at this offset from its first byte.
fn is_refused_at(alloc: Global, section: &[u8], offset: u64) -> Result<bool, AllocError> {
    let before = [section, TYPES, FUNCTIONS, CODE];
    let after = [TYPES, FUNCTIONS, CODE, section];
    Ok(
        are_refused_at(alloc, &before, offset.saturating_add(0x08))?
            && are_refused_at(alloc, &after, offset.saturating_add(0x18))?,
    )
}

#[test]
fn custom_sections_without_a_whole_name_are_refused(rt: HostRuntime) -> Result<(), Fail> {
    for (name, section, offset) in REFUSED {
        assert!(rt; is_refused_at(rt.alloc(), section, *offset)?, "{name}");
    }
    Ok(())
}

/// Name sections: the name of the row, the sections at three places, and the names that they give to the module and to
/// functions 0 and 1.
type Named = (
    &'static str,
    Places,
    Option<&'static str>,
    Option<&'static str>,
    Option<&'static str>,
);

const NAMED: &[Named] = &[
    ("no section", [NONE, NONE, NONE], None, None, None),
    (
        "sections without names",
        [NO_NAMES, NONE, NO_NAMES],
        None,
        None,
        None,
    ),
    (
        "a section with another name",
        [OTHER_NAMES, NONE, NONE],
        None,
        None,
        None,
    ),
    (
        "one section",
        [FIRST_NAMES, NONE, NONE],
        Some("m"),
        Some("a"),
        None,
    ),
    (
        "another section",
        [NONE, NONE, SECOND_NAMES],
        None,
        Some("b"),
        Some("a"),
    ),
    // A name that was given before is replaced, and the last name of a function counts
    (
        "two sections",
        [FIRST_NAMES, NONE, SECOND_NAMES],
        Some("m"),
        Some("b"),
        Some("#func1 a"),
    ),
    (
        "two sections the other way round",
        [SECOND_NAMES, FIRST_NAMES, NONE],
        Some("m"),
        Some("#func0 a"),
        Some("a"),
    ),
    (
        "a section after one with an error",
        [CUT_NAMES, NO_NAMES, FIRST_NAMES],
        Some("m"),
        Some("a"),
        None,
    ),
];

/// Reports whether the module and functions 0 and 1 have these names.
fn are_given(
    names: &Names,
    of_module: Option<&str>,
    first: Option<&str>,
    second: Option<&str>,
) -> bool {
    names.module() == of_module
        && names.identifier(Space::Func, 0, 0) == first
        && names.identifier(Space::Func, 0, 1) == second
}

#[test]
fn all_name_sections_give_names(rt: HostRuntime) -> Result<(), Fail> {
    for (name, sections, of_module, first, second) in NAMED {
        let sections = with_others(*sections);
        let expected = Customs::Names(*of_module, *first, *second);
        assert!(rt; are_as(rt.alloc(), &sections, &expected)?, "{name}");
    }
    Ok(())
}

#[test]
fn custom_sections_may_be_adjacent(rt: HostRuntime) -> Result<(), Fail> {
    let twice = [FIRST_NAMES, FIRST_NAMES];
    assert!(rt; are_as(rt.alloc(), &twice, &Customs::Count(2))?);
    let note: &[u8] = b"\x00\x02\x01n";
    assert!(rt; are_as(rt.alloc(), &[note; 300], &Customs::Count(300))?);
    Ok(())
}
