//! Tests of the names of a few name sections. The bytes and the expected identifiers are typed by hand.

use std::alloc::{AllocError, Global};
use std::test::Fail;
use wasmprinter_bytes::Error;
use wasmprinter_bytes::cursor::Cursor;
use wasmprinter_custom::{
    Identifier, Identifiers, LabelName, Name, NameEntries, Names, NamesBuilder, Space, read_names,
};

/// Reads the names of these sections in order.
fn read_sections<'a>(
    alloc: Global,
    builder: &mut NamesBuilder<'a>,
    sections: &[&'a [u8]],
) -> Result<(), Error> {
    for section in sections {
        read_names(alloc, builder, Cursor::new(0, *section))?;
    }
    Ok(())
}

/// Returns the names that these sections give.
fn names_of<'a>(alloc: Global, sections: &[&'a [u8]]) -> Result<Names<'a>, Error> {
    let mut builder = NamesBuilder::new(alloc);
    read_sections(alloc, &mut builder, sections)?;
    Ok(builder.finish(alloc)?)
}

/// An item by its space, its function or type, and its index, with its identifier.
type Item = (Space, u32, u32, Option<&'static str>);

/// Returns the number of the first of these items whose identifier differs, or `None` if none differs.
fn first_other(names: &Names<'_>, items: &[Item]) -> Option<usize> {
    for (number, (space, outer, index, identifier)) in items.iter().enumerate() {
        if names.identifier(*space, *outer, *index) != *identifier {
            return Some(number);
        }
    }
    None
}

/// Checks that, by the names of these sections, the module and the items have these identifiers.
///
/// # Errors
///
/// - An identifier differs. The error is the name of the row with the number of the item.
fn expect_names(
    name: &'static str,
    alloc: Global,
    sections: &[&[u8]],
    module: Option<&str>,
    items: &[Item],
) -> Result<(), Fail> {
    let names = names_of(alloc, sections)?;
    if names.module() != module {
        return Err((name, "the module has another name"))?;
    }
    match first_other(&names, items) {
        None => Ok(()),
        Some(number) => Err((name, number))?,
    }
}

/// The identifiers of functions with the names 0 `b`, 1 `a`, 2 the empty name, 3 `#x` and 4 `a`. `a` was first the
/// name of function 0.
const MARKED: &[Item] = &[
    (Space::Func, 0, 0, Some("b")),
    (Space::Func, 0, 1, Some("#func1 a")),
    (Space::Func, 0, 2, Some("#func2 ")),
    (Space::Func, 0, 3, Some("#func3 #x")),
    (Space::Func, 0, 4, Some("#func4 a")),
    (Space::Func, 0, 5, None),
    // Functions belong to no outer item, so its index is ignored
    (Space::Func, 7, 0, Some("b")),
    (Space::Table, 0, 0, None),
];

/// Local 0 of function 0, which is `x`, and function 0, which has no name.
const LOCAL: &[Item] = &[(Space::Local, 0, 0, Some("x")), (Space::Func, 0, 0, None)];

/// The names before an error, and those of the section after it.
const AROUND_A_FAULT: &[Item] = &[
    (Space::Local, 1, 0, Some("x")),
    (Space::Local, 0, 0, None),
    (Space::Local, 1, 1, None),
    (Space::Func, 0, 0, Some("f")),
    (Space::Func, 0, 1, Some("#func1 f")),
];

/// Labels 0 and 1 of function 0, which are both `a`, and label 2, whose name is empty.
const LABELS: &[Item] = &[
    (Space::Label, 0, 0, Some("a")),
    (Space::Label, 0, 1, Some("a")),
    (Space::Label, 0, 2, Some("#label2 ")),
];

/// Functions 0 `a`, 1 `b` and 2 `c`, locals of function 0: 0 `x`, 1 `y`; of function 1: 0 `z`.
const WITHOUT_GAPS: &[Item] = &[
    (Space::Func, 0, 0, Some("a")),
    (Space::Func, 0, 1, Some("b")),
    (Space::Func, 0, 2, Some("c")),
    (Space::Func, 0, 3, None),
    (Space::Local, 0, 0, Some("x")),
    (Space::Local, 0, 1, Some("y")),
    (Space::Local, 0, 2, None),
    (Space::Local, 1, 0, Some("z")),
    (Space::Local, 1, 1, None),
    (Space::Local, 2, 0, None),
    // No item has a name in the spaces before that of functions and after that of locals
    (Space::Label, 0, 0, None),
    (Space::Label, 1, 0, None),
    (Space::Tag, 0, 0, None),
];

/// Functions 2 `a`, 3 `b`, 7 `c` and 9 `d`.
const GAPS_BETWEEN_INDICES: &[Item] = &[
    (Space::Func, 0, 0, None),
    (Space::Func, 0, 1, None),
    (Space::Func, 0, 2, Some("a")),
    (Space::Func, 0, 3, Some("b")),
    (Space::Func, 0, 4, None),
    (Space::Func, 0, 6, None),
    (Space::Func, 0, 7, Some("c")),
    (Space::Func, 0, 8, None),
    (Space::Func, 0, 9, Some("d")),
    (Space::Func, 0, 10, None),
    (Space::Func, 0, 4_294_967_295, None),
];

/// Locals of function 2: 0 `x`, 1 `w`; of function 5: 0 `y`, 1 `z`.
const GAPS_BETWEEN_FUNCTIONS: &[Item] = &[
    (Space::Local, 0, 0, None),
    (Space::Local, 1, 7, None),
    (Space::Local, 2, 0, Some("x")),
    (Space::Local, 2, 1, Some("w")),
    (Space::Local, 2, 2, None),
    (Space::Local, 3, 0, None),
    (Space::Local, 4, 1, None),
    (Space::Local, 5, 0, Some("y")),
    (Space::Local, 5, 1, Some("z")),
    (Space::Local, 5, 2, None),
    (Space::Local, 6, 0, None),
];

/// Locals of function 4294967295: 0 `x`.
const FAR_BEHIND: &[Item] = &[
    (Space::Local, 0, 0, None),
    (Space::Local, 4_294_967_294, 0, None),
    (Space::Local, 4_294_967_295, 0, Some("x")),
    (Space::Local, 4_294_967_295, 1, None),
];

/// Locals of function 0: 0 `x`; of function 4294967295: 0 `y`.
const FIRST_AND_FAR_BEHIND: &[Item] = &[
    (Space::Local, 0, 0, Some("x")),
    (Space::Local, 0, 1, None),
    (Space::Local, 1, 0, None),
    (Space::Local, 4_294_967_294, 0, None),
    (Space::Local, 4_294_967_295, 0, Some("y")),
    (Space::Local, 4_294_967_295, 1, None),
];

/// Globals 0 `g` and 1 `h`; locals of function 0: 0 `x`; of function 1: 0 `y`, 1 `z`; functions 0 `a`, 1 `b`, 2 `c`
/// and 3 `d`.
const FROM_THE_LAST: &[Item] = &[
    (Space::Global, 0, 0, Some("g")),
    (Space::Global, 0, 1, Some("h")),
    (Space::Global, 0, 2, None),
    (Space::Local, 0, 0, Some("x")),
    (Space::Local, 0, 1, None),
    (Space::Local, 1, 0, Some("y")),
    (Space::Local, 1, 1, Some("z")),
    (Space::Local, 2, 0, None),
    (Space::Func, 0, 0, Some("a")),
    (Space::Func, 0, 1, Some("b")),
    (Space::Func, 0, 2, Some("c")),
    (Space::Func, 0, 3, Some("d")),
    (Space::Func, 0, 4, None),
    // No item has a name in the spaces between those of locals and of globals
    (Space::Types, 0, 0, None),
    (Space::Types, 0, 1, None),
];

/// Sections with names: the name of the row, the contents of the sections, the name of the module, and items with their
/// identifiers.
type Row = (
    &'static str,
    &'static [&'static [u8]],
    Option<&'static str>,
    &'static [Item],
);

/// Functions: 0 `a`, 1 `a`, 2 the empty name, 3 `#x`, 0 again, now `b`, 4 `a`; a byte is left over.
const REPEATED: &[u8] = b"\x01\x14\x06\x00\x01a\x01\x01a\x02\x00\x03\x02#x\x00\x01b\x04\x01a\x07";

/// Labels 0 `a`, 1 `a` and 2 the empty name of function 0; then a module with the name `m`, twice.
const LABELS_AND_MODULE: &[&[u8]] = &[
    b"\x03\x0b\x01\x00\x03\x00\x01a\x01\x01a\x02\x00",
    b"\x00\x02\x01m\x00\x02\x01m",
];

const ROWS: &[Row] = &[
    (
        "names that were given before are marked",
        &[REPEATED],
        None,
        MARKED,
    ),
    ("a local", &[b"\x02\x06\x01\x00\x01\x00\x01x"], None, LOCAL),
    (
        "reading stops at the first fault",
        &[
            // The module is `m`; an unknown subsection; locals of function 1: 0 `x`, then a truncated name; functions
            // that are not read
            b"\x00\x02\x01m\x0c\x01\xff\x02\x09\x01\x01\x02\x00\x01x\x01\x05y\x01\x04\x01\x00\x01z",
            // Functions 0 `f`, 1 `f`
            b"\x01\x07\x02\x00\x01f\x01\x01f",
        ],
        Some("m"),
        AROUND_A_FAULT,
    ),
    (
        "names of labels and the module never count",
        LABELS_AND_MODULE,
        Some("m"),
        LABELS,
    ),
    (
        "no gaps",
        &[
            b"\x01\x0a\x03\x00\x01a\x01\x01b\x02\x01c",
            b"\x02\x0e\x02\x00\x02\x00\x01x\x01\x01y\x01\x01\x00\x01z",
        ],
        None,
        WITHOUT_GAPS,
    ),
    (
        "gaps between indices",
        &[b"\x01\x0d\x04\x02\x01a\x03\x01b\x07\x01c\x09\x01d"],
        None,
        GAPS_BETWEEN_INDICES,
    ),
    (
        "gaps between functions",
        &[b"\x02\x11\x02\x02\x02\x00\x01x\x01\x01w\x05\x02\x00\x01y\x01\x01z"],
        None,
        GAPS_BETWEEN_FUNCTIONS,
    ),
    (
        "a function far after none",
        &[b"\x02\x0a\x01\xff\xff\xff\xff\x0f\x01\x00\x01x"],
        None,
        FAR_BEHIND,
    ),
    (
        "a function far after another",
        &[b"\x02\x0f\x02\x00\x01\x00\x01x\xff\xff\xff\xff\x0f\x01\x00\x01y"],
        None,
        FIRST_AND_FAR_BEHIND,
    ),
    (
        "names from the last to the first",
        &[
            b"\x07\x07\x02\x01\x01h\x00\x01g",
            b"\x02\x0e\x02\x01\x02\x01\x01z\x00\x01y\x00\x01\x00\x01x",
            b"\x01\x0d\x04\x03\x01d\x02\x01c\x01\x01b\x00\x01a",
        ],
        None,
        FROM_THE_LAST,
    ),
];

#[test]
fn items_have_identifiers(rt: HostRuntime) -> Result<(), Fail> {
    for (name, sections, module, items) in ROWS {
        expect_names(*name, rt.alloc(), sections, *module, items)?;
    }
    Ok(())
}

/// Names: the name of the row, the contents of the sections, the index of a function or `None` for the module, and its
/// name.
type NameRow = (
    &'static str,
    &'static [&'static [u8]],
    Option<u64>,
    Option<Name<'static>>,
);

const NAMES: &[NameRow] = &[
    (
        "a name that was given before",
        &[REPEATED],
        Some(1),
        Some(Name {
            given: "a",
            content: "#func1 a",
        }),
    ),
    (
        "a truncated name",
        &[b"\x01\x04\x01\x00\x05a"],
        Some(0),
        None,
    ),
    (
        "a module that is named twice",
        LABELS_AND_MODULE,
        None,
        Some(Name {
            given: "m",
            content: "m",
        }),
    ),
    (
        "a module with an empty name",
        &[b"\x00\x01\x00"],
        None,
        Some(Name {
            given: "",
            content: "#module0 ",
        }),
    ),
];

/// Reports whether a function, or the module for `None`, has this name, by the names of these sections.
fn has_name(
    alloc: Global,
    sections: &[&[u8]],
    function: Option<u64>,
    wanted: Option<Name>,
) -> Result<bool, Error> {
    let names = names_of(alloc, sections)?;
    Ok(match function {
        Some(index) => names.name(Space::Func, 0, index) == wanted,
        None => names.module_name() == wanted,
    })
}

#[test]
fn names_have_contents(rt: HostRuntime) -> Result<(), Fail> {
    for (name, sections, function, wanted) in NAMES {
        assert!(rt;
            has_name(rt.alloc(), sections, *function, *wanted)?,
            "{name}"
        );
    }
    Ok(())
}

/// Spaces, the ids of their subsections, and the identifier of item 1 if items 0 and 1 both have the name `a`.
const SPACES: &[(Space, u8, &str)] = &[
    (Space::Func, 1, "#func1 a"),
    (Space::Local, 2, "#local1 a"),
    (Space::Types, 4, "#type1 a"),
    (Space::Table, 5, "#table1 a"),
    (Space::Memory, 6, "#memory1 a"),
    (Space::Global, 7, "#global1 a"),
    (Space::Elem, 8, "#elem1 a"),
    (Space::Data, 9, "#data1 a"),
    (Space::Field, 10, "#field1 a"),
    (Space::Tag, 11, "#tag1 a"),
];

/// Reports whether items 0 and 1 have these identifiers in function or type 5 and, if `is_indirect`, item 0 has
/// none in another.
fn are_counted(names: &Names, space: Space, second: &str, is_indirect: bool) -> bool {
    names.identifier(space, 5, 0) == Some("a")
        && names.identifier(space, 5, 1) == Some(second)
        && names.identifier(space, 4, 0).is_none() == is_indirect
}

/// Reports whether items 0 and 1 of one function or type, both with the name `a`, have the expected identifiers in
/// this space.
fn count_in(alloc: Global, space: Space, id: u8, second: &str) -> Result<bool, Error> {
    let direct = [id, 7, 2, 0, 1, b'a', 1, 1, b'a'];
    let indirect = [id, 9, 1, 5, 2, 0, 1, b'a', 1, 1, b'a'];
    let is_indirect = matches!(space, Space::Local | Space::Field);
    let bytes: &[u8] = if is_indirect { &indirect } else { &direct };
    let names = names_of(alloc, &[bytes])?;
    Ok(are_counted(&names, space, second, is_indirect))
}

#[test]
fn names_count_in_their_space(rt: HostRuntime) -> Result<(), Fail> {
    for (space, id, second) in SPACES {
        assert!(rt;
            count_in(rt.alloc(), *space, *id, second)?,
            "subsection {id}"
        );
    }
    Ok(())
}

/// The identifier of an item with the name `f`.
const NAMED: Identifier<'static> = Identifier::Given(Name {
    given: "f",
    content: "f",
});

/// The identifier that is synthesized for a local whose index exceeds 32 bits.
const FAR: Identifier<'static> = Identifier::Synthesized {
    space: Space::Local,
    number: 5_000_000_000,
};

/// The identifier of a module with the name `m`.
const MODULE: Identifier<'static> = Identifier::Given(Name {
    given: "m",
    content: "m",
});

/// The content of a name section: the module is `m`, function 0 is `f`.
const MODULE_AND_FUNCTION: &[u8] = b"\x00\x02\x01m\x01\x04\x01\x00\x01f";

/// Identifiers: the name of the row, the contents of name sections, whether identifiers are synthesized, an item by its
/// space, its function or type, and its index, or `None` for the module, and its identifier.
type Identified = (
    &'static str,
    &'static [&'static [u8]],
    bool,
    Option<(Space, u64, u64)>,
    Option<Identifier<'static>>,
);

const IDENTIFIED: &[Identified] = &[
    (
        "a function with a name",
        &[MODULE_AND_FUNCTION],
        false,
        Some((Space::Func, 0, 0)),
        Some(NAMED),
    ),
    (
        "a function without a name",
        &[MODULE_AND_FUNCTION],
        false,
        Some((Space::Func, 0, 1)),
        None,
    ),
    (
        "a name comes before a synthesized identifier",
        &[MODULE_AND_FUNCTION],
        true,
        Some((Space::Func, 0, 0)),
        Some(NAMED),
    ),
    (
        "a local whose index exceeds 32 bits",
        &[MODULE_AND_FUNCTION],
        true,
        Some((Space::Local, 3, 5_000_000_000)),
        Some(FAR),
    ),
    (
        "a module with a name",
        &[MODULE_AND_FUNCTION],
        false,
        None,
        Some(MODULE),
    ),
    (
        "no identifier is synthesized for a module",
        &[],
        true,
        None,
        None,
    ),
];

/// Reports whether an item, or the module for `None`, has this identifier.
fn has_identifier(
    names: &Names,
    synthesizes: bool,
    item: Option<(Space, u64, u64)>,
    wanted: Option<Identifier>,
) -> bool {
    let identifiers = Identifiers { names, synthesizes };
    match item {
        Some((space, outer, index)) => identifiers.item(space, outer, index) == wanted,
        None => identifiers.module() == wanted,
    }
}

/// Reports whether, by the names of the row's sections, its item has its identifier.
fn is_identified(alloc: Global, row: &Identified) -> Result<bool, Error> {
    let (_, sections, synthesizes, item, wanted) = row;
    let names = names_of(alloc, sections)?;
    Ok(has_identifier(&names, *synthesizes, *item, *wanted))
}

#[test]
fn identifiers_are_given_or_synthesized(rt: HostRuntime) -> Result<(), Fail> {
    for row in IDENTIFIED {
        assert!(rt; is_identified(rt.alloc(), row)?, "{}", row.0);
    }
    Ok(())
}

#[test]
fn spaces_have_words(rt: HostRuntime) {
    assert!(rt; Space::Types.word() == "type");
    assert!(rt; Space::Data.word() == "data");
}

/// A label: its function, its number and its name.
type Label = (u64, u64, &'static str);

/// Reports whether the item was given this name, and this follows the dollar sign of its identifier.
fn is_named(name: Option<Name<'_>>, given: &str, content: &str) -> bool {
    matches!(name, Some(name) if name.given == given && name.content == content)
}

/// Reports whether these are the labels, each with its name as its identifier.
fn are_labels(labels: &[LabelName], wanted: &[Label]) -> bool {
    for (label, (function, number, name)) in labels.iter().zip(wanted) {
        if label.function != *function
            || label.number != *number
            || !is_named(Some(label.name), name, name)
        {
            return false;
        }
    }
    labels.len() == wanted.len()
}

/// Reports whether these are the labels with names.
fn lists(alloc: Global, names: &Names, wanted: &[Label]) -> Result<bool, AllocError> {
    let labels = names.labels(alloc)?;
    Ok(are_labels(&labels, wanted))
}

/// The labels of functions 0 and 2, sorted by function and number.
const LISTED: &[Label] = &[(0, 7, "c"), (2, 0, "a"), (2, 1, "b")];

#[test]
fn labels_are_listed_by_function_and_number(rt: HostRuntime) -> Result<(), Fail> {
    // Labels of function 2: 1 `b`, 0 `a`; of function 0: 7 `c`; a local and a function have names too
    let labels = b"\x03\x0e\x02\x02\x02\x01\x01b\x00\x01a\x00\x01\x07\x01c";
    let others = b"\x02\x06\x01\x00\x01\x00\x01x\x01\x04\x01\x00\x01f";
    let names = names_of(rt.alloc(), &[labels, others])?;
    assert!(rt; lists(rt.alloc(), &names, LISTED)?);
    Ok(())
}

/// Returns a number of at most 14 bits, encoded in two bytes.
fn two_bytes(n: u16) -> [u8; 2] {
    let [low, high] = n.wrapping_mul(2).to_le_bytes();
    [low >> 1 | 0x80, high]
}

/// Returns a name map in which the first `count` items have the name `a`.
fn map_of(alloc: Global, count: u16) -> Result<Vec<u8>, Error> {
    let mut map = Vec::from_slice(alloc, &two_bytes(count))?;
    for index in 0..count {
        let [low, high] = two_bytes(index);
        map.extend_from_slice(&[low, high, 0x01, b'a'])?;
    }
    Ok(map)
}

/// Returns an indirect name map with this name map for each of the functions or types 0 to 39.
fn maps_of(alloc: Global, map: &[u8]) -> Result<Vec<u8>, Error> {
    let mut maps = Vec::from_slice(alloc, &[40])?;
    for outer in 0..40 {
        maps.push(outer)?;
        maps.extend_from_slice(map)?;
    }
    Ok(maps)
}

/// Returns a subsection with this content.
fn subsection_of(alloc: Global, id: u8, content: &[u8]) -> Result<Vec<u8>, Error> {
    let mut subsection = Vec::from_slice(alloc, &[id])?;
    subsection.extend_from_slice(&two_bytes((content.len() & 0x3fff) as u16))?;
    subsection.extend_from_slice(content)?;
    Ok(subsection)
}

/// The name of the row, a space, the id of its subsection, and the identifier of the last item.
type Last = (&'static str, Space, u8, &'static str);

/// The spaces whose items belong to no function or type. 300 items have the name `a`.
const LAST_OF_300: &[Last] = &[
    ("300 functions", Space::Func, 1, "#func299 a"),
    ("300 types", Space::Types, 4, "#type299 a"),
    ("300 tables", Space::Table, 5, "#table299 a"),
    ("300 memories", Space::Memory, 6, "#memory299 a"),
    ("300 globals", Space::Global, 7, "#global299 a"),
    ("300 element segments", Space::Elem, 8, "#elem299 a"),
    ("300 data segments", Space::Data, 9, "#data299 a"),
    ("300 tags", Space::Tag, 11, "#tag299 a"),
];

/// The spaces whose items belong to a function or type. 20 items of each have the name `a`. Labels may share a
/// name.
const LAST_OF_20: &[Last] = &[
    ("20 locals of each function", Space::Local, 2, "#local19 a"),
    ("20 labels of each function", Space::Label, 3, "a"),
    ("20 fields of each type", Space::Field, 10, "#field19 a"),
];

/// Checks the identifiers of these items by the names of a subsection with this id and content.
fn expect_subsection(
    name: &'static str,
    alloc: Global,
    id: u8,
    content: &[u8],
    items: &[Item],
) -> Result<(), Fail> {
    let section = subsection_of(alloc, id, content)?;
    expect_names(name, alloc, &[&section], None, items)
}

/// Checks the first and the last of 300 items with the name `a`, in spaces whose items belong to no function or type.
fn expect_300(alloc: Global, map: &[u8], rows: &[Last]) -> Result<(), Fail> {
    for (name, space, id, last) in rows {
        let items = [
            (*space, 0, 0, Some("a")),
            (*space, 0, 299, Some(*last)),
            (*space, 0, 300, None),
        ];
        expect_subsection(*name, alloc, *id, map, &items)?;
    }
    Ok(())
}

/// Checks the first and the last of 20 items with the name `a` in the first and the last of 40 functions or types, in
/// other spaces.
fn expect_40_times_20(alloc: Global, maps: &[u8], rows: &[Last]) -> Result<(), Fail> {
    for (name, space, id, last) in rows {
        let items = [
            (*space, 0, 0, Some("a")),
            (*space, 0, 19, Some(*last)),
            (*space, 0, 20, None),
            (*space, 39, 0, Some("a")),
            (*space, 39, 19, Some(*last)),
            (*space, 40, 0, None),
        ];
        expect_subsection(*name, alloc, *id, maps, &items)?;
    }
    Ok(())
}

#[test]
fn many_names_are_kept(rt: HostRuntime) -> Result<(), Fail> {
    let map = map_of(rt.alloc(), 300)?;
    expect_300(rt.alloc(), &map, LAST_OF_300)?;
    let maps = maps_of(rt.alloc(), &map_of(rt.alloc(), 20)?)?;
    expect_40_times_20(rt.alloc(), &maps, LAST_OF_20)
}
