//! Tests of names: those of a module with a name in each space, and the words of the spaces.

use std::test::Fail;
use wasmprinter::wasm::{Names, Space, decode};
use wasmprinter_samples::PREAMBLE;

/// A module with a name section that has one name in each subsection. The named items need not exist.
const NAMED: &[u8] = &[
    0x00, 0x61, 0x73, 0x6d, 0x01, 0x00, 0x00, 0x00, // preamble
    0x00, 0x51, 0x04, 0x6e, 0x61, 0x6d, 0x65, // a custom section `name`
    0x00, 0x02, 0x01, 0x6d, // the module
    0x01, 0x04, 0x01, 0x00, 0x01, 0x66, // a function
    0x02, 0x06, 0x01, 0x01, 0x01, 0x00, 0x01, 0x78, // a local of function 1
    0x03, 0x06, 0x01, 0x02, 0x01, 0x00, 0x01, 0x6c, // a label of function 2
    0x04, 0x04, 0x01, 0x03, 0x01, 0x74, // a type
    0x05, 0x04, 0x01, 0x04, 0x01, 0x61, // a table
    0x06, 0x04, 0x01, 0x05, 0x01, 0x6e, // a memory
    0x07, 0x04, 0x01, 0x06, 0x01, 0x67, // a global
    0x08, 0x04, 0x01, 0x07, 0x01, 0x65, // an element segment
    0x09, 0x04, 0x01, 0x08, 0x01, 0x64, // a data segment
    0x0a, 0x06, 0x01, 0x09, 0x01, 0x00, 0x01, 0x69, // a field of type 9
    0x0b, 0x04, 0x01, 0x0a, 0x01, 0x6b, // a tag
];

/// A space, its word, and the item that `NAMED` names in it: the function or type to which it belongs, its index
/// and its identifier.
type Row = (Space, &'static str, u32, u32, &'static str);

/// The names of `NAMED`.
const ROWS: &[Row] = &[
    (Space::Func, "func", 0, 0, "f"),
    (Space::Local, "local", 1, 0, "x"),
    (Space::Label, "label", 2, 0, "l"),
    (Space::Types, "type", 0, 3, "t"),
    (Space::Table, "table", 0, 4, "a"),
    (Space::Memory, "memory", 0, 5, "n"),
    (Space::Global, "global", 0, 6, "g"),
    (Space::Elem, "elem", 0, 7, "e"),
    (Space::Data, "data", 0, 8, "d"),
    (Space::Field, "field", 9, 0, "i"),
    (Space::Tag, "tag", 0, 10, "k"),
];

/// Returns the word of the first row whose item has another identifier, whose space has an item 11 with a name, or
/// whose space has another word. Returns `None` if there is no such row.
fn first_other(names: &Names<'_>, rows: &[Row]) -> Option<&'static str> {
    for (space, word, outer, index, identifier) in rows {
        let is_named = names.identifier(*space, *outer, *index) == Some(*identifier);
        let is_alone = names.identifier(*space, *outer, 11) == None;
        if !is_named || !is_alone || space.word() != *word {
            return Some(*word);
        }
    }
    None
}

#[test]
fn gives_names_and_words_of_each_space(rt: HostRuntime) -> Result<(), Fail> {
    let module = decode(rt.alloc(), NAMED)?;
    let names = module.names(rt.alloc())?;
    assert!(rt; names.module() == Some("m"));
    let other = first_other(&names, ROWS);
    assert!(rt; other == None, "{other:?}");
    Ok(())
}

#[test]
fn gives_no_names_where_there_are_none(rt: HostRuntime) -> Result<(), Fail> {
    let module = decode(rt.alloc(), PREAMBLE)?;
    let names = module.names(rt.alloc())?;
    assert!(rt; names.module() == None && names.identifier(Space::Func, 0, 0) == None);
    Ok(())
}
