//! Operators and their lines. Expected values are typed by hand.

use crate::setters::{Setter, config_of};
use std::alloc::Global;
use std::test::Fail;
use wasmprinter::wasm::decode;
use wasmprinter::{Config, Error, place_of};
use wasmprinter_samples::{IDENTITY, MINUS_ONE};

/// A function with a branch hint for its `if`.
const HINTED: &[u8] = &[
    0x00, 0x61, 0x73, 0x6d, 0x01, 0x00, 0x00, 0x00, // preamble
    0x01, 0x05, 0x01, 0x60, 0x01, 0x7f, 0x00, // types
    0x03, 0x02, 0x01, 0x00, // functions
    0x00, 0x20, 0x19, 0x6d, 0x65, 0x74, 0x61, 0x64, 0x61, 0x74, 0x61, 0x2e, 0x63, 0x6f, 0x64, 0x65,
    0x2e, 0x62, 0x72, 0x61, 0x6e, 0x63, 0x68, 0x5f, 0x68, 0x69, 0x6e, 0x74, // the name
    0x01, 0x00, 0x01, 0x03, 0x01, 0x01, // the hint
    0x0a, 0x09, 0x01, 0x07, 0x00, 0x20, 0x00, 0x04, 0x40, 0x0b, 0x0b, // code
    0x00, 0x02, 0x01, 0x61, // a custom section
];

/// A function and an operator by their numbers, and what is found for the operator: the number of its line, and
/// its place.
type Case = (u32, u32, Option<(usize, u64)>);

/// Reports whether exactly these are the places of the operators of a module's first function, in order.
fn has_places(alloc: Global, wasm: &[u8], places: &[u64]) -> Result<bool, Error> {
    let module = decode(alloc, wasm)?;
    Ok(match module.body(0) {
        Some(body) => body
            .operators()
            .map(|(place, _)| place)
            .eq(places.iter().copied()),
        None => false,
    })
}

#[test]
fn walks_over_the_places_of_operators(rt: HostRuntime) -> Result<(), Fail> {
    assert!(rt; has_places(rt.alloc(), MINUS_ONE, &[0x1a, 0x1c, 0x1e])?);
    Ok(())
}

/// A module with options: the name of the row, the setters that are called, the module, and its cases.
type Row = (
    &'static str,
    &'static [Setter],
    &'static [u8],
    &'static [Case],
);

/// Modules with operators, and a skeleton, in which no operator is found.
const ROWS: &[Row] = &[
    (
        "one operator",
        &[],
        IDENTITY,
        &[(0, 0, Some((4, 0x20))), (0, 1, None), (1, 0, None)],
    ),
    (
        "three operators",
        &[],
        MINUS_ONE,
        &[
            (0, 0, Some((4, 0x1a))),
            (0, 1, Some((5, 0x1c))),
            (0, 2, Some((6, 0x1e))),
            (0, 3, None),
            (u32::MAX, u32::MAX, None),
        ],
    ),
    (
        "a branch hint",
        &[],
        HINTED,
        &[
            (0, 0, Some((3, 0x3a))),
            (0, 1, Some((5, 0x3c))),
            (0, 2, Some((6, 0x3e))),
            (0, 3, None),
        ],
    ),
    (
        "a skeleton",
        &[Setter::Skeleton(true)],
        IDENTITY,
        &[(0, 0, None)],
    ),
];

/// Reports whether the expected lines and places are found in all lines of a module.
fn are_found(alloc: Global, config: &Config, wasm: &[u8], cases: &[Case]) -> Result<bool, Error> {
    let module = decode(alloc, wasm)?;
    let mut storage = String::new(alloc);
    let all = config.offsets_and_lines(alloc, wasm, &mut storage)?;
    let lines: Vec<(Option<u64>, &str)> = all.collect(alloc)?;
    Ok(
        cases.iter().all(|(function, operator, found)| {
            place_of(&module, &lines, *function, *operator) == *found
        }),
    )
}

/// Checks the cases of each row.
///
/// # Errors
///
/// - A module is refused, or another line or place is found for a case.
fn expect_rows(alloc: Global, rows: &[Row]) -> Result<(), Fail> {
    for (name, setters, wasm, cases) in rows {
        let config = config_of(alloc, setters)?;
        match are_found(alloc, &config, wasm, cases) {
            Ok(true) => (),
            Ok(false) => return Err((*name, "another line or place"))?,
            Err(error) => return Err((*name, error))?,
        }
    }
    Ok(())
}

#[test]
fn finds_operators_in_all_lines(rt: HostRuntime) -> Result<(), Fail> {
    expect_rows(rt.alloc(), ROWS)
}

#[test]
fn finds_the_first_of_any_lines(rt: HostRuntime) -> Result<(), Fail> {
    let module = decode(rt.alloc(), IDENTITY)?;
    assert!(rt; place_of(&module, &[], 0, 0) == None);
    let none = [(None, "local.get 0\n"), (Some(0x1f), ""), (Some(0x21), "")];
    assert!(rt; place_of(&module, &none, 0, 0) == None);
    let two = [(None, ""), (Some(0x20), "a\n"), (Some(0x20), "b\n")];
    assert!(rt; place_of(&module, &two, 0, 0) == Some((1, 0x20)));
    Ok(())
}
