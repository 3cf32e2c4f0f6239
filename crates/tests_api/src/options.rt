//! Tests of each option of `Config`, and of the calls that print with them.

use crate::printing::{print_to, text_by, text_of};
use std::alloc::{AllocError, Global};
use std::test::Fail;
use wasmprinter::{Config, Error, PrintFmtWrite};
use wasmprinter_samples::{EMPTY_TEXT, IDENTITY, IDENTITY_TEXT, PREAMBLE, expect_text};

/// The text of `IDENTITY` with places, as a skeleton.
const OUTLINE_WITH_PLACES: &str = r#"(module
(;@b     ;)  (type (;0;) (func (param i32) (result i32)))
(;@17    ;)  (export "f" (func 0))
(;@1f    ;)  (func (;0;) (type 0) (param i32) (result i32) ...)
(;@23    ;))
"#;

/// The text of `IDENTITY` as a skeleton, with identifiers synthesized.
const OUTLINE_WITH_IDENTIFIERS: &str = r#"(module
  (type $#type0 (;0;) (func (param i32) (result i32)))
  (export "f" (func $#func0))
  (func $#func0 (;0;) (type $#type0) (param $#local0 i32) (result i32) ...)
)
"#;

/// The text of `IDENTITY` with folded operators, and with an indent of one space.
const FOLDED: &str = r#"(module
 (type (;0;) (func (param i32) (result i32)))
 (export "f" (func 0))
 (func (;0;) (type 0) (param i32) (result i32)
  (local.get 0)
 )
)
"#;

/// The text of the empty module with ANSI escape sequences.
const EMPTY_COLORED: &[u8] = b"(\x1b[0m\x1b[1m\x1b[38;5;11mmodule\x1b[0m)\n";

/// The text of `IDENTITY` with options: the name of the row, the options, and the text.
type Row = (&'static str, Config, &'static str);

/// Returns the rows.
fn rows(alloc: Global) -> Result<[Row; 4], AllocError> {
    let mut outline = Config::new();
    outline.print_offsets(true).print_skeleton(true);
    let mut identifiers = Config::new();
    identifiers.print_skeleton(true).name_unnamed(true);
    let mut folded = Config::new();
    folded
        .fold_instructions(true)
        .indent_text(" ".to_string(alloc)?);
    Ok([
        ("defaults", Config::default(), IDENTITY_TEXT),
        ("a skeleton with places", outline, OUTLINE_WITH_PLACES),
        (
            "synthesized identifiers",
            identifiers,
            OUTLINE_WITH_IDENTIFIERS,
        ),
        ("folded operators", folded, FOLDED),
    ])
}

/// Reports whether the text of `IDENTITY` with these options is the expected one.
fn is_printed_as(alloc: Global, config: &Config, expected: &str) -> Result<bool, Error> {
    Ok(text_by(config, alloc, IDENTITY)?.as_str() == expected)
}

/// Returns the name of the first row with another text, or `None` if there is no such row.
fn first_other(alloc: Global, rows: &[Row]) -> Result<Option<&'static str>, Error> {
    for (name, config, expected) in rows {
        if !is_printed_as(alloc, config, expected)? {
            return Ok(Some(*name));
        }
    }
    Ok(None)
}

#[test]
fn prints_by_options(rt: HostRuntime) -> Result<(), Fail> {
    let other = first_other(rt.alloc(), &rows(rt.alloc())?)?;
    assert!(rt; other == None, "{other:?}");
    Ok(())
}

/// Returns the text of the empty module, printed to a writer of texts.
fn written(alloc: Global) -> Result<String, Error> {
    let mut printer = PrintFmtWrite(String::new(alloc));
    print_to(alloc, PREAMBLE, &mut printer)?;
    Ok(printer.0)
}

/// Returns the text of the empty module with ANSI escape sequences.
fn colored(alloc: Global) -> Result<Vec<u8>, Error> {
    Config::new().print_to_ansi(alloc, PREAMBLE)
}

#[test]
fn prints_by_each_function(rt: HostRuntime) -> Result<(), Fail> {
    expect_text(text_of(rt.alloc(), IDENTITY)?.as_str(), IDENTITY_TEXT)?;
    expect_text(written(rt.alloc())?.as_str(), EMPTY_TEXT)?;
    assert!(rt; colored(rt.alloc())?.as_slice() == EMPTY_COLORED);
    Ok(())
}
