//! Options and their setters: options that are set twice, equal the defaults, are chained, or are reset.

use crate::setters::{Setter, config_of};
use std::alloc::Global;
use std::test::Fail;
use wasmprinter::{Config, Error};
use wasmprinter_expecting::expect_printed_by;
use wasmprinter_samples::{
    EVERY_SPACE, EVERYTHING, EVERYTHING_TEXT, FIELDS, FIELDS_TEXT, IDENTITY, IDENTITY_TEXT,
    expect_text,
};

/// The text of `IDENTITY` with places.
const IDENTITY_PLACES: &str = r#"(module
(;@b     ;)  (type (;0;) (func (param i32) (result i32)))
(;@17    ;)  (export "f" (func 0))
(;@1f    ;)  (func (;0;) (type 0) (param i32) (result i32)
(;@20    ;)    local.get 0
(;@22    ;)  )
(;@23    ;))
"#;

/// The text of `IDENTITY` with places and without its body.
const IDENTITY_OUTLINE: &str = r#"(module
(;@b     ;)  (type (;0;) (func (param i32) (result i32)))
(;@17    ;)  (export "f" (func 0))
(;@1f    ;)  (func (;0;) (type 0) (param i32) (result i32) ...)
(;@23    ;))
"#;

/// The text of `IDENTITY` with places, without its body, and with synthesized identifiers.
const IDENTITY_OUTLINE_SYNTHESIZED: &str = r#"(module
(;@b     ;)  (type $#type0 (;0;) (func (param i32) (result i32)))
(;@17    ;)  (export "f" (func $#func0))
(;@1f    ;)  (func $#func0 (;0;) (type $#type0) (param $#local0 i32) (result i32) ...)
(;@23    ;))
"#;

/// The text of `EVERY_SPACE` with places, without bodies, items of element segments and bytes of data segments.
const EVERY_SPACE_OUTLINE: &str = r#"(module $all
(;@b     ;)  (type $sig (;0;) (func (param i32) (result i32)))
(;@10    ;)  (type (;1;) (struct (field i32) (field $x (mut i64))))
(;@16    ;)  (type (;2;) (func (param i32)))
(;@1a    ;)  (type (;3;) (func))
(;@20    ;)  (import "a" "f" (func (;0;) (type $sig) (param $arg i32) (result i32)))
(;@2e    ;)  (table (;0;) 1 funcref)
(;@31    ;)  (table $tab (;1;) 2 funcref)
(;@37    ;)  (memory (;0;) 1)
(;@39    ;)  (memory $mem (;1;) 2)
(;@3e    ;)  (tag (;0;) (type 3))
(;@40    ;)  (tag $exc (;1;) (type 2) (param i32))
(;@45    ;)  (global (;0;) i32 i32.const 3)
(;@4a    ;)  (global $var (;1;) i32 global.get 0)
(;@52    ;)  (export "f" (func $run))
(;@56    ;)  (export "a" (table $tab))
(;@5a    ;)  (export "m" (memory $mem))
(;@5e    ;)  (export "g" (global $var))
(;@62    ;)  (export "t" (tag 1))
(;@68    ;)  (start $init)
(;@6c    ;)  (elem (;0;) (table $tab) (i32.const 0) ...)
(;@74    ;)  (elem $els (;1;) ...)
(;@7f    ;)  (func $run (;1;) (type $sig) (param $arg i32) (result i32) ...)
(;@d9    ;)  (func $init (;2;) (type 3) ...)
(;@de    ;)  (data (;0;) (memory $mem) (global.get $var) ...)
(;@e6    ;)  (data $raw (;1;) ...)
(;@164   ;))
"#;

/// The text of `IDENTITY` with places, indented by a tab.
const TABBED_PLACES: &str = "(module\n\
        (;@b     ;)\t(type (;0;) (func (param i32) (result i32)))\n\
        (;@17    ;)\t(export \"f\" (func 0))\n\
        (;@1f    ;)\t(func (;0;) (type 0) (param i32) (result i32)\n\
        (;@20    ;)\t\tlocal.get 0\n\
        (;@22    ;)\t)\n\
        (;@23    ;))\n";

/// A module with options: the name of the row, the setters that are called, the module, and its text.
type Row = (&'static str, &'static [Setter], &'static [u8], &'static str);

/// Modules with an option that is set twice, and with options that equal the defaults.
const ROWS: &[Row] = &[
    (
        "the last of two indents, after places",
        &[
            Setter::Indent(" "),
            Setter::Indent("\t"),
            Setter::Offsets(true),
        ],
        IDENTITY,
        TABBED_PLACES,
    ),
    (
        "functions with each option set to false",
        &[
            Setter::Offsets(false),
            Setter::Skeleton(false),
            Setter::NameUnnamed(false),
        ],
        EVERYTHING,
        EVERYTHING_TEXT,
    ),
    (
        "fields with each option set to false",
        &[
            Setter::Offsets(false),
            Setter::Skeleton(false),
            Setter::NameUnnamed(false),
        ],
        FIELDS,
        FIELDS_TEXT,
    ),
];

/// Checks that the module of a row has the text of the row.
///
/// # Errors
///
/// - The module is refused, or its text differs.
fn expect_row(alloc: Global, row: &Row) -> Result<(), Fail> {
    let (name, setters, wasm, text) = row;
    let config = config_of(alloc, setters)?;
    expect_printed_by(name, &config, alloc, wasm, text)
}

/// Checks the text of each row.
///
/// # Errors
///
/// - A module is refused, or its text differs.
fn expect_rows(alloc: Global, rows: &[Row]) -> Result<(), Fail> {
    for row in rows {
        expect_row(alloc, row)?;
    }
    Ok(())
}

#[test]
fn prints_by_options(rt: HostRuntime) -> Result<(), Fail> {
    expect_rows(rt.alloc(), ROWS)
}

/// Returns the text of `IDENTITY` with options that are set and used in one chain.
fn synthesized_outline(alloc: Global) -> Result<String, Error> {
    Config::new()
        .name_unnamed(true)
        .print_skeleton(true)
        .print_offsets(true)
        .print_to_string(alloc, IDENTITY)
}

/// Returns the text of `IDENTITY` with an indent of a tab and with places, which are set and used in one chain.
fn tabbed_places(alloc: Global) -> Result<String, Error> {
    let tab = String::from_str(alloc, "\t")?;
    Config::new()
        .indent_text(tab)
        .print_offsets(true)
        .print_to_string(alloc, IDENTITY)
}

#[test]
fn chains_setters(rt: HostRuntime) -> Result<(), Fail> {
    let mut config = Config::new();
    config.print_offsets(true).print_skeleton(true);
    let name = "a chain on a variable";
    expect_printed_by(name, &config, rt.alloc(), EVERY_SPACE, EVERY_SPACE_OUTLINE)?;
    let text = synthesized_outline(rt.alloc())?;
    expect_text(text.as_str(), IDENTITY_OUTLINE_SYNTHESIZED)?;
    let text = tabbed_places(rt.alloc())?;
    expect_text(text.as_str(), TABBED_PLACES)?;
    Ok(())
}

#[test]
fn takes_options_back(rt: HostRuntime) -> Result<(), Fail> {
    let mut config = Config::new();
    config.print_offsets(true).print_skeleton(true);
    config.name_unnamed(true).name_unnamed(false);
    let name = "identifiers are taken back";
    expect_printed_by(name, &config, rt.alloc(), IDENTITY, IDENTITY_OUTLINE)?;
    config.print_skeleton(false);
    let name = "the skeleton is taken back";
    expect_printed_by(name, &config, rt.alloc(), IDENTITY, IDENTITY_PLACES)?;
    config.print_offsets(false);
    let name = "places are taken back";
    expect_printed_by(name, &config, rt.alloc(), IDENTITY, IDENTITY_TEXT)
}

#[test]
fn shows_debug(rt: HostRuntime) -> Result<(), Fail> {
    let config = Config::default();
    let shown = format!(in rt.alloc(); "{config:?}")?;
    expect_text(
        shown.as_str(),
        "Config { options: PrintOptions { offsets: false, skeleton: false, synthesizes: false, folds: false, indent: Default } }",
    )?;
    Ok(())
}
