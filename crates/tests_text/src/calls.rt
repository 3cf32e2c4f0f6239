//! Tests of the calls that print a module: their order, and the error that is returned if one of them fails. If a printer
//! takes no ANSI escape sequences within a text, folded operators and the parentheses that folding adds are text without
//! styles.

use std::alloc::Global;
use std::io::ErrorKind;
use std::test::Fail;
use wasmprinter::{Config, Error};
use wasmprinter_expecting::Options::{self, Default, Folded, FoldedPlaces, Synthesized};
use wasmprinter_expecting::{CallsRow, expect_each_calls, print_to};
use wasmprinter_samples::expected_calls::IDENTITY_FOLDED;
use wasmprinter_samples::modules::customs::DYLINK_EXPORT;
use wasmprinter_samples::modules_and_texts_from_parts::Part::{
    Body, Bytes, Custom, Section, Slice,
};
use wasmprinter_samples::modules_and_texts_from_parts::{NO_PARAMS, ONE_FUNCTION};
use wasmprinter_samples::sections::TYPE;
use wasmprinter_samples::{
    CONTROL, CONTROL_CALLS, EMPTY_CALLS, EVERYTHING, EVERYTHING_CALLS, FIELDS, FIELDS_CALLS,
    IDENTITY, IDENTITY_CALLS, KINDS, KINDS_CALLS, NAMED, NAMED_CALLS, PREAMBLE, REFUSED, Recorder,
    SYNTHESIZED_CALLS,
};

/// Two types in one group.
const GROUP: &[u8] = &[0x01, 0x4e, 0x02, 0x5f, 0x01, 0x78, 0x01, 0x60, 0x00, 0x00];

/// The calls that print a module with that group. Both types have the place after the first two bytes of the group.
const GROUP_CALLS: &str = r#"[0x0]({K}module{R}
[0xb]  ({K}rec{R}
[0xd]    ({K}type {R}{N}(;0;){R} ({K}struct{R} (field (mut i8))))
[0xd]    ({K}type {R}{N}(;1;){R} ({K}func{R}))
[]  )
[0x14])
"#;

/// The calls for `FIELDS`. Initialisers are folded, and expressions in the short form are not.
const FIELDS_FOLDED: &str = r#"[0x0]({K}module{R}
[0xb]  ({K}type {R}{N}(;0;){R} ({K}func{R}))
[0x11]  ({K}import {R}{L}"a"{R} {L}"f"{R} ({K}func {R}{N}(;0;){R} ({K}type {R}{N}0{R})))
[0x17]  ({K}import {R}{L}"a"{R} {L}"g"{R} ({K}global {R}{N}(;0;){R} ({T}mut {R}{T}i32{R})))
[0x21]  ({K}table {R}{N}(;0;){R} {L}1{R} {T}funcref{R})
[0x24]  ({K}table {R}{N}(;1;){R} {L}1{R} {T}funcref{R} (ref.func 0))
[0x2f]  ({K}memory {R}{N}(;0;){R} {L}1{R})
[0x34]  ({K}tag {R}{N}(;0;){R} ({K}type {R}{N}0{R}))
[0x39]  ({K}global {R}{N}(;1;){R} {T}i32{R} (block (result i32)  (; label = @1 ;) (i32.const 7)))
[0x44]  ({K}export {R}{L}"m"{R} ({K}memory {R}{N}0{R}))
[0x4a]  ({K}start {R}{N}0{R})
[0x4e]  ({K}elem {R}{N}(;0;){R} ({K}{R}i32.const{L} 0{R}) func {N}0{R})
[0x54]  ({K}elem {R}{N}(;1;){R} {T}funcref{R} ({K}{R}ref.func {N}0{R}) ({K}{R}ref.null {T}func{R}))
[0x60]  ({K}data {R}{N}(;0;){R} ({K}{R}i32.const{L} 0{R}) {L}"hi"{R})
[0x67]  ({K}data {R}{N}(;1;){R} {L}""{R})
[0x69])
"#;

/// The calls for an empty block and an `if` with both arms, with places. The comments of places have a style,
/// those of labels have none.
const PLACED: &str = r#"[0x0]({K}module{R}
[0xb]{C}(;@b     ;){R}  ({K}type {R}{N}(;0;){R} ({K}func{R}))
[0x16]{C}(;@16    ;){R}  ({K}func {R}{N}(;0;){R} ({K}type {R}{N}0{R})
[0x17]{C}(;@17    ;){R}    (block ;; label = @1
[0x17]{C}(;@17    ;){R}    )
[0x1d]{C}(;@1d    ;){R}    (if ;; label = @1
[0x1a]{C}(;@1a    ;){R}      (local.get 0)
[0x1d]{C}(;@1d    ;){R}      (then
[0x1f]{C}(;@1f    ;){R}        (br 0 (;@1;)))
[0x21]{C}(;@21    ;){R}      (else))
[0x23]{C}(;@23    ;){R}  )
[0x24]{C}(;@24    ;){R})
"#;

/// The operators of that body. The index is encoded in one byte more than it needs.
const PLACED_OPERATORS: &[u8] = &[
    0x02, 0x40, 0x0b, 0x20, 0x80, 0x00, 0x04, 0x40, 0x0c, 0x00, 0x05, 0x0b,
];

/// The calls for a body, and for a custom section after it that the printer claims.
const TAKEN: &str = r#"[0x0]({K}module{R}
[0xb]  ({K}type {R}{N}(;0;){R} ({K}func{R}))
[0x16]  ({K}func {R}{N}(;0;){R} ({K}type {R}{N}0{R})
[0x19]    (drop
[0x17]      (i32.const 0))
[0x1a]  ){? "a" 0x1f [1]}
[0x20])
"#;

/// Modules, each with the calls that print it.
const MODULES: &[CallsRow] = &[
    ("no sections", Default, &[Bytes(PREAMBLE)], "", EMPTY_CALLS),
    (
        "a function",
        Default,
        &[Bytes(IDENTITY)],
        "",
        IDENTITY_CALLS,
    ),
    (
        "two functions, and two exports",
        Default,
        &[Bytes(EVERYTHING)],
        "",
        EVERYTHING_CALLS,
    ),
    (
        "memories, a tag, and exports of each kind",
        Default,
        &[Bytes(KINDS)],
        "",
        KINDS_CALLS,
    ),
    ("blocks", Default, &[Bytes(CONTROL)], "", CONTROL_CALLS),
    (
        "imports, tables and segments",
        Default,
        &[Bytes(FIELDS)],
        "",
        FIELDS_CALLS,
    ),
    ("names", Default, &[Bytes(NAMED)], "", NAMED_CALLS),
    (
        "a group of types",
        Default,
        &[Bytes(PREAMBLE), Section(TYPE, GROUP)],
        "",
        GROUP_CALLS,
    ),
    (
        "synthesized identifiers",
        Synthesized,
        &[Slice(NAMED, 0, 40)],
        "",
        SYNTHESIZED_CALLS,
    ),
    (
        "a claimed `dylink.0` section",
        Default,
        &[Bytes(DYLINK_EXPORT)],
        "dylink.0",
        "[0x0]({K}module{R}{? \"dylink.0\" 0x13 [3, 4, 1, 1, 102, 33]})\n",
    ),
];

/// Modules whose operators are folded, each with the calls that print it.
const FOLDED_MODULES: &[CallsRow] = &[
    ("no sections", Folded, &[Bytes(PREAMBLE)], "", EMPTY_CALLS),
    (
        "a function",
        Folded,
        &[Bytes(IDENTITY)],
        "",
        IDENTITY_FOLDED,
    ),
    (
        "initialisers and segments",
        Folded,
        &[Bytes(FIELDS)],
        "",
        FIELDS_FOLDED,
    ),
    (
        "places of a block and an `if`",
        FoldedPlaces,
        &[
            Bytes(PREAMBLE),
            NO_PARAMS,
            ONE_FUNCTION,
            Body(PLACED_OPERATORS),
        ],
        "",
        PLACED,
    ),
    (
        "a claimed section",
        Folded,
        &[
            Bytes(PREAMBLE),
            NO_PARAMS,
            ONE_FUNCTION,
            Body(&[0x41, 0x00, 0x1a]),
            Custom("a", &[0x01]),
        ],
        "a",
        TAKEN,
    ),
];

#[test]
fn makes_each_call_in_order(rt: HostRuntime) -> Result<(), Fail> {
    expect_each_calls(rt.alloc(), MODULES)?;
    expect_each_calls(rt.alloc(), FOLDED_MODULES)
}

/// The calls that print `IDENTITY` with these options, and some of their prefixes.
struct Refused {
    options: Options,
    calls: &'static str,
    beginnings: &'static [&'static str],
}

/// Flat operators. The refused calls are the first, a style, a line feed, one in the middle, and the last.
const FLAT_REFUSED: Refused = Refused {
    options: Default,
    calls: IDENTITY_CALLS,
    beginnings: &[
        "[0x0](",
        "[0x0]({K}",
        "[0x0]({K}module{R}\n",
        r#"[0x0]({K}module{R}
[0xb]  ({K}type {R}{N}(;0;){R} ({K}func{R} ({K}param{R} {T}i32{R}) ({K}result{R} {T}i32{R})))
[0x17]  ({K}export {R}{L}"f"{R} ({K}func {R}{N}"#,
        IDENTITY_CALLS,
    ],
};

/// Folded operators. The refused calls are the first, one in the middle, the line feed before a node, and the last.
const FOLDED_REFUSED: Refused = Refused {
    options: Folded,
    calls: IDENTITY_FOLDED,
    beginnings: &[
        "[0x0](",
        r#"[0x0]({K}module{R}
[0xb]  ({K}type {R}{N}(;0;){R} ({K}func{R} ({K}param{R} {T}i32{R}) ({K}result{R} {T}i32{R})))
[0x17]  ({K}export {R}{L}"f"{R} ({K}func {R}{N}"#,
        r#"[0x0]({K}module{R}
[0xb]  ({K}type {R}{N}(;0;){R} ({K}func{R} ({K}param{R} {T}i32{R}) ({K}result{R} {T}i32{R})))
[0x17]  ({K}export {R}{L}"f"{R} ({K}func {R}{N}0{R}))
[0x1f]  ({K}func {R}{N}(;0;){R} ({K}type {R}{N}0{R}) ({K}param{R} {T}i32{R}) ({K}result{R} {T}i32{R})
"#,
        IDENTITY_FOLDED,
    ],
};

/// Prints `IDENTITY` to a recorder that refuses the call with this number. Returns whether the calls up to that one are
/// listed among the prefixes, or `None` if another error is returned, a call follows the refused one, or a call differs.
fn stops_at(alloc: Global, refused: &Refused, call: u32) -> Option<bool> {
    let mut recorder = Recorder::with_refusal(alloc, call, ErrorKind::BrokenPipe);
    let printed = print_to(&refused.options.config(), alloc, IDENTITY, &mut recorder);
    let is_returned =
        matches!(printed, Err(Error::Printer(e)) if e.kind() == ErrorKind::BrokenPipe);
    match recorder.calls().strip_suffix(REFUSED) {
        Some(beginning)
            if is_returned && recorder.is_complete() && refused.calls.starts_with(beginning) => {
            Some(refused.beginnings.contains(&beginning))
        }
        _ => None,
    }
}

/// Checks that printing stops at each call that is refused, and that each of the prefixes ends at one.
///
/// # Errors
///
/// - Printing does not stop at a call, or no refused call is the last one of a prefix.
fn expect_stops(alloc: Global, refused: &Refused) -> Result<(), Fail> {
    let mut recorder = Recorder::new(alloc);
    print_to(&refused.options.config(), alloc, IDENTITY, &mut recorder)?;
    let mut seen: usize = 0;
    for call in 1..=recorder.call_count() {
        match stops_at(alloc, refused, call) {
            Some(true) => seen = seen.saturating_add(1),
            Some(false) => (),
            None => return Err(("does not stop at the call", call))?,
        }
    }
    if seen != refused.beginnings.len() {
        return Err(("prefixes that end at a refused call", seen))?;
    }
    Ok(())
}

#[test]
fn stops_at_the_call_that_fails_and_returns_its_error(rt: HostRuntime) -> Result<(), Fail> {
    expect_stops(rt.alloc(), &FLAT_REFUSED)?;
    expect_stops(rt.alloc(), &FOLDED_REFUSED)
}

#[test]
fn returns_each_kind_of_error_unchanged(rt: HostRuntime) {
    for kind in [
        ErrorKind::BrokenPipe,
        ErrorKind::StorageFull,
        ErrorKind::OutOfMemory,
        ErrorKind::Interrupted,
        ErrorKind::Other,
    ] {
        let mut recorder = Recorder::with_refusal(rt.alloc(), 3, kind);
        let refused = print_to(&Config::default(), rt.alloc(), PREAMBLE, &mut recorder);
        assert!(rt; matches!(refused, Err(Error::Printer(e)) if e.kind() == kind));
    }
}
