//! Tests of the calls that print branch hints (Code Metadata): each is on a line of its own, directly before its operator.

use std::test::Fail;
use wasmprinter_expecting::Options::Default;
use wasmprinter_expecting::{CallsRow, expect_each_calls};
use wasmprinter_samples::PREAMBLE;
use wasmprinter_samples::modules_and_texts_from_parts::Part::{Bytes, Custom, Section};
use wasmprinter_samples::modules_and_texts_from_parts::{ONE_FUNCTION, ONE_PARAM, Part, Parts};
use wasmprinter_samples::sections::{CODE, HINTS};

/// The code section of a body that tests the parameter in an `if`.
const ONE_BODY: Part<'static> = Section(
    CODE,
    &[0x01, 0x07, 0x00, 0x20, 0x00, 0x04, 0x40, 0x0b, 0x0b],
);

/// The data of a hint section with one hint: the branch of the `if` is likely taken.
const LIKELY: &[u8] = &[0x01, 0x00, 0x01, 0x03, 0x01, 0x01];

/// A module with a hint for its `if`.
const LIKELY_TAKEN: Parts = &[
    Bytes(PREAMBLE),
    ONE_PARAM,
    ONE_FUNCTION,
    Custom(HINTS, LIKELY),
    ONE_BODY,
];

/// The calls that print that module. The printer is asked for the section after the function section, which has no
/// line.
const LIKELY_TAKEN_CALLS: &str = r#"[0x0]({K}module{R}
[0xb]  ({K}type {R}{N}(;0;){R} ({K}func{R} ({K}param{R} {T}i32{R}))){? "metadata.code.branch_hint" 0x2f [1, 0, 1, 3, 1, 1]}
[0x39]  ({K}func {R}{N}(;0;){R} ({K}type {R}{N}0{R}) ({K}param{R} {T}i32{R})
[0x3a]    local.get {N}0{R}
[0x32]    {C}(@metadata.code.branch_hint "\\01"){R}
[0x3c]    if {C};; label = @1{R}
[0x3e]    end
[0x3f]  )
[0x40])
"#;

/// The hints are printed whether the printer claims the section or not.
const CALLS: &[CallsRow] = &[
    ("no claim", Default, LIKELY_TAKEN, "", LIKELY_TAKEN_CALLS),
    ("a claim", Default, LIKELY_TAKEN, HINTS, LIKELY_TAKEN_CALLS),
];

#[test]
fn makes_the_calls_of_a_hint(rt: HostRuntime) -> Result<(), Fail> {
    expect_each_calls(rt.alloc(), CALLS)
}
