//! Tests of the helpers of the tests: the printer that records its calls, and the comparisons of `wasmprinter_samples`
//! and `wasmprinter_expecting`, which have to tell right results from wrong ones.

use std::io::ErrorKind;
use std::test::Fail;
use wasmprinter::Error;
use wasmprinter_expecting::{Refusal, early_refusal_of, is_malformed, is_printed_as, refusal_of};
use wasmprinter_print::Print;
use wasmprinter_samples::{Different, EMPTY_TEXT, PREAMBLE, Recorder, expect_text};

/// A part of the preamble.
const CUT: &[u8] = &[0x00, 0x61, 0x73, 0x6d];

#[test]
fn texts_are_compared(rt: HostRuntime) {
    assert!(rt; is_printed_as(rt.alloc(), PREAMBLE, EMPTY_TEXT));
    assert!(rt; !is_printed_as(rt.alloc(), PREAMBLE, ""));
    assert!(rt; !is_printed_as(rt.alloc(), CUT, ""));
}

#[test]
fn refusals_are_reported(rt: HostRuntime) {
    assert!(rt; is_malformed(rt.alloc(), CUT));
    assert!(rt; !is_malformed(rt.alloc(), PREAMBLE));
    let refused = refusal_of(rt.alloc(), CUT);
    assert!(rt; matches!(refused, Some(Error::Malformed { .. })));
    assert!(rt; refusal_of(rt.alloc(), PREAMBLE).is_none());
    let refused = early_refusal_of(rt.alloc(), CUT);
    assert!(rt; matches!(refused, Some(Error::Malformed { .. })));
    assert!(rt; early_refusal_of(rt.alloc(), PREAMBLE).is_none());
}

#[test]
fn reasons_are_told_apart(rt: HostRuntime) {
    assert!(rt; Refusal::Malformed { place: 0 }.is(refusal_of(rt.alloc(), CUT)));
    assert!(rt; !Refusal::Malformed { place: 4 }.is(refusal_of(rt.alloc(), CUT)));
    assert!(rt; !Refusal::Component.is(refusal_of(rt.alloc(), CUT)));
    assert!(rt; !Refusal::Malformed { place: 0 }.is(refusal_of(rt.alloc(), PREAMBLE)));
}

#[test]
fn writes_down_each_call_at_once(rt: HostRuntime) -> Result<(), Fail> {
    let mut recorder = Recorder::with_refusal(rt.alloc(), 5, ErrorKind::BrokenPipe);
    recorder.start_line(None);
    recorder.start_line(Some(31));
    recorder.write_str("[0]\n{K}\\")?;
    recorder.newline()?;
    recorder.start_keyword()?;
    assert!(rt; !recorder.print_custom_section("a\"b", 8, &[1, 2])?);
    let refused = recorder.start_type();
    assert!(rt; matches!(refused, Err(e) if e.kind() == ErrorKind::BrokenPipe));
    recorder.reset_color()?;
    recorder.start_line(Some(0));
    expect_text(
        recorder.calls(),
        "[][0x1f]\\[0\\]\\n\\{K\\}\\\\\n{K}{? \"a\\\"b\" 0x8 [1, 2]}{T}{!}{R}[0x0]",
    )?;
    assert!(rt; recorder.call_count() == 6);
    assert!(rt; recorder.faults() == 1);
    assert!(rt; recorder.is_complete());
    Ok(())
}

#[test]
fn prints_the_first_line_that_differs(rt: HostRuntime) -> Result<(), Fail> {
    expect_text("", "")?;
    expect_text("(module)\n", "(module)\n")?;
    assert!(rt; expect_text("(module)\n", "(module)") == Err(Different::Line(2)));
    assert!(rt; expect_text("a\nb", "a\nc") == Err(Different::Line(2)));
    assert!(rt; expect_text("b\na", "c\na") == Err(Different::Line(1)));
    Ok(())
}
