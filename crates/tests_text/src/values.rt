//! Tests of floats, quoted strings and byte strings, as a caller of the library writes them to its own printer. Each
//! float is given by its bits.

use std::alloc::Global;
use std::io::ErrorKind;
use std::test::Fail;
use wasmprinter::text::{write_bytes, write_f32, write_f64, write_quoted};
use wasmprinter::{Error, Print, PrintFmtWrite};
use wasmprinter_expecting::{expect_recorded, expect_same};
use wasmprinter_samples::Recorder;

/// A value that is written.
enum Value {
    /// A float of 32 bits
    F32(u32),
    /// A float of 64 bits
    F64(u64),
    /// A quoted string
    Quoted(&'static str),
    /// A byte string
    Bytes(&'static [u8]),
}

/// Writes a value to a printer.
fn write_value<P: Print>(printer: &mut P, value: &Value) -> Result<(), Error> {
    match value {
        Value::F32(bits) => write_f32(printer, *bits),
        Value::F64(bits) => write_f64(printer, *bits),
        Value::Quoted(text) => write_quoted(printer, text),
        Value::Bytes(bytes) => write_bytes(printer, bytes),
    }
}

/// Values, each with its text: numbers of each class, escaped bytes, and characters outside of ASCII.
const TEXTS: &[(Value, &str)] = &[
    (Value::F32(0x3fc0_0000), "0x1.8p+0"),
    (Value::F32(0x0000_0000), "0x0p+0"),
    (Value::F32(0x8000_0000), "-0x0p+0"),
    (Value::F32(0x0000_0001), "0x1.p-149"),
    (Value::F32(0x7fc0_0000), "nan (;=NaN;)"),
    (Value::F32(0x7f80_0001), "nan:0x1 (;=NaN;)"),
    (Value::F32(0x7f80_0000), "inf (;=inf;)"),
    (Value::F32(0xff80_0000), "-inf (;=-inf;)"),
    (Value::F32(0x4049_0fdb), "0x1.921fb6p+1"),
    (Value::F32(0x7f7f_ffff), "0x1.fffffep+127"),
    (Value::F32(0x0040_0000), "0x1.p-127"),
    (Value::F32(0x0060_0000), "0x1.8p-127"),
    (Value::F32(0xffc0_0000), "-nan (;=NaN;)"),
    (Value::F32(0xffff_ffff), "-nan:0x7fffff (;=NaN;)"),
    (Value::F64(0x3ff0_0000_0000_0000), "0x1p+0"),
    (Value::F64(0x0000_0000_0000_0001), "0x1.p-1074"),
    (Value::F64(0x7ff8_0000_0000_0000), "nan (;=NaN;)"),
    (Value::F64(0xfff0_0000_0000_0001), "-nan:0x1 (;=NaN;)"),
    (Value::F64(0x8000_0000_0000_0000), "-0x0p+0"),
    (Value::F64(0x4009_21fb_5444_2d18), "0x1.921fb54442d18p+1"),
    (Value::F64(0x000f_ffff_ffff_ffff), "0x1.ffffffffffffep-1023"),
    (Value::F64(0x7fef_ffff_ffff_ffff), "0x1.fffffffffffffp+1023"),
    (Value::Bytes(&[0x41, 0x22, 0x00]), r#""A\22\00""#),
    (Value::Quoted("\u{1b}\u{e9}"), r#""\u{1b}\u{e9}""#),
];

/// Checks the text of a value. A failure shows the text.
///
/// # Errors
///
/// - The value is not written, or its text differs.
fn expect_text_of(alloc: Global, value: &Value, text: &'static str) -> Result<(), Fail> {
    let mut printer = PrintFmtWrite(String::new(alloc));
    write_value(&mut printer, value)?;
    expect_same(text, printer.0.as_str(), text)
}

/// Checks the text of each row.
///
/// # Errors
///
/// - A value is not written, or its text differs.
fn expect_texts(alloc: Global, rows: &[(Value, &'static str)]) -> Result<(), Fail> {
    for (value, text) in rows {
        expect_text_of(alloc, value, text)?;
    }
    Ok(())
}

#[test]
fn writes_values(rt: HostRuntime) -> Result<(), Fail> {
    expect_texts(rt.alloc(), TEXTS)
}

/// A value: the name of the row, the value, the number of the call that is refused, and the calls up to it. No call is
/// refused if the number is 0.
type Row = (&'static str, Value, u32, &'static str);

const VALUES: &[Row] = &[
    (
        "a finite float",
        Value::F32(0xbfc0_0000),
        0,
        "-{L}0x1.8p+0{R}",
    ),
    (
        "infinity",
        Value::F32(0xff80_0000),
        0,
        "-{L}inf {C}(;=-inf;){R}",
    ),
    (
        "a NaN",
        Value::F64(0x7ff0_0000_0000_0001),
        0,
        "{L}nan:0x1 {C}(;=NaN;){R}",
    ),
    (
        "a quoted string",
        Value::Quoted("a b\"\\\u{1b}\u{e9}~\u{7f}"),
        0,
        r#"{L}"a b\\u\{22\}\\u\{5c\}\\u\{1b\}\\u\{e9\}~\\u\{7f\}"{R}"#,
    ),
    (
        "a refused quoted string",
        Value::Quoted("a"),
        2,
        r#"{L}"{!}"#,
    ),
    ("bytes", Value::Bytes(b"A\"\x00"), 0, r#"{L}"A\\22\\00"{R}"#),
    (
        "more bytes",
        Value::Bytes(b"a b\"\\~\x00\x1b\x7f\xc3\xa9\xff"),
        0,
        r#"{L}"a b\\22\\5c~\\00\\1b\\7f\\c3\\a9\\ff"{R}"#,
    ),
    ("no bytes", Value::Bytes(b""), 0, r#"{L}""{R}"#),
    ("refused bytes", Value::Bytes(b"ab"), 4, r#"{L}"ab{!}"#),
];

/// Returns whether writing a value succeeds if `refused` is 0, and otherwise whether it returns the error of the call
/// with this number.
fn is_answered(recorder: &mut Recorder, value: &Value, refused: u32) -> bool {
    match write_value(recorder, value) {
        Ok(()) => refused == 0,
        Err(Error::Printer(e)) => refused != 0 && e.kind() == ErrorKind::BrokenPipe,
        Err(_) => false,
    }
}

/// Checks the result of writing the value of a row, and the calls.
///
/// # Errors
///
/// - The result differs, or the calls differ, or one was not recorded.
fn expect_written(alloc: Global, row: &Row) -> Result<(), Fail> {
    let (name, value, refused, calls) = row;
    let mut recorder = Recorder::with_refusal(alloc, *refused, ErrorKind::BrokenPipe);
    if !is_answered(&mut recorder, value, *refused) {
        return Err((*name, "the result differs"))?;
    }
    expect_recorded(name, &recorder, calls)
}

/// Checks each row.
///
/// # Errors
///
/// - A result differs, or calls differ, or one was not recorded.
fn expect_each_written(alloc: Global, rows: &[Row]) -> Result<(), Fail> {
    for row in rows {
        expect_written(alloc, row)?;
    }
    Ok(())
}

#[test]
fn makes_the_calls_of_a_value(rt: HostRuntime) -> Result<(), Fail> {
    expect_each_written(rt.alloc(), VALUES)
}

/// Reports whether writing a float returns the error of the call with this number and makes no call after it, if
/// that call is refused.
fn is_refused_at(alloc: Global, call: u32) -> bool {
    let mut recorder = Recorder::with_refusal(alloc, call, ErrorKind::BrokenPipe);
    is_answered(&mut recorder, &Value::F64(0xfff0_0000_0000_0001), call)
        && recorder.call_count() == call
}

#[test]
fn returns_the_error_of_the_printer(rt: HostRuntime) -> Result<(), Fail> {
    let mut whole = Recorder::new(rt.alloc());
    write_f64(&mut whole, 0xfff0_0000_0000_0001)?;
    for call in 1..=whole.call_count() {
        assert!(rt; is_refused_at(rt.alloc(), call), "at call {call}");
    }
    Ok(())
}
