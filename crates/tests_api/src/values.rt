//! Tests of the texts of single values.

use std::alloc::Global;
use std::test::Fail;
use wasmprinter::text::{write_bytes, write_f32, write_f64, write_quoted};
use wasmprinter::{Error, PrintFmtWrite};

/// A value, named after the function that writes it.
enum Value {
    F32(u32),
    F64(u64),
    Quoted(&'static str),
    Bytes(&'static [u8]),
}

/// The values, each with its text.
const ROWS: &[(Value, &str)] = &[
    (Value::F32(0x3fc0_0000), "0x1.8p+0"),
    (Value::F64(0x3ff0_0000_0000_0000), "0x1p+0"),
    (Value::Quoted("a\"\u{e9}"), r#""a\u{22}\u{e9}""#),
    (Value::Bytes(&[0x41, 0x00, 0xff]), r#""A\00\ff""#),
];

/// Reports whether writing a value gives this text.
fn is_written_as(alloc: Global, value: &Value, expected: &str) -> Result<bool, Error> {
    let mut text = PrintFmtWrite(String::new(alloc));
    match value {
        Value::F32(bits) => write_f32(&mut text, *bits)?,
        Value::F64(bits) => write_f64(&mut text, *bits)?,
        Value::Quoted(content) => write_quoted(&mut text, content)?,
        Value::Bytes(bytes) => write_bytes(&mut text, bytes)?,
    }
    Ok(text.0.as_str() == expected)
}

/// Returns the expected text of the first value with another one, or `None` if there is no such value.
fn first_other(
    alloc: Global,
    rows: &[(Value, &'static str)],
) -> Result<Option<&'static str>, Error> {
    for (value, expected) in rows {
        if !is_written_as(alloc, value, expected)? {
            return Ok(Some(*expected));
        }
    }
    Ok(None)
}

#[test]
fn writes_each_value(rt: HostRuntime) -> Result<(), Fail> {
    let other = first_other(rt.alloc(), ROWS)?;
    assert!(rt; other == None, "{other:?}");
    Ok(())
}
