//! Tests of numbers in LEB128 at the bounds of their ranges, of names and of lists. All expected values are typed
//! by hand.

use std::test::Fail;
use wasmprinter_bytes::Malformed;
use wasmprinter_bytes::cursor::Cursor;
use wasmprinter_bytes::lazy_items::read_items;

/// An expected number or sum, or the place of an error. The variant names the method that reads it.
#[derive(Clone, Copy)]
enum Expected {
    U32(Result<u32, Malformed>),
    U64(Result<u64, Malformed>),
    S32(Result<i32, Malformed>),
    S33(Result<i64, Malformed>),
    S64(Result<i64, Malformed>),
    /// The sum of the items of a vector of numbers
    Sum(Result<u64, Malformed>),
}

/// Returns the sum of the items of a vector of numbers.
fn sum_of(cursor: &mut Cursor) -> Result<u64, Malformed> {
    let mut sum: u64 = 0;
    for item in read_items::<u32>(cursor)?.iter() {
        sum = sum.wrapping_add(u64::from(item));
    }
    Ok(sum)
}

/// Reports whether reading from the cursor gives the expected value or error.
fn goes_on_with(cursor: &mut Cursor, expected: Expected) -> bool {
    match expected {
        Expected::U32(number) => cursor.u32() == number,
        Expected::U64(number) => cursor.u64() == number,
        Expected::S32(number) => cursor.s32() == number,
        Expected::S33(number) => cursor.s33() == number,
        Expected::S64(number) => cursor.s64() == number,
        Expected::Sum(sum) => sum_of(cursor) == sum,
    }
}

/// The name of the row, the place of the first byte, the bytes, and the expected number or sum.
type Row = (&'static str, u32, &'static [u8], Expected);

const ROWS: &[Row] = &[
    ("u32 in one byte", 0, &[0x03], Expected::U32(Ok(3))),
    (
        "u32 with a byte more than needed",
        0,
        &[0x83, 0x00],
        Expected::U32(Ok(3)),
    ),
    (
        "u32 in three bytes",
        0,
        &[0xe5, 0x8e, 0x26],
        Expected::U32(Ok(624485)),
    ),
    (
        "the greatest u32",
        0,
        &[0xff, 0xff, 0xff, 0xff, 0x0f],
        Expected::U32(Ok(u32::MAX)),
    ),
    (
        "u32 with a bit too many",
        5,
        &[0xff, 0xff, 0xff, 0xff, 0x1f],
        Expected::U32(Err(Malformed { place: 9 })),
    ),
    (
        "u32 in six bytes",
        0,
        &[0x80, 0x80, 0x80, 0x80, 0x80, 0x00],
        Expected::U32(Err(Malformed { place: 4 })),
    ),
    (
        "u64 in three bytes",
        0,
        &[0xe5, 0x8e, 0x26],
        Expected::U64(Ok(624485)),
    ),
    ("s32 in one byte", 0, &[0x7e], Expected::S32(Ok(-2))),
    (
        "s32 with bytes more than needed",
        0,
        &[0xfe, 0xff, 0x7f],
        Expected::S32(Ok(-2)),
    ),
    (
        "s33 in three bytes",
        0,
        &[0xc0, 0xbb, 0x78],
        Expected::S33(Ok(-123456)),
    ),
    (
        "s64 in three bytes",
        0,
        &[0xc0, 0xbb, 0x78],
        Expected::S64(Ok(-123456)),
    ),
    (
        "s64 with a positive sign",
        0,
        &[0xff, 0x00],
        Expected::S64(Ok(127)),
    ),
    (
        "u32 without bytes",
        5,
        &[],
        Expected::U32(Err(Malformed { place: 5 })),
    ),
    (
        "u32 cut after the first byte",
        5,
        &[0x80],
        Expected::U32(Err(Malformed { place: 6 })),
    ),
    (
        "u64 without bytes",
        5,
        &[],
        Expected::U64(Err(Malformed { place: 5 })),
    ),
    (
        "u64 cut after the first byte",
        5,
        &[0x80],
        Expected::U64(Err(Malformed { place: 6 })),
    ),
    (
        "s32 without bytes",
        5,
        &[],
        Expected::S32(Err(Malformed { place: 5 })),
    ),
    (
        "s32 cut after the first byte",
        5,
        &[0x80],
        Expected::S32(Err(Malformed { place: 6 })),
    ),
    (
        "a vector of three numbers",
        0,
        &[0x03, 0x05, 0x80, 0x01, 0x07],
        Expected::Sum(Ok(140)),
    ),
    (
        "a vector with too great a count",
        0,
        &[0xff, 0xff, 0xff, 0xff, 0x0f],
        Expected::Sum(Err(Malformed { place: 5 })),
    ),
];

#[test]
fn numbers_and_vectors_are_read(rt: HostRuntime) {
    for (name, place, bytes, expected) in ROWS {
        let mut cursor = Cursor::new(u64::from(*place), bytes);
        assert!(rt; goes_on_with(&mut cursor, *expected), "{name}");
    }
}

/// Reports whether a name follows, and then a name that is not UTF-8, over which a fork reads.
fn begins_with_names(cursor: &mut Cursor) -> bool {
    cursor.name() == Ok("aé") && cursor.fork().name() == Err(Malformed { place: 0x14 })
}

/// Reports whether a part has two bytes at 0x14, of which the first is 01, and no more can be taken.
fn has_two_bytes(part: &mut Cursor) -> bool {
    part.place() == 0x14
        && part.len() == 2
        && part.front(1).len() == 1
        && part.peek() == Some(0x01)
        && part.u8() == Ok(0x01)
        && part.take(2) == Err(Malformed { place: 0x15 })
}

/// Reports whether exactly the byte 2a is left.
fn ends_with_a_byte(cursor: &mut Cursor) -> bool {
    let taken: Result<&[u8], Malformed> = Ok(&[0x2a]);
    cursor.take(1) == taken && cursor.is_empty()
}

#[test]
fn parts_and_names_are_read(rt: HostRuntime) -> Result<(), Fail> {
    let bytes = [0x03, 0x61, 0xc3, 0xa9, 0x01, 0xff, 0x2a];
    let mut cursor = Cursor::new(0x10, &bytes);
    assert!(rt; begins_with_names(&mut cursor));
    let mut part = cursor.part(2)?;
    assert!(rt; has_two_bytes(&mut part));
    assert!(rt; ends_with_a_byte(&mut cursor));
    Ok(())
}
