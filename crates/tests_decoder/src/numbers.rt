//! Tests of numbers in LEB128: whether bytes begin with one, where it ends, and the place of a malformed byte. The
//! inputs are all those of at most two bytes, those around the greatest length of a number, and longer pseudorandom
//! ones. The value of a number is proved.

use wasmprinter_bytes::Malformed;
use wasmprinter_bytes::cursor::Cursor;

/// The place of the first byte.
const PLACE: u64 = 0x1a;

/// The continuation bit: a byte that is at least this is followed by another one.
const MORE: u8 = 0x80;

/// A method that reads a number.
#[derive(Clone, Copy)]
enum Way {
    U32,
    U64,
    S32,
    S33,
    S64,
}

/// How numbers of one kind are encoded (section 5.2.2 of the standard).
#[derive(Clone, Copy)]
struct Spelling {
    /// The greatest number of bytes
    most: usize,
    /// The last of that many bytes is less than this if the number is not negative
    above: u8,
    /// The last of that many bytes is at least this if the number is negative
    negative: u8,
}

/// Returns the place of the byte with this index, counted from 0.
fn place_at(number: usize) -> u64 {
    PLACE.saturating_add(number as u64)
}

impl Spelling {
    /// Reports whether a byte may be the last one of a number of the greatest length.
    fn has_last(&self, byte: u8) -> bool {
        byte < self.above || (self.negative <= byte && byte < MORE)
    }

    /// Returns the place after the number at the start of the bytes.
    ///
    /// # Errors
    ///
    /// - The bytes do not begin with a number. The error is the place of the byte that has too many bits or is
    ///   followed by too many bytes, or of the byte that is missing.
    fn end(&self, bytes: &[u8]) -> Result<u64, u64> {
        for (number, byte) in bytes.iter().enumerate().take(self.most) {
            let after = number.saturating_add(1);
            if after == self.most && !self.has_last(*byte) {
                return Err(place_at(number));
            }
            if *byte < MORE {
                return Ok(place_at(after));
            }
        }
        Err(place_at(bytes.len()))
    }
}

impl Way {
    fn spelling(self) -> Spelling {
        let (most, above, negative) = match self {
            Way::U32 => (5, 0x10, MORE),
            Way::U64 => (10, 0x02, MORE),
            Way::S32 => (5, 0x08, 0x78),
            Way::S33 => (5, 0x10, 0x70),
            Way::S64 => (10, 0x01, 0x7f),
        };
        Spelling {
            most,
            above,
            negative,
        }
    }

    /// Reads a number with this method.
    fn read(self, cursor: &mut Cursor) -> Result<(), Malformed> {
        match self {
            Way::U32 => {
                cursor.u32()?;
            }
            Way::U64 => {
                cursor.u64()?;
            }
            Way::S32 => {
                cursor.s32()?;
            }
            Way::S33 => {
                cursor.s33()?;
            }
            Way::S64 => {
                cursor.s64()?;
            }
        }
        Ok(())
    }

    /// Reports whether the method reads up to the end of the number at the start of the bytes or, if there is none,
    /// returns the right place.
    fn reads(self, bytes: &[u8]) -> bool {
        let mut cursor = Cursor::new(PLACE, bytes);
        match (self.read(&mut cursor), self.spelling().end(bytes)) {
            (Ok(()), Ok(end)) => cursor.place() == end,
            (Err(fault), Err(place)) => fault.place == place,
            _ => false,
        }
    }
}

/// Reports whether each method does so on these bytes.
fn all_read(bytes: &[u8]) -> bool {
    Way::U32.reads(bytes)
        && Way::U64.reads(bytes)
        && Way::S32.reads(bytes)
        && Way::S33.reads(bytes)
        && Way::S64.reads(bytes)
}

/// Reports whether each method does so on each prefix of the bytes.
fn all_read_each_cut(bytes: &[u8]) -> bool {
    for len in 0..=bytes.len() {
        if !all_read(&bytes[..len]) {
            return false;
        }
    }
    true
}

/// Reports whether each method does so on the single byte, and on each pair that begins with it.
fn all_read_pairs(first: u8) -> bool {
    for second in 0..=u8::MAX {
        if !all_read(&[first, second]) {
            return false;
        }
    }
    all_read(&[first])
}

/// The length of the longest inputs. A number of 64 bits has at most ten bytes.
const LONGEST: usize = 12;

/// Bytes that are repeated before the last one: their lower bits are all 0, all 1, or alternating.
const REPEATED: &[u8] = &[0x80, 0xff, 0xaa];

/// Reports whether each method does so on `len` copies of the repeated byte, followed by any byte and more copies,
/// and on each prefix.
fn all_read_last_bytes(repeated: u8, len: usize) -> bool {
    let mut bytes = [repeated; LONGEST];
    for last in 0..=u8::MAX {
        if let Some(at) = bytes.get_mut(len) {
            *at = last;
        }
        if !all_read_each_cut(&bytes) {
            return false;
        }
    }
    true
}

/// The number of pseudorandom inputs.
const DRAWN: u32 = 5_000;

/// Returns the pseudorandom number after this one.
fn next_drawn(number: u32) -> u32 {
    number.wrapping_mul(1_664_525).wrapping_add(1_013_904_223)
}

/// Returns the byte that a pseudorandom number gives. Most bytes have the continuation bit.
fn drawn_byte(number: u32) -> u8 {
    let [first, second, _, _] = number.to_be_bytes();
    if second % 8 == 0 { first } else { first | 0x80 }
}

/// Returns the pseudorandom bytes for a seed, and the last pseudorandom number.
fn drawn_bytes(seed: u32) -> ([u8; LONGEST], u32) {
    let mut number = seed;
    let mut bytes = [0; LONGEST];
    for byte in &mut bytes {
        number = next_drawn(number);
        *byte = drawn_byte(number);
    }
    (bytes, number)
}

/// Returns the seed of the first pseudorandom input for which a method fails on some prefix, or `None` if there is
/// no such input.
fn first_drawn_that_differs(count: u32) -> Option<u32> {
    let mut number = 1;
    for _ in 0..count {
        let (bytes, last) = drawn_bytes(number);
        if !all_read_each_cut(&bytes) {
            return Some(number);
        }
        number = last;
    }
    None
}

/// Returns the first byte for which a method fails on it, or on a pair that begins with it, or `None` if there is no
/// such byte.
fn first_byte_that_differs() -> Option<u8> {
    for first in 0..=u8::MAX {
        if !all_read_pairs(first) {
            return Some(first);
        }
    }
    None
}

/// Returns the first of these repeated bytes, and the number of its copies, after which a method fails on some last
/// byte, or `None` if there is none.
fn first_repeated_that_differs(bytes: &[u8]) -> Option<(u8, usize)> {
    for repeated in bytes {
        for len in 0..LONGEST {
            if !all_read_last_bytes(*repeated, len) {
                return Some((*repeated, len));
            }
        }
    }
    None
}

#[test]
fn numbers_and_errors_have_their_places(rt: HostRuntime) {
    assert!(rt; all_read(&[]), "no bytes");
    let differs = first_byte_that_differs();
    assert!(rt; differs == None, "up to two bytes, at {differs:?}");
    let differs = first_repeated_that_differs(REPEATED);
    assert!(rt; differs == None, "repeated byte and length {differs:?}");
    let differs = first_drawn_that_differs(DRAWN);
    assert!(rt; differs == None, "pseudorandom input with seed {differs:?}");
}
