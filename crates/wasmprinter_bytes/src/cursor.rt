//! A cursor over the bytes of a module, with integers in LEB128 and names (section 5.2 of the WebAssembly Core
//! Specification, "Integers" and "Names").
ghost use Rattle.std.specs.Prelude.{◌≡◌, ◌<◌, ◌≤◌, ◌^◌, ◌+◌, ◌-◌, ◌*◌, ◌↔◌, [], length, take};
ghost use Rattle.std.specs.Prelude.{slice_get, nat_lt, Some, IfOk, IfSome, IfNone, IsTrue};
ghost use Rattle.std.specs.Prelude.{pos, neg_ℤ, negsuc, ◌+ℤ◌, ◌*ℤ◌, ◌≤ℤ◌, ◌<ℤ◌};
ghost use Rattle.wasmprinter_spec.specs.Grammar.{byte};
ghost use Rattle.wasmprinter_spec.specs.Sized.{take_bytes};
ghost use Rattle.wasmprinter_spec.specs.Leb.{unsigned, signed};
ghost use Rattle.wasmprinter_spec.specs.Name.{u32 as u32_grammar, name};
ghost use Rattle.wasmprinter_bytes.specs.Reads.{Decodes, end_of};

use crate::Malformed;
use std::marker::Model;

/// The number of value bits in one byte of LEB128.
const BITS: u32 = 7;

/// A byte of LEB128 that is at least this has another byte after it.
const MORE: u8 = 0x80;

/// The last byte of a signed LEB128 number encodes a negative number if it is at least this.
const SIGN: u8 = 0x40;

/// The remaining bytes, and the place of the first of them.
///
/// A read never moves the end. After a failed read, the position is unspecified: between the old position and the end.
#[derive(Drop)]
pub struct Cursor<'a> {
    place: u64,
    rest: &'a [u8],
}

impl<'a> Model for Cursor<'a> {
    ghost use Rattle.std.specs.Prelude.{◌<◌, ◌^◌, ◌+◌, length};
    ghost use Rattle.wasmprinter_spec.specs.Grammar.{Input};

    ghost Value = { Input };

    ghost view = { λ c. record { place = c.place; bytes = c.rest.now } };

    ghost invariant = { λ c. c.place + length c.rest.now < 2 ^ 64 };
}

/// Reports whether a seven-bit number fits in `bits` bits.
#[tactic(auto, using(crate::proofs::Powers::small_fits))]
fn has_bits(low: u8, bits: u32) -> bool
    requires { low < 128 }
    ensures { result ≡ nat_lt low (2 ^ bits) }
{
    bits >= BITS || low < 1 << bits
}

/// Returns the negative number whose seven low bits are `byte`.
fn negative(byte: u8) -> i64
    requires { byte < 128 }
    ensures { result ≡ negsuc (127 - byte) }
{
    i64::from(byte) - i64::from(MORE)
}

/// Returns the number with the low seven bits `low` and the bits `high` above them.
fn with_low_bits(low: u8, high: u64) -> u64
    requires seven { low < 128 }
    requires above { high < 2 ^ 57 }
    ensures { result ≡ low + 128 * high }
{
    u64::from(low) + u64::from(MORE) * high
}

/// Returns the signed number with the low seven bits `low` and the signed number `high` above them.
fn with_low_bits_signed(low: u8, high: i64) -> i64
    requires seven { low < 128 }
    requires above { neg_ℤ (pos (2 ^ 56)) ≤ℤ high }
    requires below { high <ℤ pos (2 ^ 56) }
    ensures { result ≡ pos low +ℤ pos 128 *ℤ high }
{
    i64::from(low) + i64::from(MORE) * high
}

impl<'a> Cursor<'a> {
    /// Returns a cursor at the first of `bytes`, whose place is `place`. The place of their end must be below 2^64.
    pub fn new(place: u64, bytes: &'a [u8]) -> Self
        requires { place + length bytes.now < 2 ^ 64 }
        ensures { result ≡ record { place = place; bytes = bytes.now } }
    {
        Cursor { place, rest: bytes }
    }

    /// Returns the place of the next byte: a byte offset from the start of the module.
    pub fn place(&self) -> u64
        ensures { result ≡ self.now.place }
    {
        self.place
    }

    /// Returns the place after the last byte: a byte offset from the start of the module.
    /// The last byte is that of this cursor, which may end before the module does.
    pub fn end(&self) -> u64
        ensures { result ≡ end_of self.now }
    {
        self.place + self.len() as u64
    }

    /// Returns the number of remaining bytes.
    pub fn len(&self) -> usize
        ensures { result ≡ length self.now.bytes }
    {
        self.rest.len()
    }

    /// Reports whether no byte remains.
    pub fn is_empty(&self) -> bool
        ensures { IsTrue result ↔ (self.now.bytes ≡ []) }
    {
        self.rest.is_empty()
    }

    /// Returns the remaining bytes.
    pub fn rest(&self) -> &'a [u8]
        ensures { result.now ≡ self.now.bytes }
    {
        self.rest
    }

    /// Returns a second cursor at the same place.
    /// It has the same bytes. Every cursor ends at a place below 2^64 (`fits`).
    pub fn fork(&self) -> Cursor<'a>
        ensures same { result ≡ self.now }
        ensures fits { end_of self.now < 2 ^ 64 }
    {
        Cursor {
            place: self.place,
            rest: self.rest,
        }
    }

    /// Returns a second cursor, over the next `len` bytes only. At least that many bytes must remain.
    pub fn front(&self, len: usize) -> Cursor<'a>
        requires { len ≤ length self.now.bytes }
        ensures { result ≡ record { place = self.now.place; bytes = take len self.now.bytes } }
    {
        Cursor {
            place: self.place,
            rest: &self.rest[..len],
        }
    }

    /// Returns the next byte without advancing, or `None` if no byte remains.
    pub fn peek(&self) -> Option<u8>
        ensures { result ≡ slice_get self.now.bytes 0 }
    {
        self.rest.first().copied()
    }

    /// Advances by one byte; `rest` is the bytes after it.
    #[inline(always)]
    fn go_on(&mut self, rest: &'a [u8])
        requires { length rest.now + 1 ≡ length self.now.bytes }
        ensures { self.new ≡ record { place = self.old.place + 1; bytes = rest.now } }
    {
        self.place += 1;
        self.rest = rest;
    }

    /// Reads the next byte. On `Ok`, the cursor is then after it.
    ///
    /// # Errors
    ///
    /// `Malformed` if no byte remains, with the place where the bytes end. The cursor is then where it was.
    pub fn u8(&mut self) -> Result<u8, Malformed>
        ensures { Decodes (λ b. b) byte.parse self.old result self.new }
    {
        match self.rest.split_first() {
            Some((byte, rest)) => {
                self.go_on(rest);
                Ok(*byte)
            }
            None => Err(Malformed { place: self.place }),
        }
    }

    /// Reads the next `len` bytes. On `Ok`, the cursor is then after them. After an error, the cursor may have
    /// advanced.
    ///
    /// # Errors
    ///
    /// `Malformed` if fewer bytes remain, with the place of the next byte. The contract only bounds the place, from
    /// that of the next byte to the end of the bytes.
    pub fn take(&mut self, len: usize) -> Result<&'a [u8], Malformed>
        ensures { Decodes (λ b. b.now) (take_bytes len).parse self.old result self.new }
    {
        if self.len() < len {
            return Err(Malformed { place: self.place });
        }
        let (bytes, rest) = self.rest.split_at(len);
        self.place += len as u64;
        self.rest = rest;
        Ok(bytes)
    }

    /// Returns a cursor over the next `len` bytes only, at the same place (`place`), and advances past them. After an
    /// error, the cursor may have advanced.
    ///
    /// # Errors
    ///
    /// `Malformed` if fewer bytes remain, with the place of the next byte. The contract only bounds the place, from
    /// that of the next byte to the end of the bytes.
    pub fn part(&mut self, len: usize) -> Result<Cursor<'a>, Malformed>
        ensures decodes { Decodes (λ c. c.bytes) (take_bytes len).parse self.old result self.new }
        ensures place { IfOk result (λ c. c.place ≡ self.old.place) }
    {
        let place = self.place;
        let rest = self.take(len)?;
        Ok(Cursor { place, rest })
    }

    /// Reads an unsigned number of `bits` bits, in at most ceil(`bits` / 7) bytes.
    fn unsigned(&mut self, bits: u32) -> Result<u64, Malformed>
        requires { bits ≤ 64 }
        ensures decodes { Decodes (λ n. n) (unsigned bits).parse self.old result self.new }
        ensures range { IfOk result (λ n. n < 2 ^ bits) }
    {
        let place = self.place;
        let byte = self.u8()?;
        if byte < MORE {
            if has_bits(byte, bits) {
                Ok(u64::from(byte))
            } else {
                Err(Malformed { place })
            }
        } else if bits > BITS {
            let high = self.unsigned(bits - BITS)?;
            Ok(with_low_bits(byte - MORE, high))
        } else {
            Err(Malformed { place })
        }
    }

    /// Reads a signed number of `bits` bits, in at most ceil(`bits` / 7) bytes.
    fn signed(&mut self, bits: u32) -> Result<i64, Malformed>
        requires least { 1 ≤ bits }
        requires most { bits ≤ 64 }
        ensures decodes { Decodes (λ n. n) (signed bits).parse self.old result self.new }
        ensures above { IfOk result (λ n. neg_ℤ (pos (2 ^ (bits - 1))) ≤ℤ n) }
        ensures below { IfOk result (λ n. n <ℤ pos (2 ^ (bits - 1))) }
    {
        let place = self.place;
        let byte = self.u8()?;
        if byte < SIGN {
            if has_bits(byte, bits - 1) {
                Ok(i64::from(byte))
            } else {
                Err(Malformed { place })
            }
        } else if byte < MORE {
            if has_bits(MORE - 1 - byte, bits - 1) {
                Ok(negative(byte))
            } else {
                Err(Malformed { place })
            }
        } else if bits > BITS {
            let high = self.signed(bits - BITS)?;
            Ok(with_low_bits_signed(byte - MORE, high))
        } else {
            Err(Malformed { place })
        }
    }

    /// Reads the next byte if it is below `limit`. This is the fast path for a LEB128 number of one byte.
    #[inline(always)]
    fn single(&mut self, limit: u8) -> Option<u8>
        ensures reads { IfSome result (λ b. byte.parse self.old ≡ Some (b, self.new)) }
        ensures low { IfSome result (λ b. b < limit) }
        ensures stays { IfNone result (self.new ≡ self.old) }
        ensures missed { IfNone result (IfSome (slice_get self.old.bytes 0) (λ b. limit ≤ b)) }
        ensures end { end_of self.new ≡ end_of self.old }
        ensures forward { self.old.place ≤ self.new.place }
    {
        match self.rest.split_first() {
            Some((byte, rest)) if *byte < limit => {
                self.go_on(rest);
                Some(*byte)
            }
            _ => None,
        }
    }

    /// Reads an unsigned 32-bit number in LEB128. On `Ok`, the cursor is then after its last byte.
    /// After an error, the cursor may have advanced.
    ///
    /// # Errors
    ///
    /// `Malformed` if the bytes do not encode one, with the place of the first byte that is not
    /// allowed, or of the end of the bytes. The contract only bounds the place, from that of the next byte to the end
    /// of the bytes.
    pub fn u32(&mut self) -> Result<u32, Malformed>
        ensures { Decodes (λ n. n) u32_grammar.parse self.old result self.new }
    {
        if let Some(byte) = self.single(MORE) {
            return Ok(u32::from(byte));
        }
        let number = self.unsigned(u32::BITS)?;
        Ok(number as u32)
    }

    /// Reads an unsigned 64-bit number in LEB128. On `Ok`, the cursor is then after its last byte.
    /// After an error, the cursor may have advanced.
    ///
    /// # Errors
    ///
    /// As [`Cursor::u32`].
    pub fn u64(&mut self) -> Result<u64, Malformed>
        ensures { Decodes (λ n. n) (unsigned 64).parse self.old result self.new }
    {
        if let Some(byte) = self.single(MORE) {
            return Ok(u64::from(byte));
        }
        self.unsigned(u64::BITS)
    }

    /// Reads a signed 32-bit number in LEB128. On `Ok`, the cursor is then after its last byte.
    /// After an error, the cursor may have advanced.
    ///
    /// # Errors
    ///
    /// As [`Cursor::u32`].
    pub fn s32(&mut self) -> Result<i32, Malformed>
        ensures { Decodes (λ n. n) (signed 32).parse self.old result self.new }
    {
        if let Some(byte) = self.single(SIGN) {
            return Ok(i32::from(byte));
        }
        let number = self.signed(i32::BITS)?;
        Ok(number as i32)
    }

    /// Reads a signed 33-bit number in LEB128: at least -2^32 (`above`) and below 2^32 (`below`). On `Ok`, the cursor
    /// is then after its last byte. After an error, the cursor may have advanced.
    ///
    /// # Errors
    ///
    /// As [`Cursor::u32`].
    pub fn s33(&mut self) -> Result<i64, Malformed>
        ensures decodes { Decodes (λ n. n) (signed 33).parse self.old result self.new }
        ensures above { IfOk result (λ n. neg_ℤ (pos (2 ^ 32)) ≤ℤ n) }
        ensures below { IfOk result (λ n. n <ℤ pos (2 ^ 32)) }
    {
        self.signed(i32::BITS + 1)
    }

    /// Reads a signed 64-bit number in LEB128. On `Ok`, the cursor is then after its last byte.
    /// After an error, the cursor may have advanced.
    ///
    /// # Errors
    ///
    /// As [`Cursor::u32`].
    pub fn s64(&mut self) -> Result<i64, Malformed>
        ensures { Decodes (λ n. n) (signed 64).parse self.old result self.new }
    {
        self.signed(i64::BITS)
    }

    /// Reads a name: a length in LEB128, and that many bytes of UTF-8, which are the result. On `Ok`, the cursor is
    /// then after them. After an error, the cursor may have advanced.
    ///
    /// # Errors
    ///
    /// - If the length is not encoded, as [`Cursor::u32`].
    /// - `Malformed` if too few bytes follow, with the place after the length.
    /// - `Malformed` if the bytes are not UTF-8, with the place of the length.
    ///
    /// The contract only bounds the place, from that of the length to the end of the bytes.
    pub fn name(&mut self) -> Result<&'a str, Malformed>
        ensures { Decodes (λ s. s.now) name.parse self.old result self.new }
    {
        let place = self.place;
        let len = self.u32()?;
        let bytes = self.take(len as usize)?;
        match str::from_utf8(bytes) {
            Ok(text) => Ok(text),
            Err(_) => Err(Malformed { place }),
        }
    }
}
