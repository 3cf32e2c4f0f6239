//! Encoding of modules: bytes, numbers in LEB128, names, lists and sections.

use std::alloc::{AllocError, Global};

/// The number of value bits in a byte of LEB128.
const BITS: u32 = 7;

/// The bit of a byte of LEB128 that more bytes follow.
const MORE: u8 = 0x80;

/// The sign bit in the last byte of a signed LEB128 number.
const SIGN: u8 = 0x40;

/// The maximum number of bytes of a 64-bit number in LEB128.
const MOST_BYTES: u32 = 10;

/// A buffer of encoded bytes.
#[derive(Drop)]
pub struct Encoder {
    bytes: Vec<u8>,
}

impl Encoder {
    /// Returns an empty buffer.
    pub fn new(alloc: Global) -> Encoder {
        Encoder {
            bytes: Vec::new(alloc),
        }
    }

    /// Returns the bytes.
    pub fn bytes(&self) -> &[u8] {
        &self.bytes
    }

    /// Returns the number of bytes.
    pub fn len(&self) -> usize {
        self.bytes.len()
    }

    /// Removes all bytes, and keeps the capacity.
    pub fn clear(&mut self) {
        self.bytes.clear();
    }

    /// Appends a byte.
    pub fn byte(&mut self, byte: u8) -> Result<(), AllocError> {
        self.bytes.push(byte)?;
        Ok(())
    }

    /// Appends bytes unchanged.
    pub fn all(&mut self, bytes: &[u8]) -> Result<(), AllocError> {
        self.bytes.extend_from_slice(bytes)
    }

    /// Appends an unsigned number.
    pub fn unsigned(&mut self, number: u64) -> Result<(), AllocError> {
        let mut left = number;
        for _ in 0..MOST_BYTES {
            let low = (left & u64::from(!MORE)) as u8;
            left >>= BITS;
            if left == 0 {
                return self.byte(low);
            }
            self.byte(low | MORE)?;
        }
        Ok(())
    }

    /// Appends a count or an index.
    pub fn index(&mut self, index: u32) -> Result<(), AllocError> {
        self.unsigned(u64::from(index))
    }

    /// Appends a signed number.
    pub fn signed(&mut self, number: i64) -> Result<(), AllocError> {
        let mut left = number;
        for _ in 0..MOST_BYTES {
            let low = (left & i64::from(!MORE)) as u8;
            let ends = if low & SIGN == 0 { 0 } else { -1 };
            left >>= BITS;
            if left == ends {
                return self.byte(low);
            }
            self.byte(low | MORE)?;
        }
        Ok(())
    }

    /// Appends bytes after their count.
    pub fn sized(&mut self, bytes: &[u8]) -> Result<(), AllocError> {
        self.unsigned(bytes.len() as u64)?;
        self.all(bytes)
    }

    /// Appends a section with this id.
    pub fn section(&mut self, number: u8, content: &Encoder) -> Result<(), AllocError> {
        self.section_of(number, content.bytes())
    }

    /// Appends a section with this id and these bytes.
    pub fn section_of(&mut self, number: u8, content: &[u8]) -> Result<(), AllocError> {
        self.byte(number)?;
        self.sized(content)
    }

    /// Appends a custom section.
    pub fn custom(&mut self, alloc: Global, name: &[u8], data: &[u8]) -> Result<(), AllocError> {
        let mut content = Encoder::new(alloc);
        content.sized(name)?;
        content.all(data)?;
        self.section(0, &content)
    }
}
