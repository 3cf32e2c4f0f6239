//! Comparing the number of bytes of an item with that of its shortest encoding.
ghost use Rattle.std.specs.Prelude.{◌≡◌, ◌-◌};
ghost use Rattle.wasmprinter_hidden.specs.Lengths.{unsigned_len, signed_len};

/// The bytes of an item that are left when those that its shortest encoding needs are taken away.
#[derive(Clone, Copy)]
pub(crate) struct Excess {
    pub(crate) bytes: u64,
}

/// A value with a shortest encoding.
pub(crate) trait Shortest {
    ghost use Rattle.std.specs.Prelude.{ℕ};

    /// The number of bytes of the shortest encoding.
    ghost len: { Self → ℕ };

    /// Takes the bytes of the shortest encoding away.
    fn take_from(&self, excess: &mut Excess)
        ensures { excess.new.bytes ≡ excess.old.bytes - len self.now };
}

impl Excess {
    /// Takes bytes away, or all that are left if they are fewer.
    pub(crate) fn take(&mut self, bytes: u64)
        ensures { self.new.bytes ≡ self.old.bytes - bytes }
    {
        self.bytes = self.bytes.saturating_sub(bytes);
    }
}

/// The base of the digits of numbers in LEB128.
const BASE: u64 = 128;

/// Returns the number of bytes of the shortest encoding of an unsigned integer in LEB128.
pub(crate) fn unsigned_len(number: u64) -> u64
    ensures { result ≡ unsigned_len number }
{
    let mut rest = number;
    let mut len = 1;
    while rest >= BASE {
        rest /= BASE;
        len += 1;
    }
    len
}

/// Returns the number of bytes of the shortest encoding of a signed integer in LEB128. The encoding has one bit more than
/// the integer, or than the integer's complement if the integer is negative.
pub(crate) fn signed_len(number: i64) -> u64
    ensures { result ≡ signed_len number }
{
    let magnitude = number.unsigned_abs();
    if number < 0 {
        unsigned_len(2 * (magnitude - 1))
    } else {
        unsigned_len(2 * magnitude)
    }
}

impl Shortest for u32 {
    ghost use Rattle.wasmprinter_hidden.specs.Lengths.{unsigned_len};

    ghost len = { unsigned_len };

    fn take_from(&self, excess: &mut Excess) {
        excess.take(unsigned_len(u64::from(*self)));
    }
}

impl Shortest for u64 {
    ghost use Rattle.wasmprinter_hidden.specs.Lengths.{unsigned_len};

    ghost len = { unsigned_len };

    fn take_from(&self, excess: &mut Excess) {
        excess.take(unsigned_len(*self));
    }
}

impl Shortest for i32 {
    ghost use Rattle.wasmprinter_hidden.specs.Lengths.{signed_len};

    ghost len = { signed_len };

    fn take_from(&self, excess: &mut Excess) {
        excess.take(signed_len(i64::from(*self)));
    }
}

impl Shortest for i64 {
    ghost use Rattle.wasmprinter_hidden.specs.Lengths.{signed_len};

    ghost len = { signed_len };

    fn take_from(&self, excess: &mut Excess) {
        excess.take(signed_len(*self));
    }
}
