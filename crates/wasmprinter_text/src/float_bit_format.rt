//! The representation of floats as bits (section 4.3 of the WebAssembly Core Specification, "Representations").
ghost use Rattle.std.specs.Prelude.{◌≡◌, ◌<◌, ◌≤◌, ◌^◌};
ghost use Rattle.wasmprinter_spec.specs.Float.{double, bias, greatest_exponent, sign_bit, canonical_payload};
ghost use Rattle.wasmprinter_spec.specs.FloatText.{digit_count, filled_fraction, shift, shifted_fraction};
ghost use Rattle.wasmprinter_text.specs.Formats.{width_of};

use crate::integers::power;

/// A floating-point format.
#[derive(Clone, Copy)]
pub enum Format {
    /// 32 bits: a sign bit, 8 bits of exponent and 23 bits of fraction.
    Single,
    /// 64 bits: a sign bit, 11 bits of exponent and 52 bits of fraction.
    Double,
}

impl Format {
    /// Returns the number of bits of the fraction, which is at most that of a 64-bit float (`few`).
    pub fn fraction_bits(self) -> u32
        ensures is { result ≡ (width_of self).fraction }
        ensures few { result ≤ double.fraction }
    {
        match self {
            Format::Single => 23,
            Format::Double => 52,
        }
    }

    /// Returns the number of hexadecimal digits that hold a fraction, which is at most that of a 64-bit float (`few`).
    pub fn digit_count(self) -> u32
        ensures is { result ≡ digit_count (width_of self) }
        ensures few { result ≤ digit_count double }
    {
        match self {
            Format::Single => 6,
            Format::Double => 13,
        }
    }

    /// Returns the bias: the number that is subtracted from the bits of the exponent. It is at most that of a 64-bit
    /// float (`small`).
    pub fn bias(self) -> u64
        ensures is { result ≡ bias (width_of self) }
        ensures small { result ≤ bias double }
    {
        match self {
            Format::Single => 127,
            Format::Double => 1023,
        }
    }

    /// Returns the greatest exponent, as the bits encode it: that of infinity and of NaN.
    pub fn greatest_exponent(self) -> u64
        ensures { result ≡ greatest_exponent (width_of self) }
    {
        match self {
            Format::Single => 0xff,
            Format::Double => 0x7ff,
        }
    }

    /// Returns the payload of a canonical NaN.
    pub fn canonical_payload(self) -> u64
        ensures { result ≡ canonical_payload (width_of self) }
    {
        match self {
            Format::Single => 0x40_0000,
            Format::Double => 0x8_0000_0000_0000,
        }
    }

    /// Returns the bits with only the sign bit set.
    pub fn sign_bit(self) -> u64
        ensures { result ≡ sign_bit (width_of self) }
    {
        match self {
            Format::Single => 0x8000_0000,
            Format::Double => 0x8000_0000_0000_0000,
        }
    }

    /// Returns the fraction, padded with zero bits at its end to whole hexadecimal digits. It fits in
    /// [`digit_count`](Self::digit_count) digits (`below`).
    pub fn filled_fraction(self, fraction: u64) -> u64
        requires { fraction < 2 ^ (width_of self).fraction }
        ensures is { result ≡ filled_fraction (width_of self) fraction }
        ensures below { result < 16 ^ digit_count (width_of self) }
    {
        fraction * power(4 * self.digit_count() - self.fraction_bits())
    }

    /// Returns the number of bits by which a subnormal fraction is shifted left, until its highest 1 is directly above
    /// the bits of the fraction. It is at most the number of fraction bits of a 64-bit float (`few`).
    pub fn shift(self, fraction: u64) -> u32
        requires some { 0 < fraction }
        requires below { fraction < 2 ^ (width_of self).fraction }
        ensures is { result ≡ shift (width_of self) fraction }
        ensures few { result ≤ double.fraction }
    {
        self.fraction_bits() - fraction.ilog2()
    }

    /// Returns a subnormal fraction after the shift by [`shift`](Self::shift), without its leading 1. It fits in the
    /// bits of the fraction (`below`).
    pub fn shifted_fraction(self, fraction: u64) -> u64
        requires some { 0 < fraction }
        requires below { fraction < 2 ^ (width_of self).fraction }
        ensures is { result ≡ shifted_fraction (width_of self) fraction }
        ensures below { result < 2 ^ (width_of self).fraction }
    {
        fraction * power(self.shift(fraction)) - power(self.fraction_bits())
    }
}
