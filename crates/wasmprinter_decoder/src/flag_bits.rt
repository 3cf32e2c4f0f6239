//! Flags in the bits of a number.
ghost use Rattle.std.specs.Prelude.{◌≡◌, ◌<◌};
ghost use Rattle.wasmprinter_spec.specs.Binary.Limits.{has_bit as bit_of};

/// Reports whether the bit with this number is set in the flags. Bit 0 is the lowest; `bit` must be below 32.
pub fn has_bit(flags: u32, bit: u32) -> bool
    requires { bit < 32 }
    ensures { result ≡ bit_of bit flags }
{
    flags >> bit & 1 == 1
}
