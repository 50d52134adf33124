// A magnitude as a significand of 53 bits and a scale, which is read from its highest set bit,
// subnormals included.
ghost use Rattle.std.specs.Prelude.{◌≡◌, ◌-◌, ◌%◌, ◌^◌};
ghost use Rattle.complex.specs.Parts.{magnitude_of_bits, Scaled};

// The weight of the sign.
const SIGN: u64 = 0x8000_0000_0000_0000;

// The weight of the exponent's field, and of the leading digit that a normal number does not write.
const HIDDEN: u64 = 0x10_0000_0000_0000;

// The magnitude significand * 2^scale / 2^53. Unless it is 0, bit 52 of the significand is set.
#[derive(Clone, Copy)]
pub struct Part {
    pub significand: u64,
    pub scale: u64,
}

// The magnitude of the double with these bits, the sign left out. A field of 0 counts as one of 1; so where the exponent is taken from the
// field, 1 is left of a normal number's and 0 of a subnormal one's: the leading digit that is not written.
pub fn part_of(bits: u64) -> Part
    ensures { Scaled (magnitude_of_bits (bits % 2 ^ 63)) result }
{
    let magnitude = bits % SIGN;
    let exponent = (magnitude / HIDDEN).saturating_sub(1);
    let digits = magnitude - exponent * HIDDEN;
    let zeros = u64::leading_zeros(digits) as u64;
    Part {
        significand: digits << (zeros - 11),
        scale: exponent + (64 - zeros),
    }
}
