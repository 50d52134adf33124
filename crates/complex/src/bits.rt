// A double and its 64 bits, with one pattern for every NaN, so that doubles are stored, written and
// compared as whole numbers; and one number for each class of equal doubles.
ghost use Rattle.std.specs.Prelude.{◌≡◌, ◌%◌, ◌^◌};
ghost use Rattle.complex.specs.Bits.{bits_of, double_of};
ghost use Rattle.complex.specs.Classes.{class_of, class_of_bits};

// Where bits without the sign pass the infinity's they are a NaN's.
const INFINITY_BITS: u64 = 0x7FF0_0000_0000_0000;

const SIGN: u64 = 0x8000_0000_0000_0000;

// The bits of x; every NaN gives 7FF8000000000000.
pub fn to_bits(x: f64) -> u64
    ensures { result ≡ bits_of x }
{
    if x != x {
        return 0x7FF8_0000_0000_0000;
    }
    f64::to_bits(x)
}

// The bits of x without the sign: they rise with the magnitude.
pub fn magnitude_bits(x: f64) -> u64
    ensures { result ≡ bits_of x % 2 ^ 63 }
{
    to_bits(x) % SIGN
}

// The double with these bits; every NaN pattern gives the NaN.
pub fn from_bits(bits: u64) -> f64
    ensures { result ≡ double_of bits }
{
    if INFINITY_BITS < bits % SIGN {
        return 0.0 / 0.0;
    }
    f64::from_bits(bits)
}

// The class of the double with these canonical bits: -0 counts as 0.
pub fn class_of_bits(bits: u64) -> u64
    ensures { result ≡ class_of_bits bits }
{
    if bits == SIGN {
        return 0;
    }
    bits
}

// The number of the class of doubles equal to x.
pub fn class_of(x: f64) -> u64
    ensures { result ≡ class_of x }
{
    class_of_bits(to_bits(x))
}
