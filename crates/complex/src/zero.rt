// The zero test, exact, and the one test (01, "Zero, one").
ghost use Rattle.std.specs.Prelude.{◌≡◌};
ghost use Rattle.complex.specs.Zero.{is_zero, is_one};

use super::Complex;
use super::bits::magnitude_bits;
use super::squares::squares_below;

const T_BITS: u64 = 0x3DDB_7CDF_D9D7_BDBB;

const HALF_T_BITS: u64 = 0x3DCB_7CDF_D9D7_BDBB;

// A part from T on is too big, and so are an infinity's and the NaN's bits; two parts below half of
// T are small enough. Only between the two are the squares formed. A function of its own in the archive: its callers are many.
#[inline(never)]
pub fn is_zero(z: Complex) -> bool
    ensures { result ≡ is_zero z }
{
    let re = magnitude_bits(z.re);
    let im = magnitude_bits(z.im);
    if T_BITS <= re || T_BITS <= im {
        return false;
    }
    if re < HALF_T_BITS && im < HALF_T_BITS {
        return true;
    }
    squares_below(re, im)
}

pub fn is_one(z: Complex) -> bool
    ensures { result ≡ is_one z }
{
    let im = z.im;
    let re = z.re - 1.0;
    is_zero(Complex { re, im })
}
