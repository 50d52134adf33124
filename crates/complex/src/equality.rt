// The two equalities: identical, by bits with one NaN, and equal, `==` of the Rust: as floats, so
// zeros of either sign are equal, or both NaN.
ghost use Rattle.std.specs.Prelude.{◌≡◌};
ghost use Rattle.complex.specs.Equality.{identical_doubles, equal_doubles};
ghost use Rattle.complex.specs.Equality as Equality;

use super::Complex;
use super::bits::{class_of, to_bits};

pub fn identical_doubles(x: f64, y: f64) -> bool
    ensures { result ≡ identical_doubles x y }
{
    to_bits(x) == to_bits(y)
}

pub fn equal_doubles(x: f64, y: f64) -> bool
    ensures { result ≡ equal_doubles x y }
{
    class_of(x) == class_of(y)
}

pub fn identical(x: Complex, y: Complex) -> bool
    ensures { result ≡ Equality.identical x y }
{
    identical_doubles(x.re, y.re) && identical_doubles(x.im, y.im)
}

pub fn equal(x: Complex, y: Complex) -> bool
    ensures { result ≡ Equality.equal x y }
{
    equal_doubles(x.re, y.re) && equal_doubles(x.im, y.im)
}
