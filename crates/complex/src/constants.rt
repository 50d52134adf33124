// The constants that the port uses. Each contract gives their bits.
ghost use Rattle.std.specs.Prelude.{◌≡◌};
ghost use Rattle.complex.specs.Constants.{zero_number, one_number, two_number, minus_one_number, pi_number, nan_number};
ghost use Rattle.complex.specs.Zero as Zero;

use super::Complex;

pub fn zero() -> Complex
    ensures { result ≡ zero_number }
{
    Complex { re: 0.0, im: 0.0 }
}

pub fn one() -> Complex
    ensures { result ≡ one_number }
{
    Complex { re: 1.0, im: 0.0 }
}

pub fn two() -> Complex
    ensures { result ≡ two_number }
{
    Complex { re: 2.0, im: 0.0 }
}

// The negation of one, so its imaginary part is -0.
pub fn minus_one() -> Complex
    ensures { result ≡ minus_one_number }
{
    Complex { re: -1.0, im: -0.0 }
}

pub fn pi() -> Complex
    ensures { result ≡ pi_number }
{
    Complex {
        re: 3.141592653589793,
        im: 0.0,
    }
}

pub fn not_a_number() -> Complex
    ensures { result ≡ nan_number }
{
    Complex {
        re: 0.0 / 0.0,
        im: 0.0,
    }
}

// T of the zero test.
pub fn threshold() -> f64
    ensures { result ≡ Zero.threshold }
{
    1e-10
}
