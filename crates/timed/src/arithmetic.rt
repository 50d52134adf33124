// The arithmetic of complex numbers, each number by its two parts.
ghost use Rattle.std.specs.Prelude.{◌≡◌};
ghost use Rattle.complex.specs.Arithmetic.{times, over};
ghost use Rattle.complex.specs.Zero.{is_zero, is_one};
ghost use Rattle.timed.specs.Promises.{pair};

use complex::Complex;

// (a+bi)(c+di): the real part, and the imaginary one through `im`.
#[unsafe(no_mangle)]
pub extern "C" fn timed_mul(a: f64, b: f64, c: f64, d: f64, im: &mut f64) -> f64
    ensures { pair result im.new ≡ times (pair a b) (pair c d) }
{
    let z = Complex { re: a, im: b } * Complex { re: c, im: d };
    *im = z.im;
    z.re
}

// (a+bi)/(c+di), likewise.
#[unsafe(no_mangle)]
pub extern "C" fn timed_div(a: f64, b: f64, c: f64, d: f64, im: &mut f64) -> f64
    ensures { pair result im.new ≡ over (pair a b) (pair c d) }
{
    let z = Complex { re: a, im: b } / Complex { re: c, im: d };
    *im = z.im;
    z.re
}

#[unsafe(no_mangle)]
pub extern "C" fn timed_is_zero(re: f64, im: f64) -> bool
    ensures { result ≡ is_zero (pair re im) }
{
    complex::zero::is_zero(Complex { re, im })
}

#[unsafe(no_mangle)]
pub extern "C" fn timed_is_one(re: f64, im: f64) -> bool
    ensures { result ≡ is_one (pair re im) }
{
    complex::zero::is_one(Complex { re, im })
}
