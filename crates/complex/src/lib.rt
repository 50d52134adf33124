// Complex numbers as pairs of doubles, by value, with num_complex's arithmetic as 01 writes it out.
// Each operation on floats rounds once; operands stand in 01's order.

#![tactic(auto)]

ghost use Rattle.std.specs.Prelude.{◌≡◌};
ghost use Rattle.complex.specs.Arithmetic.{plus, minus, times, over, negated};

use std::ops::{Add, Div, Mul, Neg, Sub};

pub mod bits;
pub mod constants;
pub mod equality;
mod parts;
mod squares;
pub mod zero;

#[derive(Clone, Copy)]
pub struct Complex {
    pub re: f64,
    pub im: f64,
}

impl Add for Complex {
    type Output = Complex;

    ghost add_gives = { λ x y z. z ≡ plus x y };

    fn add(self, y: Complex) -> Complex {
        Complex {
            re: self.re + y.re,
            im: self.im + y.im,
        }
    }
}

impl Sub for Complex {
    type Output = Complex;

    ghost sub_gives = { λ x y z. z ≡ minus x y };

    fn sub(self, y: Complex) -> Complex {
        Complex {
            re: self.re - y.re,
            im: self.im - y.im,
        }
    }
}

impl Mul for Complex {
    type Output = Complex;

    ghost mul_gives = { λ x y z. z ≡ times x y };

    fn mul(self, y: Complex) -> Complex {
        Complex {
            re: self.re * y.re - self.im * y.im,
            im: self.re * y.im + self.im * y.re,
        }
    }
}

impl Div for Complex {
    type Output = Complex;

    ghost div_gives = { λ x y z. z ≡ over x y };

    fn div(self, y: Complex) -> Complex {
        let n = y.re * y.re + y.im * y.im;
        Complex {
            re: (self.re * y.re + self.im * y.im) / n,
            im: (self.im * y.re - self.re * y.im) / n,
        }
    }
}

impl Neg for Complex {
    type Output = Complex;

    ghost neg_gives = { λ x z. z ≡ negated x };

    fn neg(self) -> Complex {
        Complex {
            re: -self.re,
            im: -self.im,
        }
    }
}
