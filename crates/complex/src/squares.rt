// Whether a sum of two squares is below T squared, exactly and in 128 bits. One square after the other is formed and added to
// one sum, cut off at the square of T's last place: what falls below it cannot change the answer (proofs/Cut.antt says why).
ghost use Rattle.std.specs.Prelude.{◌≡◌, ◌+◌, ◌-◌, ◌%◌, ◌^◌, ◌<◌};
ghost use Rattle.complex.specs.Zero.{magnitude, threshold, squares_below};
ghost use Rattle.complex.specs.Parts.{magnitude_of_bits, cut_square};

use super::parts::{Part, part_of};

// T is 0x1B_7CDF_D9D7_BDBB * 2^988 least subnormals, so its scale is 988 + 53.
const T_SCALE: u64 = 1041;

// The square of that significand (proofs/Decide.antt, `t_squared`).
const T_SQUARED: u128 = 0x2F3_9421_9248_447B_2941_42B7_A699;

// The square of a part, cut off at the square of T's last place. A significand has 53 bits, so from 64 places on none of it is left.
fn cut_square(part: Part) -> u128
    ensures { result ≡ cut_square part }
{
    let n = part.significand as u128;
    let k = T_SCALE.saturating_sub(part.scale);
    if k < 64 { n * n >> (2 * k) } else { 0 }
}

// Of two magnitudes below T, given by their bits. The signs are left out.
pub fn squares_below(re: u64, im: u64) -> bool
    ensures { magnitude_of_bits (re % 2 ^ 63) < magnitude threshold → magnitude_of_bits (im % 2 ^ 63) < magnitude threshold
        → result ≡ squares_below (magnitude_of_bits (re % 2 ^ 63)) (magnitude_of_bits (im % 2 ^ 63)) }
{
    let mut sum = cut_square(part_of(re));
    sum += cut_square(part_of(im));
    sum < T_SQUARED
}
