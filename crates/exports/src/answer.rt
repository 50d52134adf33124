// Answers as six words, for languages that know numbers and bytes alone.
ghost use Rattle.std.specs.Prelude.{◌≡◌, [], ◌∷◌};
ghost use Rattle.exports.specs.Words.{Answered, words, refusal_words, evaluated_words, real_words, written_words, simplified_words, checked_words};

use calls::Simplified;
use complex::Complex;
use complex::bits::to_bits;
use expression::refusal::Refusal;

fn put_words(
    answer: &mut [u64; 6],
    number: u64,
    detail: u64,
    re: u64,
    im: u64,
    re2: u64,
    im2: u64,
) -> u64
    ensures { Answered (words number detail re im re2 im2) result answer.new }
{
    *answer = [number, detail, re, im, re2, im2];
    number
}

// The refusal's number, and what it carries; the operations are 1 sin, 2 cos, 3 exp, 4 sqrt, 5 pow.
fn put_refusal(answer: &mut [u64; 6], why: Refusal) -> u64
    ensures { Answered (refusal_words why) result answer.new }
{
    let Refusal::Need(operation, x, y) = why else {
        return put_words(answer, why.number(), why.place(), 0, 0, 0, 0);
    };
    put_words(
        answer,
        why.number(),
        u64::from(operation),
        to_bits(x.re),
        to_bits(x.im),
        to_bits(y.re),
        to_bits(y.im),
    )
}

// A function for each kind of answer: no trait in place of them, since each `Ok` has words of its own, and a trait would have as many impls
// with the same clauses.
pub fn put_evaluated(answer: &mut [u64; 6], value: Result<Complex, Refusal>) -> u64
    ensures { Answered (evaluated_words value) result answer.new }
{
    match value {
        Ok(z) => put_words(answer, 0, 0, to_bits(z.re), to_bits(z.im), 0, 0),
        Err(why) => put_refusal(answer, why),
    }
}

pub fn put_real(answer: &mut [u64; 6], real: Result<f64, Refusal>) -> u64
    ensures { Answered (real_words real) result answer.new }
{
    match real {
        Ok(x) => put_words(answer, 0, 0, to_bits(x), 0, 0, 0),
        Err(why) => put_refusal(answer, why),
    }
}

pub fn put_written(answer: &mut [u64; 6], written: Result<usize, Refusal>) -> u64
    ensures { Answered (written_words written) result answer.new }
{
    match written {
        Ok(count) => put_words(answer, 0, count as u64, 0, 0, 0, 0),
        Err(why) => put_refusal(answer, why),
    }
}

pub fn put_simplified(answer: &mut [u64; 6], simplified: Result<Simplified, Refusal>) -> u64
    ensures { Answered (simplified_words simplified) result answer.new }
{
    match simplified {
        Ok(Simplified { bytes, calls }) => put_words(answer, 0, bytes as u64, calls, 0, 0, 0),
        Err(why) => put_refusal(answer, why),
    }
}

// A sound tape's steps, or 15 and the first bad step.
pub fn put_checked(answer: &mut [u64; 6], steps: u64, checked: Result<(), Refusal>) -> u64
    ensures { Answered (checked_words steps checked) result answer.new }
{
    match checked {
        Ok(()) => put_words(answer, 0, steps, 0, 0, 0, 0),
        Err(why) => put_refusal(answer, why),
    }
}

// A pick as two words.
pub fn put_two(answer: &mut [u64; 2], number: u64, detail: u64) -> u64
    ensures { Answered (number ∷ detail ∷ []) result answer.new }
{
    *answer = [number, detail];
    number
}
