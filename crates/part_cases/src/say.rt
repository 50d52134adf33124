// What is written of an answer of several parts: fields that are parted by tabs.
use complex::bits::to_bits;
use expression::refusal::Refusal;
use replay::say::{bits, count, word};

pub fn double(rt: &impl Print, x: f64) {
    bits(rt, to_bits(x));
}

pub fn refused(rt: &impl Print, why: Refusal) {
    word(rt, b"refused");
    count(rt, why.number());
    count(rt, why.place());
}

// The same as a line: a text was refused.
pub fn refused_text(rt: &impl Print, why: Refusal) {
    refused(rt, why);
    word(rt, b"\n");
}
