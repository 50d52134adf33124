// Vectors for complex numbers: a line has an operation, four operands and the two words of the right answer. Says which
// answers differ, and how many there were.
use complex::bits::{class_of, from_bits, to_bits};
use complex::equality::{equal, equal_doubles, identical, identical_doubles};
use complex::zero::{is_one, is_zero};
use complex::{Complex, constants};
use replay::line::{Line, next_line};
use replay::lists::{List, MOST};
use replay::{lists, say};
use std::rt::Env;

// With its line feed.
const LINE: usize = 104;

fn number(re: u64, im: u64) -> Complex {
    Complex {
        re: from_bits(re),
        im: from_bits(im),
    }
}

// Two words as an answer.
fn words(a: u64, b: u64) -> [u64; 6] {
    [a, b, 0, 0, 0, 0]
}

fn parts(z: Complex) -> [u64; 6] {
    words(to_bits(z.re), to_bits(z.im))
}

fn flags(a: bool, b: bool) -> [u64; 6] {
    words(u64::from(a), u64::from(b))
}

// The threshold as the number that has it on the real line.
fn constant(k: u64) -> Complex {
    match k {
        0 => constants::zero(),
        1 => constants::one(),
        2 => constants::two(),
        3 => constants::minus_one(),
        4 => constants::pi(),
        5 => constants::not_a_number(),
        _ => Complex {
            re: constants::threshold(),
            im: 0.0,
        },
    }
}

fn result(op: u8, x: Complex, y: Complex) -> Complex {
    match op {
        b'+' => x + y,
        b'-' => x - y,
        b'*' => x * y,
        b'/' => x / y,
        _ => -x,
    }
}

// What the port answers to a line. Where a letter stands for no operation, the answer is made to be wrong.
fn answered(line: Line) -> [u64; 6] {
    let op = line.kind;
    let x = number(line.fields[1], line.fields[2]);
    let y = number(line.fields[3], line.fields[4]);
    match op {
        b'+' | b'-' | b'*' | b'/' | b'n' => parts(result(op, x, y)),
        b'b' => words(to_bits(x.re), class_of(x.re)),
        b'd' => flags(identical_doubles(x.re, y.re), equal_doubles(x.re, y.re)),
        b'i' => flags(identical(x, y), equal(x, y)),
        b'z' => flags(is_zero(x), is_one(x)),
        b'k' => parts(constant(line.fields[1])),
        _ => words(!line.fields[5], 0),
    }
}

fn is_right(rt: &impl Print, line: Line) -> bool {
    let wanted = words(line.fields[5], line.fields[6]);
    let got = answered(line);
    say::is_right(rt, b"wanted", &wanted, &got)
}

// `k` is the number of the argument that names the list.
pub fn run(rt: &(impl Print + Env), list: &mut List, k: usize) {
    let mut count = 0;
    let mut wrong = 0;
    // No `for`: how many there were is said after the loop, which ends where the list does.
    while count < MOST {
        let line = next_line(list, LINE);
        if line.is_none() {
            break;
        }
        wrong += say::count_wrong(rt, count, is_right(rt, line));
        count += 1;
    }
    lists::end(rt, k, count, wrong);
}
