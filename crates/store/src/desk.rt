// The desk beside the rows: single words that stand for what would else be passed and answered by value. What builds answers a node, or that
// nothing was built; why stands on the desk then, so that each answer comes in registers.
ghost use Rattle.std.specs.Prelude.{◌≡◌};
ghost use Rattle.store.specs.Desk.{count, calls_on, with_count, with_calls, with_mark, need_on, refusal_on, Asks, Refuses, Notes};

use complex::Complex;
use complex::bits::{from_bits, to_bits};
use expression::refusal::{Operation, Refusal};
use memory::layout::{DESK_WORDS, MARKS, MARKS_FROM};
use memory::put;

// Nothing was built: why stands on the desk.
#[derive(Clone, Copy, PartialEq, Eq)]
pub struct Refused;

// How many nodes stand.
pub fn standing(desk: &[u64; DESK_WORDS]) -> usize
    ensures { result ≡ count desk.now }
{
    desk[0] as usize
}

pub fn stand(desk: &mut [u64; DESK_WORDS], n: usize)
    ensures { desk.new ≡ with_count desk.old n }
{
    desk[0] = n as u64;
}

// How many simplify calls were made.
pub fn calls_made(desk: &[u64; DESK_WORDS]) -> u64
    ensures { result ≡ calls_on desk.now }
{
    desk[1]
}

pub fn set_calls(desk: &mut [u64; DESK_WORDS], calls: u64)
    ensures { desk.new ≡ with_calls desk.old calls }
{
    desk[1] = calls;
}

// The marks of up to two t rows become 1; past the last row there is none.
pub fn note(desk: &mut [u64; DESK_WORDS], first: Option<usize>, second: Option<usize>)
    ensures { Notes first second desk.old desk.new }
{
    mark_row(desk, first);
    mark_row(desk, second);
}

fn mark_row(desk: &mut [u64; DESK_WORDS], row: Option<usize>)
    ensures { desk.new ≡ with_mark desk.old row }
{
    let Some(j) = row else {
        return;
    };
    if j < MARKS {
        desk[MARKS_FROM + j] = 1;
    }
}

// Nothing is built: the desk has the refusal's number, and for NEED the operation and the operands.
pub fn refuse(desk: &mut [u64; DESK_WORDS], why: Refusal) -> Refused
    ensures { Refuses why desk.old desk.new }
{
    desk[7] = why.number();
    if let Refusal::Need(operation, x, y) = why {
        ask(desk, operation, x, y);
    }
    Refused
}

fn ask(desk: &mut [u64; DESK_WORDS], operation: Operation, x: Complex, y: Complex)
    ensures { Asks operation x y desk.old desk.new }
{
    desk[2] = u64::from(operation);
    desk[3] = to_bits(x.re);
    desk[4] = to_bits(x.im);
    desk[5] = to_bits(y.re);
    desk[6] = to_bits(y.im);
}

// Why nothing was built.
pub fn refusal_of(desk: &[u64; DESK_WORDS]) -> Refusal
    ensures { result ≡ refusal_on desk.now }
{
    match desk[7] {
        6 => Refusal::Big,
        7 => Refusal::Deep,
        8 => Refusal::Room,
        9 => need_on(desk),
        _ => Refusal::Incomplete,
    }
}

fn need_on(desk: &[u64; DESK_WORDS]) -> Refusal
    ensures { result ≡ need_on desk.now }
{
    let operation = Operation::from_code(desk[2]);
    let x = Complex {
        re: from_bits(desk[3]),
        im: from_bits(desk[4]),
    };
    let y = Complex {
        re: from_bits(desk[5]),
        im: from_bits(desk[6]),
    };
    Refusal::Need(operation, x, y)
}
