// Commands for a store, which is built in the first rows of an array: each is obeyed, and a line says what it gives.
ghost use Rattle.std.specs.Prelude.{◌<◌};

use super::nodes;
use super::say::refused_text;
use complex::Complex;
use complex::bits::from_bits;
use expression::node::Expression;
use expression::{ExpressionFunction, InfixOperator, PrefixOperator};
use memory::layout::DESK_WORDS;
use replay::line::{Line, next_line};
use replay::lists::{List, MOST};
use replay::say::{count, word};
use replay::slices::{is_zero, part};
use store::desk::{Refused, calls_made, refusal_of, set_calls, standing};

// With its line feed.
const LINE: usize = 38;

// What rows and desk hold before anything is stored.
const JUNK: u64 = 0xdead_beef_0001_0001;

// The node that a line asks to add; pi where it asks for no other.
fn node_of(line: Line) -> Expression {
    let kind = line.kind;
    let code = line.fields[1];
    let a = line.fields[2];
    let b = line.fields[3];
    match kind {
        b'n' => Expression::Number(Complex {
            re: from_bits(a),
            im: from_bits(b),
        }),
        b'v' => Expression::Variable((a % 65536) as u16),
        b'm' => Expression::Address((a % 65536) as u16, (b % 4294967296) as u32),
        b'f' => Expression::FunctionCall(ExpressionFunction::from_code(code), a as usize),
        b'u' => Expression::Prefix(PrefixOperator::from_code(code), a as usize),
        b'b' => Expression::Infix(InfixOperator::from_code(code), a as usize, b as usize),
        _ => Expression::PiConstant,
    }
}

// What a command gives. Of a node that was to be added all is said at once; what is recalled is a node, or none.
#[derive(Clone, Copy)]
enum Given {
    Nothing,
    Added,
    Recalled(Option<usize>),
    Compared(bool),
}

// Adds a node, with the number of its command as the count of simplify calls, and says what came of it.
fn add(
    rt: &impl Print,
    store: &mut [[u64; 4]],
    desk: &mut [u64; DESK_WORDS],
    line: Line,
    calls: u64,
) {
    set_calls(desk, calls);
    match store::add(store, desk, node_of(line)) {
        Ok(at) => {
            nodes::added(rt, at, standing(desk), calls_made(desk));
            nodes::read(rt, store, at);
        }
        Err(Refused) => refused_text(rt, refusal_of(desk)),
    }
}

// As a call clears what it was lent.
fn clear(store: &mut [[u64; 4]], desk: &mut [u64; DESK_WORDS]) {
    store.fill([0; 4]);
    desk.fill(0);
}

// Obeys a command on what is lent. Every letter but these asks to add a node.
fn obey(
    rt: &impl Print,
    line: Line,
    calls: u64,
    store: &mut [[u64; 4]],
    desk: &mut [u64; DESK_WORDS],
) -> Given {
    let kind = line.kind;
    let a = line.fields[2] as usize;
    let b = line.fields[3] as usize;
    match kind {
        b'j' => (),
        b's' => store::start(desk),
        b'k' => store::keep(store, a, b),
        b'c' => clear(store, desk),
        b'r' => return Given::Recalled(store::kept_at(store, a)),
        b'e' => return Given::Compared(store::equal_at(store, a, b)),
        _ => {
            add(rt, store, desk, line, calls);
            return Given::Added;
        }
    }
    Given::Nothing
}

// Of clearing it is said apart.
fn say_obeyed(rt: &impl Print, kind: u8) {
    match kind {
        b'j' => word(rt, b"filled"),
        b's' => word(rt, b"started"),
        b'k' => word(rt, b"keeps"),
        _ => (),
    }
}

fn say_recalled(rt: &impl Print, answer: Option<usize>) {
    match answer {
        None => word(rt, b"nothing"),
        Some(node) => {
            word(rt, b"result");
            count(rt, node as u64);
        }
    }
}

fn say_compared(rt: &impl Print, is_equal: bool) {
    if is_equal {
        word(rt, b"equal");
    } else {
        word(rt, b"unequal");
    }
}

fn say_given(rt: &impl Print, kind: u8, given: Given) {
    match given {
        Given::Added => return,
        Given::Nothing => say_obeyed(rt, kind),
        Given::Recalled(answer) => say_recalled(rt, answer),
        Given::Compared(is_equal) => say_compared(rt, is_equal),
    }
    word(rt, b"\n");
}

// In how many rows word k is not zero.
fn others(store: &[[u64; 4]; 4096], k: usize) -> u64
    requires { k < 4 }
{
    store.iter().filter(|row| row[k] != 0).count() as u64
}

// Says of each of the four words in how many of all rows it is not zero after those that are lent were cleared, and if the
// desk is not zero.
fn say_cleared(rt: &impl Print, store: &[[u64; 4]; 4096], desk: &[u64; DESK_WORDS]) {
    word(rt, b"cleared");
    count(rt, others(store, 0));
    count(rt, others(store, 1));
    count(rt, others(store, 2));
    count(rt, others(store, 3));
    if !is_zero(desk) {
        word(rt, b"\tdesk");
    }
}

// Starting a store says how many rows are lent from then on.
fn rows_after(line: Line, rows: usize) -> usize {
    if line.kind == b's' {
        line.fields[2] as usize
    } else {
        rows
    }
}

pub fn run(rt: &impl Print, list: &mut List) {
    let mut store = [[JUNK; 4]; 4096];
    let mut desk = [JUNK; DESK_WORDS];
    let mut rows = 0;
    for calls in 0..MOST {
        let line = next_line(list, LINE);
        if line.is_none() {
            break;
        }
        if line.kind == b'j' {
            let junk = line.fields[2];
            store = [[junk; 4]; 4096];
            desk = [junk; DESK_WORDS];
        }
        rows = rows_after(line, rows);
        let n = part(&store, rows);
        let given = obey(rt, line, calls, &mut store[..n], &mut desk);
        if line.kind == b'c' {
            say_cleared(rt, &store, &desk);
        }
        say_given(rt, line.kind, given);
    }
}
