// Playing a sound tape: a stack of 64 complex numbers, and a step after another up to the first lack. The rows of the sheet that were used are
// marked.
ghost use Rattle.std.specs.Prelude.{◌≡◌, true, false, suc, ◌<◌, Ok};
ghost use Rattle.complex.specs.declared.Complex.{Complex as Number};
ghost use Rattle.sheet.specs.Rows.{Rows, missing};
ghost use Rattle.sheet.specs.Table.{rows_of, seen_found, Held};
ghost use Rattle.evaluation.specs.declared.Evaluation.{Evaluation as Answer};
ghost use Rattle.steps.specs.Steps.{step_of};
ghost use Rattle.tape.specs.Tapes.{check};
ghost use Rattle.evaluation.specs.Run.{Answers};
ghost use Rattle.tape.specs.Run.{value_of, used_at, seen_value, asks, Values, Plays};

use super::taken;
use complex::Complex;
use complex::bits::from_bits;
use complex::constants::{pi, zero};
use evaluation::calculate::{calculate_function, calculate_infix, calculate_prefix};
use evaluation::{Asked, Evaluation, note};
use expression::{ExpressionFunction, InfixOperator, PrefixOperator};
use memory::layout::MARKS;
use sheet::{Counts, cell, variable};
use steps::Fields;
use steps::bytes::fields_at;

// "The stack is sixty-four complex numbers and a count."
#[derive(Drop)]
pub struct Player {
    pub stack: [Complex; 64],
    pub depth: usize,
}

// A leaf's value, as far as the sheet has it.
fn leaf(table: &[u64], counts: Counts, f: Fields) -> Option<Complex>
    requires { (0 < f.opcode) × (f.opcode < 5) }
    ensures { Held table.now counts → (x y : Number) → seen_found result ≡ seen_value (value_of (rows_of table.now counts) (step_of f) x y) }
{
    let opcode = f.opcode;
    match opcode {
        1 => Some(Complex {
            re: from_bits(f.re),
            im: from_bits(f.im),
        }),
        2 => Some(pi()),
        3 => variable(table, counts, f.half),
        _ => cell(table, counts, f.half, f.word),
    }
}

// Whether an operation's value is asked of the sheet: those of functions and of ^ are.
fn is_asked(f: Fields) -> bool
    requires { 4 < f.opcode }
    ensures { result ≡ asks (step_of f) }
{
    let opcode = f.opcode;
    let sub = f.sub;
    if opcode == 5 {
        return true;
    }
    if opcode == 6 {
        return false;
    }
    match sub {
        1 | 2 | 3 | 4 => false,
        _ => true,
    }
}

// What the sheet answers for a function of x, or for x ^ y.
fn asked(table: &[u64], counts: Counts, f: Fields, x: Complex, y: Complex) -> Asked
    requires { 4 < f.opcode }
    ensures { Held table.now counts → asks (step_of f) ≡ true → Answers (value_of (rows_of table.now counts) (step_of f) x y) (used_at (rows_of table.now counts) (step_of f) x y) result }
{
    let opcode = f.opcode;
    let code = f.sub as u64;
    if opcode == 5 {
        return calculate_function(table, counts, ExpressionFunction::from_code(code), x);
    }
    calculate_infix(table, counts, x, InfixOperator::from_code(code), y)
}

// A sign's value at x, or that of x and y by + - * /: three tests tell these apart, since a jump by a table is guessed
// wrong more often.
fn arithmetic(f: Fields, x: Complex, y: Complex) -> Complex
    requires { (4 < f.opcode) × (asks (step_of f) ≡ false) }
    ensures { (rows : Rows) → Answer.Value result ≡ value_of rows (step_of f) x y }
{
    let opcode = f.opcode;
    let code = f.sub;
    if opcode == 6 {
        return calculate_prefix(PrefixOperator::from_code(code as u64), x);
    }
    if code == 1 {
        return x + y;
    }
    if code == 2 {
        return x - y;
    }
    if code == 3 {
        return x * y;
    }
    x / y
}

// What a step puts on the stack, in place of the values x and, above it, y, as far as it takes them. An answer with more
// cases would go through memory at every step. The rows are marked when they are found, also where one is lacking.
fn value_of(
    table: &[u64],
    counts: Counts,
    f: Fields,
    x: Complex,
    y: Complex,
    marks: &mut [u8; MARKS],
) -> Option<Complex>
    requires { 0 < f.opcode }
    ensures { Held table.now counts → Values (rows_of table.now counts) (step_of f) x y result marks.old marks.new }
{
    let opcode = f.opcode;
    if opcode < 5 {
        return leaf(table, counts, f);
    }
    if is_asked(f) {
        let asked = asked(table, counts, f, x, y);
        note(marks, asked.used);
        let value = asked.value;
        let Evaluation::Value(z) = value else {
            return None;
        };
        return Some(z);
    }
    Some(arithmetic(f, x, y))
}

// The lack of a step that has no value.
fn lack(table: &[u64], counts: Counts, f: Fields, x: Complex, y: Complex) -> Evaluation
    requires { 0 < f.opcode }
    ensures { Held table.now counts → seen_value (value_of (rows_of table.now counts) (step_of f) x y) ≡ missing → result ≡ value_of (rows_of table.now counts) (step_of f) x y }
{
    let opcode = f.opcode;
    if opcode < 5 {
        return Evaluation::Incomplete;
    }
    let asked = asked(table, counts, f, x, y);
    asked.value
}

// The slot above one of the 64; the last one has none and stands for itself.
fn above(slot: usize) -> usize
    requires { slot < 64 }
    ensures { (result < 64) × (slot < 63 → result ≡ suc slot) }
{
    if slot < 63 { slot + 1 } else { slot }
}

// Plays a sound tape under the rows of a sheet, and marks those that were used. The player stays where it is: passed by value to a
// function for each step, its thousand bytes would be copied each time.
pub fn play(tape: &[u8], table: &[u64], counts: Counts, marks: &mut [u8; MARKS]) -> Evaluation
    requires { check tape.now ≡ Ok tt }
    ensures { Held table.now counts → Plays (rows_of table.now counts) tape.now result marks.old marks.new }
{
    let count = tape.len() / 24;
    let mut player = Player {
        stack: [zero(); 64],
        depth: 0,
    };
    for i in 0..count {
        let f = fields_at(tape, 24 * i);
        let slot = player.depth - taken(f);
        let next = above(slot);
        let x = player.stack[slot];
        let y = player.stack[next];
        let Some(z) = value_of(table, counts, f, x, y, marks) else {
            return lack(table, counts, f, x, y);
        };
        player.stack[slot] = z;
        player.depth = slot + 1;
    }
    Evaluation::Value(player.stack[0])
}
