// The steps of a tape in words, written at the start of an output: a line a step, its number from 0, what it is, and its
// operands.

#![tactic(auto)]

ghost use Rattle.std.specs.Prelude.{[], ◌∷◌, ◌++◌, ◌+◌, ◌*◌, ◌≤◌, length};
ghost use Rattle.io.specs.Counts.{IsPrefixLen};
ghost use Rattle.text.specs.Put.{Put};
ghost use Rattle.steps.specs.declared.Step.{Step};
ghost use Rattle.tape.specs.Tapes.{steps_in};
ghost use Rattle.shown.specs.Showing.{step_line, shown};
ghost use Rattle.shown.specs.Told.{Told};

use complex::Complex;
use complex::bits::to_bits;
use expression::ExpressionFunction;
use spelling::{infix_byte, prefix_byte, write_function};
use steps::bytes::fields_at;
use steps::{Step, step_of};
use text::writing::{write_byte, write_bytes, write_decimal_field, write_hex_field};

const TAB: u8 = b'\t';

const LF: u8 = b'\n';

// The bytes of a step.
const STEP: usize = 24;

fn write_number(out: &mut [u8], at: usize, z: Complex) -> usize
    requires { at + 49 ≤ length out.old }
    ensures { Told out.old at (Step.Number z) result out.new }
{
    let p = write_bytes(out, at, b"number\t");
    let q = write_hex_field(out, p, to_bits(z.re), TAB);
    write_hex_field(out, q, to_bits(z.im), LF)
}

fn write_variable(out: &mut [u8], at: usize, number: u64) -> usize
    requires { at + 49 ≤ length out.old }
    ensures { Told out.old at (Step.Variable number) result out.new }
{
    let p = write_bytes(out, at, b"variable\t");
    write_decimal_field(out, p, number, LF)
}

fn write_memory(out: &mut [u8], at: usize, region: u64, index: u64) -> usize
    requires { at + 49 ≤ length out.old }
    ensures { Told out.old at (Step.Memory region index) result out.new }
{
    let p = write_bytes(out, at, b"memory\t");
    let q = write_decimal_field(out, p, region, TAB);
    write_decimal_field(out, q, index, LF)
}

fn write_call(out: &mut [u8], at: usize, f: ExpressionFunction) -> usize
    requires { at + 49 ≤ length out.old }
    ensures { Told out.old at (Step.Function f) result out.new }
{
    let p = write_bytes(out, at, b"function\t");
    let q = write_function(out, p, f);
    write_byte(out, q, LF)
}

// A word with its tab, and an operator.
fn write_operator(out: &mut [u8], at: usize, word: &[u8], sign: u8) -> usize
    requires { at + length word.now + 2 ≤ length out.old }
    ensures { Put out.old at (word.now ++ (sign ∷ 10 ∷ [])) result out.new }
{
    let p = write_bytes(out, at, word);
    let q = write_byte(out, p, sign);
    write_byte(out, q, LF)
}

// What a step is, and its operands: at most 49 bytes.
fn write_fields(out: &mut [u8], at: usize, step: Step) -> usize
    requires { at + 49 ≤ length out.old }
    ensures { Told out.old at step result out.new }
{
    match step {
        Step::Number(z) => write_number(out, at, z),
        Step::Pi => write_bytes(out, at, b"pi\n"),
        Step::Variable(number) => write_variable(out, at, number as u64),
        Step::Memory(region, index) => write_memory(out, at, region as u64, index as u64),
        Step::Function(f) => write_call(out, at, f),
        Step::Prefix(o) => write_operator(out, at, b"prefix\t", prefix_byte(o)),
        Step::Infix(o) => write_operator(out, at, b"infix\t", infix_byte(o)),
    }
}

// Step k's line: at most 70 bytes.
fn write_line(out: &mut [u8], at: usize, k: u64, step: Step) -> usize
    requires { at + 70 ≤ length out.old }
    ensures { Put out.old at (step_line k step) result out.new × (result ≤ at + 70) }
{
    let p = write_decimal_field(out, at, k, TAB);
    write_fields(out, p, step)
}

// The lines of the whole steps of a tape, sound or not. A step has 24 bytes, and its line at most 70.
pub fn write_steps(out: &mut [u8], tape: &[u8]) -> usize
    requires { 3 * length tape.now ≤ length out.old }
    ensures put { Put out.old 0 (shown (steps_in tape.now)) result out.new }
    ensures within { IsPrefixLen result out.new }
{
    let count = tape.len() / STEP;
    let mut at: usize = 0;
    for i in 0..count {
        let step = step_of(fields_at(tape, STEP * i));
        at = write_line(out, at, i as u64, step);
    }
    at
}
