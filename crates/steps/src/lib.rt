// One step of a tape: what it is, its six fields, and which fields are a step's.

#![tactic(auto)]

ghost use Rattle.std.specs.Prelude.{◌≡◌, ◌<◌};
ghost use Rattle.steps.specs.Steps.{fields, fields_of, step_of, known};

use complex::Complex;
use complex::bits::{from_bits, to_bits};
use expression::{ExpressionFunction, InfixOperator, PrefixOperator};

pub mod bytes;

#[derive(Clone, Copy)]
pub enum Step {
    Number(Complex),
    Pi,
    Variable(u16),
    Memory(u16, u32),
    Function(ExpressionFunction),
    Prefix(PrefixOperator),
    Infix(InfixOperator),
}

// "Opcode, sub, u16, u32, real bits, imaginary bits."
#[derive(Clone, Copy, PartialEq, Eq)]
pub struct Fields {
    pub opcode: u8,
    pub sub: u8,
    pub half: u16,
    pub word: u32,
    pub re: u64,
    pub im: u64,
}

// A step that is its opcode and its sub alone.
fn coded(opcode: u8, sub: u8) -> Fields
    ensures { result ≡ fields opcode sub 0 0 0 0 }
{
    Fields {
        opcode,
        sub,
        half: 0,
        word: 0,
        re: 0,
        im: 0,
    }
}

#[tactic(auto, using(crate::proofs::Knowing::function_byte, crate::proofs::Knowing::prefix_byte, crate::proofs::Knowing::infix_byte))]
pub fn fields_of(s: Step) -> Fields
    ensures { result ≡ fields_of s }
{
    match s {
        Step::Number(z) => Fields {
            re: to_bits(z.re),
            im: to_bits(z.im),
            ..coded(1, 0)
        },
        Step::Pi => coded(2, 0),
        Step::Variable(number) => Fields {
            half: number,
            ..coded(3, 0)
        },
        Step::Memory(region, index) => Fields {
            half: region,
            word: index,
            ..coded(4, 0)
        },
        Step::Function(f) => coded(5, u64::from(f) as u8),
        Step::Prefix(o) => coded(6, u64::from(o) as u8),
        Step::Infix(o) => coded(7, u64::from(o) as u8),
    }
}

// The step of an operation, by its opcode and its sub.
#[tactic(auto, unfolding(crate::specs::Steps::step_of))]
fn operation_of(f: Fields) -> Step
    requires { 4 < f.opcode }
    ensures { result ≡ step_of f }
{
    let opcode = f.opcode;
    let sub = u64::from(f.sub);
    match opcode {
        5 => Step::Function(ExpressionFunction::from_code(sub)),
        6 => Step::Prefix(PrefixOperator::from_code(sub)),
        _ => Step::Infix(InfixOperator::from_code(sub)),
    }
}

// The step that the fields say; who plays a tape has tested before that they are known. The tests part the opcodes by
// halves: a jump by a table of them is guessed wrong more often.
#[tactic(auto, unfolding(crate::specs::Steps::step_of))]
pub fn step_of(f: Fields) -> Step
    ensures { result ≡ step_of f }
{
    let opcode = f.opcode;
    if opcode == 1 {
        return Step::Number(Complex {
            re: from_bits(f.re),
            im: from_bits(f.im),
        });
    }
    if 4 < opcode {
        return operation_of(f);
    }
    match opcode {
        2 => Step::Pi,
        3 => Step::Variable(f.half),
        4 => Step::Memory(f.half, f.word),
        _ => Step::Infix(InfixOperator::from_code(u64::from(f.sub))),
    }
}

// "Known codes, unused fields zero, the one NaN": the fields are those of the step that they say.
pub fn is_known(f: Fields) -> bool
    ensures { result ≡ known f }
{
    f == fields_of(step_of(f))
}
