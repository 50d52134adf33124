// How a node stands in its row: its fields, and the node that fields are.
ghost use Rattle.std.specs.Prelude.{◌≡◌};
ghost use Rattle.store.specs.Nodes.{fields, fields_of, expression_of};
ghost use Rattle.expression.specs.Nodes.{Sound};

use super::fields::code_of;
use complex::Complex;
use complex::bits::{from_bits, to_bits};
use expression::node::Expression;
use expression::{ExpressionFunction, InfixOperator, PrefixOperator};

// `code` is the kind by the tape's opcodes, and eight times the operator's or function's number.
#[derive(Clone, Copy)]
pub struct Fields {
    pub code: u64,
    pub first: u64,
    pub second: u64,
}

impl Fields {
    pub fn new(code: u64, first: u64, second: u64) -> Self
        ensures { result ≡ fields code first second }
    {
        Self {
            code,
            first,
            second,
        }
    }
}

pub fn fields_of(e: Expression) -> Fields
    ensures value { result ≡ fields_of e }
    ensures sound { Sound e }
{
    match e {
        Expression::Number(z) => Fields::new(1, to_bits(z.re), to_bits(z.im)),
        Expression::PiConstant => Fields::new(2, 0, 0),
        Expression::Variable(number) => Fields::new(3, number as u64, 0),
        Expression::Address(region, index) => Fields::new(4, region as u64, index as u64),
        Expression::FunctionCall(f, child) => Fields::new(
            code_of(5, u64::from(f)),
            child as u64,
            0,
        ),
        Expression::Prefix(o, child) => Fields::new(code_of(6, u64::from(o)), child as u64, 0),
        Expression::Infix(o, left, right) => {
            Fields::new(code_of(7, u64::from(o)), left as u64, right as u64)
        }
    }
}

pub fn expression_of(f: Fields) -> Expression
    ensures { result ≡ expression_of f }
{
    let kind = f.code % 8;
    let operator = f.code / 8;
    let first = f.first;
    let second = f.second;
    match kind {
        1 => Expression::Number(Complex {
            re: from_bits(first),
            im: from_bits(second),
        }),
        2 => Expression::PiConstant,
        3 => Expression::Variable((first % 65536) as u16),
        4 => Expression::Address((first % 65536) as u16, (second % 4294967296) as u32),
        5 => Expression::FunctionCall(ExpressionFunction::from_code(operator), first as usize),
        6 => Expression::Prefix(PrefixOperator::from_code(operator), first as usize),
        _ => Expression::Infix(
            InfixOperator::from_code(operator),
            first as usize,
            second as usize,
        ),
    }
}
