// A node: an expression whose operands are numbers of earlier nodes, what its operands are, and the same node with others.
ghost use Rattle.std.specs.Prelude.{◌≡◌};
ghost use Rattle.expression.specs.Nodes as Nodes;

use super::{ExpressionFunction, InfixOperator, PrefixOperator};
use complex::Complex;

// No derived equality: it would compare doubles as floats, and 01's equalities are not that (complex::equality).
#[derive(Clone, Copy)]
pub enum Expression {
    Address(u16, u32),
    FunctionCall(ExpressionFunction, usize),
    Infix(InfixOperator, usize, usize),
    Number(Complex),
    PiConstant,
    Prefix(PrefixOperator, usize),
    Variable(u16),
}

// The nodes under a node.
#[derive(Clone, Copy, Debug, PartialEq, Eq)]
pub enum Operands {
    Nothing,
    One(usize),
    Two(usize, usize),
}

#[tactic(auto, unfolding(crate::specs::Nodes::operands_of))]
pub fn operands_of(e: Expression) -> Operands
    ensures { result ≡ Nodes.operands_of e }
{
    match e {
        Expression::FunctionCall(_, child) | Expression::Prefix(_, child) => Operands::One(child),
        Expression::Infix(_, left, right) => Operands::Two(left, right),
        Expression::Number(_)
        | Expression::PiConstant
        | Expression::Variable(_)
        | Expression::Address(_, _) => Operands::Nothing,
    }
}

// The same operation on other operands; where there is but one it is the last.
#[tactic(auto, unfolding(crate::specs::Nodes::with_operands))]
pub fn with_operands(e: Expression, left: usize, last: usize) -> Expression
    ensures { result ≡ Nodes.with_operands e left last }
{
    match e {
        Expression::FunctionCall(f, _) => Expression::FunctionCall(f, last),
        Expression::Prefix(o, _) => Expression::Prefix(o, last),
        Expression::Infix(o, _, _) => Expression::Infix(o, left, last),
        Expression::Number(_)
        | Expression::PiConstant
        | Expression::Variable(_)
        | Expression::Address(_, _) => e,
    }
}
