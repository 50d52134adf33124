// Which arm of the rule book applies to an operation whose operands are simplified: `choose_infix`, `choose_function`
// and `choose_prefix` look at the nodes and answer a shape with its operands; nothing is built or simplified here.

#![tactic(auto)]

ghost use Rattle.std.specs.Prelude.{◌≡◌};
ghost use Rattle.store.specs.Memory.{memory};
ghost use Rattle.arms.specs.Arms.{smaller as smallerTree, function_plan, prefix_plan};
ghost use Rattle.arms.specs.Ordered.{infix_plan};
ghost use Rattle.arms.specs.Choosing.{applied_to, ChoosesAt, ChoosesOne, Selects};

use complex::Complex;
use differences::choose_difference;
use expression::node::Expression;
use expression::{ExpressionFunction, InfixOperator, PrefixOperator};
use looks::negated;
use powers::choose_power;
use products::choose_product;
use quotients::choose_quotient;
use store::reading::{expression_at, size_at};
use sums::choose_sum;

mod differences;
mod groups;
pub mod looks;
mod powers;
mod products;
mod quotients;
mod sums;

// What is made around the result of an inner S call, `it`.
#[derive(Clone, Copy)]
pub enum Outer {
    // -it
    Negated,
    // it op c
    Before(InfixOperator, usize),
    // a op it
    After(usize, InfixOperator),
}

// What an arm wants, with the numbers of the nodes that it is about.
#[derive(Clone, Copy)]
pub enum Arm {
    // this node
    Use(usize),
    // a new node, or the one that stands
    Build(Expression),
    // the number that the operator gives for two numbers
    Fold(InfixOperator, Complex, Complex),
    // the number that the function gives for a number
    Call(ExpressionFunction, Complex),
    // S of a new node
    Again(Expression),
    // S(1/o)
    Inverse(usize),
    // S of what is made around S of a new node
    Regroup(Expression, Outer),
    // min of a new node and the same
    Smaller(Expression, Expression, Outer),
    // min of a new node and S(S(a)+S(b)), for new nodes a and b
    Distribute(Expression, Expression, Expression),
    // S(S(2*x)+S(a+b)), from x, a and b
    Double(usize, usize, usize),
    // S(S(S(a)*x)+S(b)), for new nodes a and b; S(a) and S(b) first
    Affine(Expression, usize, Expression),
}

impl Outer {
    pub fn applied(self, it: usize) -> Expression
        ensures { result ≡ applied_to self it }
    {
        match self {
            Outer::Negated => Expression::Prefix(PrefixOperator::Minus, it),
            Outer::Before(operator, c) => Expression::Infix(operator, it, c),
            Outer::After(a, operator) => Expression::Infix(operator, a, it),
        }
    }
}

// The smaller of two nodes, by the sizes of their trees; the first at a tie.
pub fn smaller(store: &[[u64; 4]], a: usize, b: usize) -> usize
    ensures { Selects smallerTree (memory store.now) a b result }
{
    if size_at(store, b) < size_at(store, a) {
        b
    } else {
        a
    }
}

pub fn choose_infix(store: &[[u64; 4]], l: usize, operator: InfixOperator, r: usize) -> Arm
    ensures { ChoosesAt (infix_plan operator) (memory store.now) l r result }
{
    let left = expression_at(store, l);
    let right = expression_at(store, r);
    match operator {
        InfixOperator::Plus => choose_sum(store, l, r, left, right),
        InfixOperator::Minus => choose_difference(store, l, r, left, right),
        InfixOperator::Star => choose_product(store, l, r, left, right),
        InfixOperator::Slash => choose_quotient(store, l, r, left, right),
        InfixOperator::Caret => choose_power(l, r, left, right),
    }
}

// "Function: a number is folded, else rebuilt."
pub fn choose_function(store: &[[u64; 4]], function: ExpressionFunction, x: usize) -> Arm
    ensures { ChoosesOne (function_plan function) (memory store.now) x result }
{
    if let Expression::Number(z) = expression_at(store, x) {
        return Arm::Call(function, z);
    }
    Arm::Build(Expression::FunctionCall(function, x))
}

// "Prefix - negates a number, strips an inner -, else rebuilds."
fn choose_minus(store: &[[u64; 4]], x: usize) -> Arm
    ensures { ChoosesOne (prefix_plan PrefixOperator.Minus) (memory store.now) x result }
{
    let child = expression_at(store, x);
    if let Expression::Number(z) = child {
        return Arm::Build(Expression::Number(-z));
    }
    if let Some(e) = negated(child) {
        return Arm::Use(e);
    }
    Arm::Build(Expression::Prefix(PrefixOperator::Minus, x))
}

// "Prefix + gives the child."
pub fn choose_prefix(store: &[[u64; 4]], operator: PrefixOperator, x: usize) -> Arm
    ensures { ChoosesOne (prefix_plan operator) (memory store.now) x result }
{
    match operator {
        PrefixOperator::Plus => Arm::Use(x),
        PrefixOperator::Minus => choose_minus(store, x),
    }
}
