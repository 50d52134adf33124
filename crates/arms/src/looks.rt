// What the arms look at in a node, and what they find there. It needs the node's fields alone; what compares operands reads their classes.
ghost use Rattle.store.specs.Memory.{memory};
ghost use Rattle.arms.specs.Looks.{is_zero_number, is_one_number, left, right};
ghost use Rattle.arms.specs.Tables.{begins_with, ends_with};
ghost use Rattle.arms.specs.Choosing.{Tells, FindsOperand, FindsParts, FindsNumbers, FindsBeside};

use complex::Complex;
use complex::zero::{is_one, is_zero};
use expression::node::Expression;
use expression::{InfixOperator, PrefixOperator};
use store::equal_at;

// "0" of the arms.
#[tactic(auto, unfolding(expression::specs::Nodes::grown, crate::specs::Looks::is_number_of))]
pub fn is_zero_number(e: Expression) -> bool
    ensures { Tells is_zero_number e result }
{
    matches!(e, Expression::Number(z) if is_zero(z))
}

// "1" of the arms.
#[tactic(auto, unfolding(expression::specs::Nodes::grown, crate::specs::Looks::is_number_of))]
pub fn is_one_number(e: Expression) -> bool
    ensures { Tells is_one_number e result }
{
    matches!(e, Expression::Number(z) if is_one(z))
}

// Two numbers.
pub fn numbers_of(left: Expression, right: Expression) -> Option<(Complex, Complex)>
    ensures { FindsNumbers left right result }
{
    let Expression::Number(x) = left else {
        return None;
    };
    let Expression::Number(y) = right else {
        return None;
    };
    Some((x, y))
}

// e of -e
#[tactic(auto, unfolding(expression::specs::Nodes::grown, crate::specs::Looks::is_negation, crate::specs::Looks::under))]
pub fn negated(e: Expression) -> Option<usize>
    ensures { FindsOperand e result }
{
    match e {
        Expression::Prefix(PrefixOperator::Minus, child) => Some(child),
        _ => None,
    }
}

// b and c of b op c
#[tactic(auto, unfolding(expression::specs::Nodes::grown, crate::specs::Looks::is_infix, crate::specs::Looks::left, crate::specs::Looks::right))]
pub fn parts_of(e: Expression, operator: InfixOperator) -> Option<(usize, usize)>
    ensures { FindsParts operator e result }
{
    match e {
        Expression::Infix(own, b, c) if own == operator => Some((b, c)),
        _ => None,
    }
}

// b of b op k, for a node equal to k
pub fn beside_last(
    store: &[[u64; 4]],
    e: Expression,
    operator: InfixOperator,
    k: usize,
) -> Option<usize>
    ensures { FindsBeside (ends_with operator) left (memory store.now) e k result }
{
    let (b, c) = parts_of(e, operator)?;
    if equal_at(store, c, k) { Some(b) } else { None }
}

// c of k op c, for a node equal to k
pub fn beside_first(
    store: &[[u64; 4]],
    e: Expression,
    operator: InfixOperator,
    k: usize,
) -> Option<usize>
    ensures { FindsBeside (begins_with operator) right (memory store.now) e k result }
{
    let (b, c) = parts_of(e, operator)?;
    if equal_at(store, b, k) { Some(c) } else { None }
}
