// The arms that regroup and those that move a sign, which are the same for several operators.
ghost use Rattle.std.specs.Prelude.{◌≡◌};
ghost use Rattle.arms.specs.Arms.{uninverted as uninvertedOf};
ghost use Rattle.arms.specs.Tables.{either_infix, is_inverse, both_negations, either_negation, grouped, moved, unsigned};
ghost use Rattle.arms.specs.Choosing.{Groups, ChoosesFrom, ChoosesIf};

use super::looks::{negated, parts_of};
use super::{Arm, Outer};
use expression::node::Expression;
use expression::{InfixOperator, PrefixOperator};

// inv of arm 31 and op' of arm 32: "+ for -, * for /, else op".
#[tactic(auto, unfolding(crate::specs::Arms::uninverted))]
fn uninverted(operator: InfixOperator) -> InfixOperator
    ensures { result ≡ uninvertedOf operator }
{
    match operator {
        InfixOperator::Minus => InfixOperator::Plus,
        InfixOperator::Slash => InfixOperator::Star,
        _ => operator,
    }
}

// Whether the operator is the inverse of another, as - is of + and / is of *: arm 31 is meant then, and not arm 30.
#[tactic(auto, unfolding(crate::specs::Tables::is_inverse))]
fn is_inverse(operator: InfixOperator) -> bool
    ensures { result ≡ is_inverse operator }
{
    matches!(operator, InfixOperator::Minus | InfixOperator::Slash)
}

// Arms 30 and 31: r is b op c.
fn choose_grouped_right(operator: InfixOperator, l: usize, r: usize, b: usize, c: usize) -> Arm
    ensures { Groups operator l r b c result }
{
    let original = Expression::Infix(operator, l, r);
    // 31. l op (b op c), - or /: min(l op r, S(S(l inv c) op b))
    if is_inverse(operator) {
        return Arm::Smaller(
            original,
            Expression::Infix(uninverted(operator), l, c),
            Outer::Before(operator, b),
        );
    }
    // 30. l op (b op c), + or *: min(l op r, S(S(l op b) op c))
    Arm::Smaller(
        original,
        Expression::Infix(operator, l, b),
        Outer::Before(operator, c),
    )
}

// Arms 30 to 32: l or r is an operation of the same operator.
pub fn choose_grouped(
    operator: InfixOperator,
    l: usize,
    r: usize,
    left: Expression,
    right: Expression,
) -> Option<Arm>
    ensures { ChoosesIf (either_infix operator) (grouped operator) l r left right result }
{
    // 30, 31. l op (b op c)
    if let Some((b, c)) = parts_of(right, operator) {
        return Some(choose_grouped_right(operator, l, r, b, c));
    }
    // 32. (a op b) op r, + * - /: min(l op r, S(a op' S(b op r)))
    let (a, b) = parts_of(left, operator)?;
    let rhs_operator = uninverted(operator);
    Some(Arm::Smaller(
        Expression::Infix(operator, l, r),
        Expression::Infix(operator, b, r),
        Outer::After(a, rhs_operator),
    ))
}

// Arm 22: l is -a and r is -b.
pub fn choose_unsigned(operator: InfixOperator, left: Expression, right: Expression) -> Option<Arm>
    ensures { ChoosesFrom both_negations (unsigned operator) left right result }
{
    let a = negated(left)?;
    let b = negated(right)?;
    Some(Arm::Again(Expression::Infix(operator, a, b)))
}

// Arms 25 and 26: l or r is -e. The first choice is l*r, also for /.
pub fn choose_moved(
    operator: InfixOperator,
    l: usize,
    r: usize,
    left: Expression,
    right: Expression,
) -> Option<Arm>
    ensures { ChoosesIf either_negation (moved operator) l r left right result }
{
    let original = Expression::Infix(InfixOperator::Star, l, r);
    // 25. l op -e, op * or /: min(l*r, S(S(-l) op e))
    if let Some(e) = negated(right) {
        return Some(Arm::Smaller(
            original,
            Expression::Prefix(PrefixOperator::Minus, l),
            Outer::Before(operator, e),
        ));
    }
    // 26. (-e) op r, same ops: min(l*r, S(e op S(-r)))
    let e = negated(left)?;
    Some(Arm::Smaller(
        original,
        Expression::Prefix(PrefixOperator::Minus, r),
        Outer::After(e, operator),
    ))
}
