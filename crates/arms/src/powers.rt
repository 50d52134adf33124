// The arms of ^: 13 to 17 and 41.
ghost use Rattle.arms.specs.Tables.{power_plan};
ghost use Rattle.arms.specs.Choosing.{ChoosesWhere, always};

use super::Arm;
use super::looks::{is_one_number, is_zero_number, numbers_of};
use complex::constants::{one, zero};
use expression::InfixOperator;
use expression::node::Expression;

pub fn choose_power(l: usize, r: usize, left: Expression, right: Expression) -> Arm
    ensures { ChoosesWhere always power_plan l r left right result }
{
    // 13. 0^r: 0
    if is_zero_number(left) {
        return Arm::Build(Expression::Number(zero()));
    }
    // 14. l^0: 1
    if is_zero_number(right) {
        return Arm::Build(Expression::Number(one()));
    }
    // 15. 1^r: 1
    if is_one_number(left) {
        return Arm::Build(Expression::Number(one()));
    }
    // 16. l^1: l
    if is_one_number(right) {
        return Arm::Use(l);
    }
    // 17. Two numbers: fold
    if let Some((x, y)) = numbers_of(left, right) {
        return Arm::Fold(InfixOperator::Caret, x, y);
    }
    // 41. Rebuild
    Arm::Build(Expression::Infix(InfixOperator::Caret, l, r))
}
