// The arms of -: 3 to 5, 17, 20, 21, 31, 32 and 41.
ghost use Rattle.store.specs.Memory.{memory};
ghost use Rattle.arms.specs.Tables.{signed_difference, difference_plan};
ghost use Rattle.arms.specs.Choosing.{ChoosesWhere, Chooses, always};

use super::groups::choose_grouped;
use super::looks::{is_zero_number, negated, numbers_of};
use super::{Arm, Outer};
use complex::constants::zero;
use expression::node::Expression;
use expression::{InfixOperator, PrefixOperator};
use store::equal_at;

// Arms 20, 21, 31, 32 and 41.
fn choose_signed_difference(l: usize, r: usize, left: Expression, right: Expression) -> Arm
    ensures { ChoosesWhere always signed_difference l r left right result }
{
    // 20. l-(-e): S(l+e)
    if let Some(e) = negated(right) {
        return Arm::Again(Expression::Infix(InfixOperator::Plus, l, e));
    }
    // 21. (-e)-r: min(l-r, S(-S(e+r)))
    if let Some(e) = negated(left) {
        return Arm::Smaller(
            Expression::Infix(InfixOperator::Minus, l, r),
            Expression::Infix(InfixOperator::Plus, e, r),
            Outer::Negated,
        );
    }
    // 31. l-(b-c): min(l-r, S(S(l+c)-b))
    // 32. (a-b)-r: min(l-r, S(a+S(b-r)))
    if let Some(arm) = choose_grouped(InfixOperator::Minus, l, r, left, right) {
        return arm;
    }
    // 41. Rebuild
    Arm::Build(Expression::Infix(InfixOperator::Minus, l, r))
}

pub fn choose_difference(
    store: &[[u64; 4]],
    l: usize,
    r: usize,
    left: Expression,
    right: Expression,
) -> Arm
    ensures { Chooses difference_plan (memory store.now) l r left right result }
{
    // 3. 0-r: S(-r)
    if is_zero_number(left) {
        return Arm::Again(Expression::Prefix(PrefixOperator::Minus, r));
    }
    // 4. l-0: l
    if is_zero_number(right) {
        return Arm::Use(l);
    }
    // 5. l-l: 0
    if equal_at(store, l, r) {
        return Arm::Build(Expression::Number(zero()));
    }
    // 17. Two numbers: fold
    if let Some((x, y)) = numbers_of(left, right) {
        return Arm::Fold(InfixOperator::Minus, x, y);
    }
    choose_signed_difference(l, r, left, right)
}
