// The arms of *: 6 to 8, 17, 22, 25, 26, 30, 32 to 34 and 39 to 41.
ghost use Rattle.store.specs.Memory.{memory};
ghost use Rattle.arms.specs.Tables.{either_negation, signed_product, distributed, product_plan};
ghost use Rattle.arms.specs.Choosing.{Chooses, ChoosesIf};

use super::Arm;
use super::groups::{choose_grouped, choose_moved, choose_unsigned};
use super::looks::{beside_last, is_one_number, is_zero_number, numbers_of, parts_of};
use complex::constants::zero;
use expression::InfixOperator;
use expression::node::Expression;

// Arms 22, 25 and 26: l or r is -e.
fn choose_signed_product(l: usize, r: usize, left: Expression, right: Expression) -> Option<Arm>
    ensures { ChoosesIf either_negation signed_product l r left right result }
{
    // 22. (-a)*(-b): S(a*b)
    if let Some(arm) = choose_unsigned(InfixOperator::Star, left, right) {
        return Some(arm);
    }
    // 25. l*(-e): min(l*r, S(S(-l)*e))
    // 26. (-e)*r: min(l*r, S(e*S(-r)))
    choose_moved(InfixOperator::Star, l, r, left, right)
}

// Arms 33, 34 and 39 to 41.
fn choose_distributed(
    store: &[[u64; 4]],
    l: usize,
    r: usize,
    left: Expression,
    right: Expression,
) -> Arm
    ensures { Chooses distributed (memory store.now) l r left right result }
{
    let original = Expression::Infix(InfixOperator::Star, l, r);
    // 33. l*(b+c): min(l*r, S(S(l*b)+S(l*c)))
    if let Some((b, c)) = parts_of(right, InfixOperator::Plus) {
        return Arm::Distribute(
            original,
            Expression::Infix(InfixOperator::Star, l, b),
            Expression::Infix(InfixOperator::Star, l, c),
        );
    }
    // 34. (a+b)*r likewise: min(l*r, S(S(a*r)+S(b*r)))
    if let Some((a, b)) = parts_of(left, InfixOperator::Plus) {
        return Arm::Distribute(
            original,
            Expression::Infix(InfixOperator::Star, a, r),
            Expression::Infix(InfixOperator::Star, b, r),
        );
    }
    // 39. (o/r)*r: o
    if let Some(o) = beside_last(store, left, InfixOperator::Slash, r) {
        return Arm::Use(o);
    }
    // 40. l*(o/l): o
    if let Some(o) = beside_last(store, right, InfixOperator::Slash, l) {
        return Arm::Use(o);
    }
    // 41. Rebuild
    Arm::Build(original)
}

pub fn choose_product(
    store: &[[u64; 4]],
    l: usize,
    r: usize,
    left: Expression,
    right: Expression,
) -> Arm
    ensures { Chooses product_plan (memory store.now) l r left right result }
{
    // 6. 0*r, l*0: 0
    if is_zero_number(left) || is_zero_number(right) {
        return Arm::Build(Expression::Number(zero()));
    }
    // 7. 1*r: r
    if is_one_number(left) {
        return Arm::Use(r);
    }
    // 8. l*1: l
    if is_one_number(right) {
        return Arm::Use(l);
    }
    // 17. Two numbers: fold
    if let Some((x, y)) = numbers_of(left, right) {
        return Arm::Fold(InfixOperator::Star, x, y);
    }
    // 22, 25, 26. A factor is -e
    if let Some(arm) = choose_signed_product(l, r, left, right) {
        return arm;
    }
    // 30. l*(b*c): min(l*r, S(S(l*b)*c))
    // 32. (a*b)*r: min(l*r, S(a*S(b*r)))
    if let Some(arm) = choose_grouped(InfixOperator::Star, l, r, left, right) {
        return arm;
    }
    choose_distributed(store, l, r, left, right)
}
