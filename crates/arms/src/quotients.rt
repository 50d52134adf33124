// The arms of /: 9 to 12, 17, 22 to 26, 31, 32, 35 to 38 and 41.
ghost use Rattle.store.specs.Memory.{memory};
ghost use Rattle.arms.specs.Tables.{either_negation, cancels_negation, signed_quotient, split, cancelled, quotient_plan};
ghost use Rattle.arms.specs.Choosing.{LikensTo, Chooses, ChoosesIfHeld, ChoosesWhere, always};

use super::groups::{choose_grouped, choose_moved, choose_unsigned};
use super::looks::{
    beside_first, beside_last, is_one_number, is_zero_number, negated, numbers_of, parts_of,
};
use super::{Arm, Outer};
use complex::constants::{minus_one, not_a_number, one, zero};
use expression::InfixOperator;
use expression::node::Expression;
use store::equal_at;

// e is -k, for a node equal to k.
fn negates(store: &[[u64; 4]], e: Expression, k: usize) -> bool
    ensures { LikensTo cancels_negation (memory store.now) e k result }
{
    match negated(e) {
        Some(child) => equal_at(store, child, k),
        None => false,
    }
}

// Arms 22 to 26: l or r is -e.
fn choose_signed_quotient(
    store: &[[u64; 4]],
    l: usize,
    r: usize,
    left: Expression,
    right: Expression,
) -> Option<Arm>
    ensures { ChoosesIfHeld either_negation signed_quotient (memory store.now) l r left right result }
{
    // 22. (-a)/(-b): S(a/b)
    if let Some(arm) = choose_unsigned(InfixOperator::Slash, left, right) {
        return Some(arm);
    }
    // 23. l/(-l): -1, the negation of 1, so its imaginary part is -0
    if negates(store, right, l) {
        return Some(Arm::Build(Expression::Number(minus_one())));
    }
    // 24. (-r)/r: the same
    if negates(store, left, r) {
        return Some(Arm::Build(Expression::Number(minus_one())));
    }
    // 25. l/(-e): min(l*r, S(S(-l)/e))
    // 26. (-e)/r: min(l*r, S(e/S(-r)))
    choose_moved(InfixOperator::Slash, l, r, left, right)
}

// Arms 37, 38 and 41.
fn choose_split(l: usize, r: usize, left: Expression, right: Expression) -> Arm
    ensures { ChoosesWhere always split l r left right result }
{
    let original = Expression::Infix(InfixOperator::Slash, l, r);
    // 37. (m*n)/r: min(l/r, S(m*S(n/r)))
    if let Some((m, n)) = parts_of(left, InfixOperator::Star) {
        return Arm::Smaller(
            original,
            Expression::Infix(InfixOperator::Slash, n, r),
            Outer::After(m, InfixOperator::Star),
        );
    }
    // 38. l/(m*n): min(l/r, S(S(l/m)/n))
    if let Some((m, n)) = parts_of(right, InfixOperator::Star) {
        return Arm::Smaller(
            original,
            Expression::Infix(InfixOperator::Slash, l, m),
            Outer::Before(InfixOperator::Slash, n),
        );
    }
    // 41. Rebuild
    Arm::Build(original)
}

// Arms 35 to 38 and 41.
fn choose_cancelled(
    store: &[[u64; 4]],
    l: usize,
    r: usize,
    left: Expression,
    right: Expression,
) -> Arm
    ensures { Chooses cancelled (memory store.now) l r left right result }
{
    // 35. (s*o)/s, (o*s)/s: o
    if let Some(o) = beside_first(store, left, InfixOperator::Star, r) {
        return Arm::Use(o);
    }
    if let Some(o) = beside_last(store, left, InfixOperator::Star, r) {
        return Arm::Use(o);
    }
    // 36. l/(l*o), l/(o*l): S(1/o)
    if let Some(o) = beside_first(store, right, InfixOperator::Star, l) {
        return Arm::Inverse(o);
    }
    if let Some(o) = beside_last(store, right, InfixOperator::Star, l) {
        return Arm::Inverse(o);
    }
    choose_split(l, r, left, right)
}

pub fn choose_quotient(
    store: &[[u64; 4]],
    l: usize,
    r: usize,
    left: Expression,
    right: Expression,
) -> Arm
    ensures { Chooses quotient_plan (memory store.now) l r left right result }
{
    // 9. 0/r: 0
    if is_zero_number(left) {
        return Arm::Build(Expression::Number(zero()));
    }
    // 10. l/0: NaN, imaginary 0
    if is_zero_number(right) {
        return Arm::Build(Expression::Number(not_a_number()));
    }
    // 11. l/1: l
    if is_one_number(right) {
        return Arm::Use(l);
    }
    // 12. l/l: 1
    if equal_at(store, l, r) {
        return Arm::Build(Expression::Number(one()));
    }
    // 17. Two numbers: fold
    if let Some((x, y)) = numbers_of(left, right) {
        return Arm::Fold(InfixOperator::Slash, x, y);
    }
    // 22 to 26. Dividend or divisor is -e
    if let Some(arm) = choose_signed_quotient(store, l, r, left, right) {
        return arm;
    }
    // 31. l/(b/c): min(l/r, S(S(l*c)/b))
    // 32. (a/b)/r: min(l/r, S(a*S(b/r)))
    if let Some(arm) = choose_grouped(InfixOperator::Slash, l, r, left, right) {
        return arm;
    }
    choose_cancelled(store, l, r, left, right)
}
