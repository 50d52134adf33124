// The arms of +: 1, 2, 17 to 19, 27 to 30, 32 and 41.
ghost use Rattle.store.specs.Memory.{memory};
ghost use Rattle.arms.specs.Arms.{shared};
ghost use Rattle.arms.specs.Tables.{affine_test, like_products, like_sums, affine_sum, sum_plan};
ghost use Rattle.arms.specs.Choosing.{product_of_sums, doubled_sum, Chooses, ChoosesLike};

use super::groups::choose_grouped;
use super::looks::{is_zero_number, negated, numbers_of, parts_of};
use super::{Arm, Outer};
use expression::InfixOperator;
use expression::node::Expression;
use store::equal_at;
use store::reading::expression_at;

// Arm 27: which factor is shared, "tried as p=p', p=q', q=p', q=q'"; here p' is s and q' is t.
fn choose_shared(store: &[[u64; 4]], left: Expression, right: Expression) -> Option<Arm>
    ensures { ChoosesLike affine_test shared (memory store.now) left right result }
{
    let (ax, b) = parts_of(left, InfixOperator::Plus)?;
    let (ay, c) = parts_of(right, InfixOperator::Plus)?;
    let (p, q) = parts_of(expression_at(store, ax), InfixOperator::Star)?;
    let (s, t) = parts_of(expression_at(store, ay), InfixOperator::Star)?;
    let sum_bs = Expression::Infix(InfixOperator::Plus, b, c);
    // p=p': S(S(S(q+q')*p)+S(b+b'))
    if equal_at(store, p, s) {
        return Some(Arm::Affine(Expression::Infix(InfixOperator::Plus, q, t), p, sum_bs));
    }
    // p=q': S(S(S(q+p')*p)+S(b+b'))
    if equal_at(store, p, t) {
        return Some(Arm::Affine(Expression::Infix(InfixOperator::Plus, q, s), p, sum_bs));
    }
    // q=p': S(S(S(p+q')*q)+S(b+b'))
    if equal_at(store, q, s) {
        return Some(Arm::Affine(Expression::Infix(InfixOperator::Plus, p, t), q, sum_bs));
    }
    // q=q': S(S(S(p+p')*q')+S(b+b'))
    if equal_at(store, q, t) {
        return Some(Arm::Affine(Expression::Infix(InfixOperator::Plus, p, s), t, sum_bs));
    }
    None
}

// Arm 28: a*x+b*x.
fn choose_like_products(store: &[[u64; 4]], left: Expression, right: Expression) -> Option<Arm>
    ensures { ChoosesLike like_products product_of_sums (memory store.now) left right result }
{
    let (a, x) = parts_of(left, InfixOperator::Star)?;
    let (b, y) = parts_of(right, InfixOperator::Star)?;
    if !equal_at(store, x, y) {
        return None;
    }
    // S(S(a+b)*x)
    Some(Arm::Regroup(
        Expression::Infix(InfixOperator::Plus, a, b),
        Outer::Before(InfixOperator::Star, x),
    ))
}

// Arm 29: (x+a)+(x+b).
fn choose_like_sums(store: &[[u64; 4]], left: Expression, right: Expression) -> Option<Arm>
    ensures { ChoosesLike like_sums doubled_sum (memory store.now) left right result }
{
    let (x, a) = parts_of(left, InfixOperator::Plus)?;
    let (y, b) = parts_of(right, InfixOperator::Plus)?;
    if !equal_at(store, x, y) {
        return None;
    }
    // S(S(2*x)+S(a+b))
    Some(Arm::Double(x, a, b))
}

// Arms 27 to 30, 32 and 41.
fn choose_affine(store: &[[u64; 4]], l: usize, r: usize, left: Expression, right: Expression) -> Arm
    ensures { Chooses affine_sum (memory store.now) l r left right result }
{
    // 27. (p*q+b)+(p'*q'+b') with a shared factor: S(S(S(a+a')*x)+S(b+b')), sums first
    if let Some(arm) = choose_shared(store, left, right) {
        return arm;
    }
    // 28. a*x+b*x: S(S(a+b)*x)
    if let Some(arm) = choose_like_products(store, left, right) {
        return arm;
    }
    // 29. (x+a)+(x+b): S(S(2*x)+S(a+b))
    if let Some(arm) = choose_like_sums(store, left, right) {
        return arm;
    }
    // 30. l+(b+c): min(l+r, S(S(l+b)+c))
    // 32. (a+b)+r: min(l+r, S(a+S(b+r)))
    if let Some(arm) = choose_grouped(InfixOperator::Plus, l, r, left, right) {
        return arm;
    }
    // 41. Rebuild
    Arm::Build(Expression::Infix(InfixOperator::Plus, l, r))
}

pub fn choose_sum(
    store: &[[u64; 4]],
    l: usize,
    r: usize,
    left: Expression,
    right: Expression,
) -> Arm
    ensures { Chooses sum_plan (memory store.now) l r left right result }
{
    // 1. 0+r: r
    if is_zero_number(left) {
        return Arm::Use(r);
    }
    // 2. l+0: l
    if is_zero_number(right) {
        return Arm::Use(l);
    }
    // 17. Two numbers: fold
    if let Some((x, y)) = numbers_of(left, right) {
        return Arm::Fold(InfixOperator::Plus, x, y);
    }
    // 18. l+(-e): S(l-e)
    if let Some(e) = negated(right) {
        return Arm::Again(Expression::Infix(InfixOperator::Minus, l, e));
    }
    // 19. (-e)+r: S(r-e)
    if let Some(e) = negated(left) {
        return Arm::Again(Expression::Infix(InfixOperator::Minus, r, e));
    }
    choose_affine(store, l, r, left, right)
}
