// The cycle of simplifying: `simplify` and what it calls, with the limit falling, and the carriers of the arms' shapes,
// each of which stores and simplifies in the Rust's order. Each answers a node, or that nothing was built; why stands on the desk then.

#![tactic(auto)]

ghost use Rattle.store.specs.Held.{lent};
ghost use Rattle.arms.specs.declared.Arm.{Arm as Arms};
ghost use Rattle.simplification.specs.Run.{Stores, Carries, Adds, CallsFunction, Prefixes, Infixes, Performs, Simplifies};

use arms::{Arm, Outer, choose_function, choose_infix, choose_prefix, smaller};
use complex::constants::{one, pi, two};
use evaluation::calculate::{calculate_function, calculate_infix};
use evaluation::{Asked, Evaluation};
use expression::node::Expression;
use expression::refusal::Refusal;
use expression::{ExpressionFunction, InfixOperator, PrefixOperator};
use memory::layout::DESK_WORDS;
use sheet::Counts;
use store::desk::{Refused, note, refuse};
use store::reading::expression_at;
use store::{add, keep, kept_at};
use tasks::limit::Limit;
use tasks::{Task, count_call, task_at};

// A folded number is stored; NEED comes before. The rows that were found for it are marked first, also where another is lacking.
fn store_value(
    store: &mut [[u64; 4]],
    desk: &mut [u64; DESK_WORDS],
    asked: Asked,
) -> Result<usize, Refused>
    ensures { Stores asked result (lent store.old desk.old) (lent store.new desk.new) }
{
    note(desk, asked.used.first, asked.used.second);
    match asked.value {
        Evaluation::Value(z) => add(store, desk, Expression::Number(z)),
        Evaluation::Incomplete => Err(refuse(desk, Refusal::Incomplete)),
        Evaluation::Need(operation, x, y) => Err(refuse(desk, Refusal::Need(operation, x, y))),
    }
}

// S(e), for a new node e.
#[cycle(simplifying)]
fn again(
    limit: Limit,
    store: &mut [[u64; 4]],
    desk: &mut [u64; DESK_WORDS],
    table: &[u64],
    counts: Counts,
    e: Expression,
) -> Result<usize, Refused>
    ensures { Carries limit.0 table.now counts (Arms.Again e) result (lent store.old desk.old) (lent store.new desk.new) }
{
    let added = add(store, desk, e)?;
    simplify(limit, store, desk, table, counts, added)
}

// S(1/other)
#[cycle(simplifying)]
fn inverse(
    limit: Limit,
    store: &mut [[u64; 4]],
    desk: &mut [u64; DESK_WORDS],
    table: &[u64],
    counts: Counts,
    other: usize,
) -> Result<usize, Refused>
    ensures { Carries limit.0 table.now counts (Arms.Inverse other) result (lent store.old desk.old) (lent store.new desk.new) }
{
    let dividend = add(store, desk, Expression::Number(one()))?;
    let quotient = Expression::Infix(InfixOperator::Slash, dividend, other);
    again(limit, store, desk, table, counts, quotient)
}

// S of what is made around S(inner).
#[cycle(simplifying)]
fn regroup(
    limit: Limit,
    store: &mut [[u64; 4]],
    desk: &mut [u64; DESK_WORDS],
    table: &[u64],
    counts: Counts,
    inner: Expression,
    outer: Outer,
) -> Result<usize, Refused>
    ensures { Carries limit.0 table.now counts (Arms.Regroup inner outer) result (lent store.old desk.old) (lent store.new desk.new) }
{
    let it = again(limit, store, desk, table, counts, inner)?;
    again(limit, store, desk, table, counts, outer.applied(it))
}

// min(original, S of what is made around S(e)): the first choice is stored first.
#[cycle(simplifying)]
fn smaller_regrouped(
    limit: Limit,
    store: &mut [[u64; 4]],
    desk: &mut [u64; DESK_WORDS],
    table: &[u64],
    counts: Counts,
    original: Expression,
    e: Expression,
    outer: Outer,
) -> Result<usize, Refused>
    ensures { Carries limit.0 table.now counts (Arms.Smaller original e outer) result (lent store.old desk.old) (lent store.new desk.new) }
{
    let first = add(store, desk, original)?;
    let second = regroup(limit, store, desk, table, counts, e, outer)?;
    Ok(smaller(store, first, second))
}

// S(S(a)+S(b))
#[cycle(simplifying)]
fn add_simplified(
    limit: Limit,
    store: &mut [[u64; 4]],
    desk: &mut [u64; DESK_WORDS],
    table: &[u64],
    counts: Counts,
    a: Expression,
    b: Expression,
) -> Result<usize, Refused>
    ensures { Adds limit.0 table.now counts a b result (lent store.old desk.old) (lent store.new desk.new) }
{
    let left = again(limit, store, desk, table, counts, a)?;
    let right = again(limit, store, desk, table, counts, b)?;
    let sum = Expression::Infix(InfixOperator::Plus, left, right);
    again(limit, store, desk, table, counts, sum)
}

// min(original, S(S(a)+S(b)))
#[cycle(simplifying)]
fn distribute(
    limit: Limit,
    store: &mut [[u64; 4]],
    desk: &mut [u64; DESK_WORDS],
    table: &[u64],
    counts: Counts,
    original: Expression,
    a: Expression,
    b: Expression,
) -> Result<usize, Refused>
    ensures { Carries limit.0 table.now counts (Arms.Distribute original a b) result (lent store.old desk.old) (lent store.new desk.new) }
{
    let product = add(store, desk, original)?;
    let sum = add_simplified(limit, store, desk, table, counts, a, b)?;
    Ok(smaller(store, product, sum))
}

// S(S(2*x)+S(a+b))
#[cycle(simplifying)]
fn double(
    limit: Limit,
    store: &mut [[u64; 4]],
    desk: &mut [u64; DESK_WORDS],
    table: &[u64],
    counts: Counts,
    x: usize,
    a: usize,
    b: usize,
) -> Result<usize, Refused>
    ensures { Carries limit.0 table.now counts (Arms.Double x a b) result (lent store.old desk.old) (lent store.new desk.new) }
{
    let factor = add(store, desk, Expression::Number(two()))?;
    let two_x = Expression::Infix(InfixOperator::Star, factor, x);
    let sum_bs = Expression::Infix(InfixOperator::Plus, a, b);
    add_simplified(limit, store, desk, table, counts, two_x, sum_bs)
}

// S(S(S(a)*x)+S(b)), S(a) and S(b) first
#[cycle(simplifying)]
fn affine(
    limit: Limit,
    store: &mut [[u64; 4]],
    desk: &mut [u64; DESK_WORDS],
    table: &[u64],
    counts: Counts,
    a: Expression,
    x: usize,
    b: Expression,
) -> Result<usize, Refused>
    ensures { Carries limit.0 table.now counts (Arms.Affine a x b) result (lent store.old desk.old) (lent store.new desk.new) }
{
    let sum_as = again(limit, store, desk, table, counts, a)?;
    let sum_bs = again(limit, store, desk, table, counts, b)?;
    let product = Expression::Infix(InfixOperator::Star, sum_as, x);
    let outer = Outer::Before(InfixOperator::Plus, sum_bs);
    regroup(limit, store, desk, table, counts, product, outer)
}

// What an arm wants.
#[cycle(simplifying)]
fn carry_out(
    limit: Limit,
    store: &mut [[u64; 4]],
    desk: &mut [u64; DESK_WORDS],
    table: &[u64],
    counts: Counts,
    arm: Arm,
) -> Result<usize, Refused>
    ensures { Carries limit.0 table.now counts arm result (lent store.old desk.old) (lent store.new desk.new) }
{
    match arm {
        Arm::Use(i) => Ok(i),
        Arm::Build(e) => add(store, desk, e),
        Arm::Fold(operator, x, y) => {
            let asked = calculate_infix(table, counts, x, operator, y);
            store_value(store, desk, asked)
        }
        Arm::Call(function, x) => {
            let asked = calculate_function(table, counts, function, x);
            store_value(store, desk, asked)
        }
        Arm::Again(e) => again(limit, store, desk, table, counts, e),
        Arm::Inverse(x) => inverse(limit, store, desk, table, counts, x),
        Arm::Regroup(e, o) => regroup(limit, store, desk, table, counts, e, o),
        Arm::Smaller(d, e, o) => smaller_regrouped(limit, store, desk, table, counts, d, e, o),
        Arm::Distribute(d, a, b) => distribute(limit, store, desk, table, counts, d, a, b),
        Arm::Double(x, a, b) => double(limit, store, desk, table, counts, x, a, b),
        Arm::Affine(a, x, b) => affine(limit, store, desk, table, counts, a, x, b),
    }
}

// The operand at the limit, then what the arm wants at 1 less.
#[cycle(simplifying)]
fn simplify_function_call(
    limit: Limit,
    store: &mut [[u64; 4]],
    desk: &mut [u64; DESK_WORDS],
    table: &[u64],
    counts: Counts,
    function: ExpressionFunction,
    child: usize,
) -> Result<usize, Refused>
    ensures { CallsFunction limit.0 table.now counts function child result (lent store.old desk.old) (lent store.new desk.new) }
{
    let x = simplify(limit, store, desk, table, counts, child)?;
    let arm = choose_function(store, function, x);
    let limit = limit.lowered();
    carry_out(limit, store, desk, table, counts, arm)
}

// Left before right, then the same.
#[cycle(simplifying)]
fn simplify_infix(
    limit: Limit,
    store: &mut [[u64; 4]],
    desk: &mut [u64; DESK_WORDS],
    table: &[u64],
    counts: Counts,
    left: usize,
    operator: InfixOperator,
    right: usize,
) -> Result<usize, Refused>
    ensures { Infixes limit.0 table.now counts operator left right result (lent store.old desk.old) (lent store.new desk.new) }
{
    let x = simplify(limit, store, desk, table, counts, left)?;
    let y = simplify(limit, store, desk, table, counts, right)?;
    let arm = choose_infix(store, x, operator, y);
    let limit = limit.lowered();
    carry_out(limit, store, desk, table, counts, arm)
}

// As for a function.
#[cycle(simplifying)]
fn simplify_prefix(
    limit: Limit,
    store: &mut [[u64; 4]],
    desk: &mut [u64; DESK_WORDS],
    table: &[u64],
    counts: Counts,
    operator: PrefixOperator,
    child: usize,
) -> Result<usize, Refused>
    ensures { Prefixes limit.0 table.now counts operator child result (lent store.old desk.old) (lent store.new desk.new) }
{
    let x = simplify(limit, store, desk, table, counts, child)?;
    let arm = choose_prefix(store, operator, x);
    let limit = limit.lowered();
    carry_out(limit, store, desk, table, counts, arm)
}

// The task of a node for which nothing is kept; an operation "runs with limit 1 less".
#[cycle(simplifying)]
fn perform(
    limit: Limit,
    store: &mut [[u64; 4]],
    desk: &mut [u64; DESK_WORDS],
    table: &[u64],
    counts: Counts,
    node: usize,
    e: Expression,
) -> Result<usize, Refused>
    ensures { Performs limit.0 table.now counts node e result (lent store.old desk.old) (lent store.new desk.new) }
{
    let task = task_at(limit, node, e);
    let limit = limit.lowered();
    match task {
        Task::NumberOfPi => add(store, desk, Expression::Number(pi())),
        Task::Itself(i) => Ok(i),
        Task::FunctionCall(f, a) => simplify_function_call(limit, store, desk, table, counts, f, a),
        Task::Infix(o, a, b) => simplify_infix(limit, store, desk, table, counts, a, o, b),
        Task::Prefix(o, a) => simplify_prefix(limit, store, desk, table, counts, o, a),
    }
}

// A node simplified at a limit. "A cached equal node gives its cached result, whatever limit it was made at." The answer is kept for the node,
// "also at limit 0"; a refusal is not.
#[cycle(simplifying)]
pub fn simplify(
    limit: Limit,
    store: &mut [[u64; 4]],
    desk: &mut [u64; DESK_WORDS],
    table: &[u64],
    counts: Counts,
    node: usize,
) -> Result<usize, Refused>
    ensures { Simplifies limit.0 table.now counts node result (lent store.old desk.old) (lent store.new desk.new) }
{
    count_call(desk);
    if let Some(kept) = kept_at(store, node) {
        return Ok(kept);
    }
    let e = expression_at(store, node);
    let answer = perform(limit, store, desk, table, counts, node, e)?;
    keep(store, node, answer);
    Ok(answer)
}
