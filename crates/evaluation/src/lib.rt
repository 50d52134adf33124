// Evaluating an expression under a sheet's values, and reading it as a real number: `evaluate` and `to_real` of the Rust, over
// the nodes of a store.

#![tactic(auto)]

ghost use Rattle.std.specs.Prelude.{◌≡◌};
ghost use Rattle.store.specs.Memory.{memory};
ghost use Rattle.sheet.specs.Table.{seen_found, used_in};
ghost use Rattle.evaluation.specs.Evaluating.{bound};
ghost use Rattle.memory.specs.Marks.{noted};
ghost use Rattle.evaluation.specs.Run.{Evaluates, EvaluatesLast};

use calculate::{calculate_function, calculate_infix, calculate_prefix, unused};
use complex::Complex;
use complex::constants::pi;
use expression::node::Expression;
use expression::refusal::Operation;
use memory::layout::MARKS;
use memory::mark;
use settling::settle;
use sheet::{Counts, Used, cell, variable};
use store::numbers::number_at;
use store::reading::expression_at;

pub mod calculate;
pub mod real;
mod settling;

// "Evaluation answers a value, Incomplete, or the function value it lacks."
#[derive(Clone, Copy)]
pub enum Evaluation {
    Value(Complex),
    Incomplete,
    Need(Operation, Complex, Complex),
}

// What an operation gives, and the rows of the sheet that it used.
#[derive(Clone, Copy)]
pub struct Asked {
    pub value: Evaluation,
    pub used: Used,
}

// The rows that were used are marked.
pub fn note(marks: &mut [u8], used: Used)
    ensures { marks.new ≡ noted (used_in used) marks.old }
{
    mark(marks, used.first);
    mark(marks, used.second);
}

// A variable or a cell that is not bound is a lack.
pub fn bound_value(found: Option<Complex>) -> Evaluation
    ensures { result ≡ bound (seen_found found) }
{
    match found {
        Some(z) => Evaluation::Value(z),
        None => Evaluation::Incomplete,
    }
}

// The value of a node whose operands are numbers, and the rows that it used.
fn value_of(store: &[[u64; 4]], table: &[u64], counts: Counts, node: usize) -> Asked
    ensures { EvaluatesLast (memory store.now) table.now counts node result }
{
    let e = expression_at(store, node);
    match e {
        Expression::FunctionCall(function, child) => {
            calculate_function(table, counts, function, number_at(store, child))
        }
        Expression::Infix(operator, left, right) => calculate_infix(
            table,
            counts,
            number_at(store, left),
            operator,
            number_at(store, right),
        ),
        Expression::Prefix(operator, child) => {
            unused(Evaluation::Value(calculate_prefix(operator, number_at(store, child))))
        }
        Expression::Variable(number) => unused(bound_value(variable(table, counts, number))),
        Expression::Address(region, index) => {
            unused(bound_value(cell(table, counts, region, index)))
        }
        Expression::PiConstant => unused(Evaluation::Value(pi())),
        Expression::Number(z) => unused(Evaluation::Value(z)),
    }
}

// The value of a node, or its first lack, and the marks of the rows that were used up to there. The store's rows are used up: nodes
// become their values in them. A number that is not below `below` is no node of the store.
pub fn evaluate(
    store: &mut [[u64; 4]],
    table: &[u64],
    counts: Counts,
    node: usize,
    below: usize,
    marks: &mut [u8; MARKS],
) -> Evaluation
    ensures { Evaluates (memory store.old) table.now counts node below result marks.old marks.new }
{
    if below <= node {
        return Evaluation::Incomplete;
    }
    match settle(store, table, counts, node, below, marks) {
        Ok(()) => Evaluation::Value(number_at(store, node)),
        Err(lack) => {
            let asked = value_of(store, table, counts, lack);
            asked.value
        }
    }
}
