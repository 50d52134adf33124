// What is done at a node for which nothing is kept, and how calls are counted: rules of simplifying that are decided by the
// node and the limit alone. Nothing is built or simplified here.

#![tactic(auto)]

ghost use Rattle.std.specs.Prelude.{◌≡◌};
ghost use Rattle.store.specs.Desk.{calls_on, with_calls};
ghost use Rattle.tasks.specs.Deciding.{one_more, node_task};

use expression::node::Expression;
use expression::{ExpressionFunction, InfixOperator, PrefixOperator};
use limit::Limit;
use memory::layout::DESK_WORDS;
use store::desk::{calls_made, set_calls};

pub mod limit;

// What is done at a node, with the numbers of the nodes that it is about.
#[derive(Clone, Copy)]
pub enum Task {
    // pi's number is stored
    NumberOfPi,
    // this node is its own result
    Itself(usize),
    // the operation runs on these operands
    FunctionCall(ExpressionFunction, usize),
    Infix(InfixOperator, usize, usize),
    Prefix(PrefixOperator, usize),
}

// One more simplify call.
pub fn one_more(calls: u64) -> u64
    ensures { result ≡ one_more calls }
{
    calls.saturating_add(1)
}

// The same on the desk.
pub fn count_call(desk: &mut [u64; DESK_WORDS])
    ensures { desk.new ≡ with_calls desk.old (one_more (calls_on desk.old)) }
{
    let calls = one_more(calls_made(desk));
    set_calls(desk, calls);
}

// "pi gives its number (400921FB54442D18), even at limit 0; limit 0 gives the node; leaves give themselves. Otherwise the operation runs."
pub fn task_at(limit: Limit, node: usize, e: Expression) -> Task
    ensures { result ≡ node_task limit.0 node e }
{
    let itself = Task::Itself(node);
    if let Expression::PiConstant = e {
        return Task::NumberOfPi;
    }
    if limit.is_spent() {
        return itself;
    }
    match e {
        Expression::FunctionCall(function, child) => Task::FunctionCall(function, child),
        Expression::Infix(operator, left, right) => Task::Infix(operator, left, right),
        Expression::Prefix(operator, child) => Task::Prefix(operator, child),
        Expression::Address(_, _) => itself,
        Expression::Number(_) => itself,
        Expression::PiConstant => Task::NumberOfPi,
        Expression::Variable(_) => itself,
    }
}
