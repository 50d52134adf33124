// The tape of a node's tree, written to an output: a step a node visit, in the order of evaluation.
ghost use Rattle.std.specs.Prelude.{◌≡◌};
ghost use Rattle.store.specs.Memory.{memory};
ghost use Rattle.tape.specs.Run.{step_for, Emits, Compiles, Places};

use expression::node::{Expression, Operands, operands_of};
use expression::refusal::Refusal;
use steps::Step;
use steps::bytes::write_step;
use store::reading::{expression_at, size_at};

// The step of a node.
fn step_for(e: Expression) -> Step
    ensures { result ≡ step_for e }
{
    match e {
        Expression::Number(z) => Step::Number(z),
        Expression::PiConstant => Step::Pi,
        Expression::Variable(number) => Step::Variable(number),
        Expression::Address(region, index) => Step::Memory(region, index),
        Expression::FunctionCall(f, _) => Step::Function(f),
        Expression::Prefix(o, _) => Step::Prefix(o),
        Expression::Infix(o, _, _) => Step::Infix(o),
    }
}

// A step, where there is room for it.
fn place_step(out: &mut [u8], at: usize, s: Step) -> usize
    ensures { Places out.old at s result out.new }
{
    if out.len() < 24 {
        return at;
    }
    if out.len() - 24 < at {
        return at;
    }
    write_step(out, at, s)
}

// The steps of a node's tree from a place on: those of its operands, left before right, and its own. A node is above
// its operands, so `below` falls, as in evaluating.
fn emit(store: &[[u64; 4]], node: usize, below: usize, out: &mut [u8], at: usize) -> usize
    ensures { Emits (memory store.now) node below at result out.old out.new }
{
    if below <= node {
        return at;
    }
    let e = expression_at(store, node);
    let operands = operands_of(e);
    match operands {
        Operands::Nothing => place_step(out, at, step_for(e)),
        Operands::One(a) => {
            let end = emit(store, a, node, out, at);
            place_step(out, end, step_for(e))
        }
        Operands::Two(a, b) => {
            let middle = emit(store, a, node, out, at);
            let end = emit(store, b, node, out, middle);
            place_step(out, end, step_for(e))
        }
    }
}

// The tape of a node's tree at the start of the output: 14, then 13, before the first byte is written.
pub fn compile(
    store: &[[u64; 4]],
    root: usize,
    nodes: usize,
    out: &mut [u8],
) -> Result<usize, Refusal>
    ensures { Compiles (memory store.now) root nodes result out.old out.new }
{
    let size = size_at(store, root);
    if 512 < size {
        return Err(Refusal::LongTape);
    }
    if (out.len() as u64) < 24 * size {
        return Err(Refusal::OutRoom);
    }
    Ok(emit(store, root, nodes, out, 0))
}
