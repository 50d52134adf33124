// Substituting for the variables of an expression, all at once: `substitute_variables` of the Rust, over the nodes of a store. What a
// node became is remembered, so a node that is shared is substituted once.

#![tactic(auto)]

ghost use Rattle.store.specs.Held.{lent};
ghost use Rattle.substitution.specs.Run.{PutsIn, Rebuilds, Replaces, Substitutes};

use expression::node::{Expression, Operands, operands_of, with_operands};
use expression::refusal::Refusal;
use listing::swap_of;
use memory::layout::DESK_WORDS;
use results::{forget, recalled, remember};
use store::add;
use store::desk::{Refused, refuse, standing};
use store::reading::expression_at;

mod results;

// The node that is put in for a leaf: what an s line names for a variable, else the leaf's own.
fn put_in(table: &[u64], swaps: usize, e: Expression, node: usize) -> usize
    ensures { PutsIn table.now swaps e node result }
{
    let Expression::Variable(number) = e else {
        return node;
    };
    swap_of(table, swaps, number).unwrap_or(node)
}

// The operation on what its operands became, which is remembered for its node.
fn rebuild(
    store: &mut [[u64; 4]],
    desk: &mut [u64; DESK_WORDS],
    table: &mut [u64],
    node: usize,
    e: Expression,
    left: usize,
    last: usize,
) -> Result<usize, Refused>
    ensures { Rebuilds node e left last result (lent store.old desk.old) (lent store.new desk.new) table.old table.new }
{
    let became = add(store, desk, with_operands(e, left, last))?;
    remember(table, node, became);
    Ok(became)
}

// A node with its variables replaced, in evaluation's order; what is put in is not searched again. An operation that was met before is what it
// became then; a leaf is looked up anew. `below` falls, as in evaluating.
fn substitute_node(
    store: &mut [[u64; 4]],
    desk: &mut [u64; DESK_WORDS],
    table: &mut [u64],
    swaps: usize,
    node: usize,
    below: usize,
) -> Result<usize, Refused>
    ensures { Replaces table.old swaps node below result (lent store.old desk.old) (lent store.new desk.new) table.new }
{
    if below <= node {
        return Err(refuse(desk, Refusal::Room));
    }
    if let Some(known) = recalled(table, node) {
        return Ok(known);
    }
    let e = expression_at(store, node);
    match operands_of(e) {
        Operands::Nothing => Ok(put_in(table, swaps, e, node)),
        Operands::One(a) => {
            let last = substitute_node(store, desk, table, swaps, a, node)?;
            rebuild(store, desk, table, node, e, 0, last)
        }
        Operands::Two(a, b) => {
            let left = substitute_node(store, desk, table, swaps, a, node)?;
            let last = substitute_node(store, desk, table, swaps, b, node)?;
            rebuild(store, desk, table, node, e, left, last)
        }
    }
}

// The root, or another node that stands, with its variables replaced: each node below it once.
pub fn substitute_variables(
    store: &mut [[u64; 4]],
    desk: &mut [u64; DESK_WORDS],
    table: &mut [u64],
    swaps: usize,
    node: usize,
) -> Result<usize, Refused>
    ensures { Substitutes table.old swaps node result (lent store.old desk.old) (lent store.new desk.new) }
{
    let nodes = standing(desk);
    forget(table, nodes);
    substitute_node(store, desk, table, swaps, node, nodes)
}
