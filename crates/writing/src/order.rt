// The written order of a tree: a table of its nodes, each once, in the order in which evaluation first finishes them.
// Word i of the table is the node of line i; the link of node k is the line of node k, if that line's node is k.
ghost use Rattle.std.specs.Prelude.{◌≡◌};
ghost use Rattle.store.specs.Memory.{memory};
ghost use Rattle.writing.specs.Ordering.{Tells, Visits, VisitsOperands, Enters};

use expression::node::Operands;
use memory::{put, read};
use store::reading::operands_at;
use store::words::{link_at, put_link};

// A store has at most this many nodes, and the table this many lines.
const MOST: usize = 4096;

// Whether a node is among the first `count` of the table.
fn is_listed(store: &[[u64; 4]], table: &[u64], node: usize, count: usize) -> bool
    ensures { Tells (memory store.now) table.now node count result }
{
    let line = link_at(store, node) as usize;
    if line < count {
        read(table, line) == node as u64
    } else {
        false
    }
}

// A node after the first `count`, where there is room for it.
fn enter(store: &mut [[u64; 4]], table: &mut [u64], node: usize, count: usize) -> usize
    ensures { Enters (memory store.old) table.old node count result (memory store.new) table.new }
{
    if MOST <= count {
        return count;
    }
    put(table, count, node as u64);
    put_link(store, node, count as u64);
    count + 1
}

// The nodes below `node`, as far as they are not in the table.
#[cycle(visiting)]
fn visit_operands(store: &mut [[u64; 4]], table: &mut [u64], node: usize, count: usize) -> usize
    ensures { VisitsOperands (memory store.old) table.old node count result (memory store.new) table.new }
{
    match operands_at(store, node) {
        Operands::Nothing => count,
        Operands::One(child) => visit(store, table, child, node, count),
        Operands::Two(left, right) => {
            let last = visit(store, table, left, node, count);
            visit(store, table, right, node, last)
        }
    }
}

// The nodes below `node` and then itself, as far as they are not in the table; a number that is not below `below` is no node.
#[cycle(visiting)]
pub fn visit(
    store: &mut [[u64; 4]],
    table: &mut [u64],
    node: usize,
    below: usize,
    count: usize,
) -> usize
    ensures { Visits (memory store.old) table.old node below count result (memory store.new) table.new }
{
    if below <= node {
        return count;
    }
    if is_listed(store, table, node, count) {
        return count;
    }
    let last = visit_operands(store, table, node, count);
    enter(store, table, node, last)
}
