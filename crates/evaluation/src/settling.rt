// Nodes that become their values, each once: a node that has a value is overwritten by it, so that whoever comes to it again finds
// a number. `settle` answers with an error the node at which a value was lacking; `finish`, whether there is one. The rows that were
// used are marked when they are found, so a value that stands already marks none.
ghost use Rattle.store.specs.Memory.{memory};
ghost use Rattle.evaluation.specs.Run.{Settles, SettlesOperands, Finishes, FinishesInfix};

use super::calculate::{arithmetic, calculate_prefix};
use super::{Evaluation, note, value_of};
use expression::InfixOperator;
use expression::node::{Expression, Operands};
use memory::layout::MARKS;
use sheet::Counts;
use store::numbers::{is_number, number_at, put_number};
use store::reading::{expression_at, operands_at};

// Of a node whose operands are numbers: a leaf, or what the sheet is asked for. The rows are marked also where one is lacking.
fn finish_asked(
    store: &mut [[u64; 4]],
    table: &[u64],
    counts: Counts,
    node: usize,
    marks: &mut [u8; MARKS],
) -> bool
    ensures { Finishes (memory store.old) (memory store.new) table.now counts node result marks.old marks.new }
{
    let asked = value_of(store, table, counts, node);
    note(marks, asked.used);
    let value = asked.value;
    let Evaluation::Value(z) = value else {
        return false;
    };
    put_number(store, node, z);
    true
}

// Of an infix operation on two numbers: arithmetic goes from row to row.
fn finish_infix(
    store: &mut [[u64; 4]],
    table: &[u64],
    counts: Counts,
    node: usize,
    operator: InfixOperator,
    left: usize,
    right: usize,
    marks: &mut [u8; MARKS],
) -> bool
    ensures { FinishesInfix operator left right (memory store.old) (memory store.new) table.now counts node result marks.old marks.new }
{
    if let InfixOperator::Caret = operator {
        return finish_asked(store, table, counts, node, marks);
    }
    let value = arithmetic(number_at(store, left), operator, number_at(store, right));
    put_number(store, node, value);
    true
}

// Of a node whose operands are numbers.
fn finish(
    store: &mut [[u64; 4]],
    table: &[u64],
    counts: Counts,
    node: usize,
    marks: &mut [u8; MARKS],
) -> bool
    ensures { Finishes (memory store.old) (memory store.new) table.now counts node result marks.old marks.new }
{
    let e = expression_at(store, node);
    match e {
        Expression::Infix(operator, left, right) => {
            finish_infix(store, table, counts, node, operator, left, right, marks)
        }
        Expression::Prefix(operator, child) => {
            put_number(
                store,
                node,
                calculate_prefix(operator, number_at(store, child)),
            );
            true
        }
        _ => finish_asked(store, table, counts, node, marks),
    }
}

// "It goes depth first, left before right", up to the first lack.
#[cycle(settling)]
fn settle_operands(
    store: &mut [[u64; 4]],
    table: &[u64],
    counts: Counts,
    node: usize,
    marks: &mut [u8; MARKS],
) -> Result<(), usize>
    ensures { SettlesOperands (memory store.old) (memory store.new) table.now counts node result marks.old marks.new }
{
    let operands = operands_at(store, node);
    match operands {
        Operands::Nothing => Ok(()),
        Operands::One(child) => settle(store, table, counts, child, node, marks),
        Operands::Two(left, right) => {
            settle(store, table, counts, left, node, marks)?;
            settle(store, table, counts, right, node, marks)
        }
    }
}

// A node's number is above those of its operands, so `below` falls.
#[cycle(settling)]
pub fn settle(
    store: &mut [[u64; 4]],
    table: &[u64],
    counts: Counts,
    node: usize,
    below: usize,
    marks: &mut [u8; MARKS],
) -> Result<(), usize>
    ensures { Settles (memory store.old) (memory store.new) table.now counts node below result marks.old marks.new }
{
    if below <= node {
        return Err(0);
    }
    if is_number(store, node) {
        return Ok(());
    }
    settle_operands(store, table, counts, node, marks)?;
    if finish(store, table, counts, node, marks) {
        Ok(())
    } else {
        Err(node)
    }
}
