// The first variable or memory cell that a sheet does not bind, in the order of evaluation: what explains a refusal 10.

#![tactic(auto)]

ghost use Rattle.std.specs.Prelude.{◌≡◌, ◌≤◌, length};
ghost use Rattle.memory.specs.Layout.{table_words};
ghost use Rattle.store.specs.Memory.{memory};
ghost use Rattle.sheet.specs.Table.{seen_found};
ghost use Rattle.calls.specs.Lent.{work, capacity};
ghost use Rattle.lacks.specs.Lacking.{unless_bound, missing_in_job, NamesInJob};
ghost use Rattle.lacks.specs.Run.{Names, NamesAt, NamesBelow};

use calls::frame::{clear_work, read_job};
use complex::Complex;
use complex::constants::zero;
use expression::node::{Expression, Operands};
use memory::layout::{DESK_WORDS, TABLE_WORDS};
use sheet::{Counts, cell, variable};
use store::desk::standing;
use store::numbers::put_number;
use store::reading::{expression_at, operands_at};

pub mod tapes;

#[derive(Clone, Copy)]
pub enum Missing {
    Variable(u16),
    Cell(u16, u32),
}

// A name, where nothing was found under it.
fn unless_bound(name: Missing, found: Option<Complex>) -> Option<Missing>
    ensures { result ≡ unless_bound name (seen_found found) }
{
    match found {
        Some(_) => None,
        None => Some(name),
    }
}

// Of a node itself: its operands are left out.
fn missing_at(store: &[[u64; 4]], table: &[u64], counts: Counts, node: usize) -> Option<Missing>
    ensures { NamesAt (memory store.now) table.now counts node result }
{
    let e = expression_at(store, node);
    match e {
        Expression::Variable(number) => {
            unless_bound(Missing::Variable(number), variable(table, counts, number))
        }
        Expression::Address(region, index) => unless_bound(
            Missing::Cell(region, index),
            cell(table, counts, region, index),
        ),
        _ => None,
    }
}

// "Depth first, left before right."
#[cycle(missing)]
fn missing_below(
    store: &mut [[u64; 4]],
    table: &[u64],
    counts: Counts,
    node: usize,
) -> Option<Missing>
    ensures { NamesBelow (memory store.old) (memory store.new) table.now counts node result }
{
    let operands = operands_at(store, node);
    match operands {
        Operands::Nothing => None,
        Operands::One(child) => first_missing(store, table, counts, child, node),
        Operands::Two(left, right) => {
            if let Some(missing) = first_missing(store, table, counts, left, node) {
                return Some(missing);
            }
            first_missing(store, table, counts, right, node)
        }
    }
}

// A node that lacks nothing becomes a number, so that whoever comes to it again goes no further. A node is above its operands, so
// `below` falls, as in evaluating.
#[cycle(missing)]
pub fn first_missing(
    store: &mut [[u64; 4]],
    table: &[u64],
    counts: Counts,
    node: usize,
    below: usize,
) -> Option<Missing>
    ensures { Names (memory store.old) (memory store.new) table.now counts node below result }
{
    if below <= node {
        return None;
    }
    if let Some(missing) = missing_at(store, table, counts, node) {
        return Some(missing);
    }
    if let Some(missing) = missing_below(store, table, counts, node) {
        return Some(missing);
    }
    put_number(store, node, zero());
    None
}

fn missing_in_texts(
    list: &[u8],
    values: &[u8],
    store: &mut [[u64; 4]],
    desk: &mut [u64; DESK_WORDS],
    table: &mut [u64],
) -> Option<Missing>
    requires { table_words ≤ length table.old }
    ensures { result ≡ missing_in_job (capacity (work store.old desk.old table.old)) list.now values.now }
{
    let job = read_job(list, values, store, desk, table).ok()?;
    let nodes = standing(desk);
    first_missing(store, table, job.counts, job.root, nodes)
}

// Of an expression under a sheet, as texts; nothing where one of them is refused.
pub fn missing_in_job(
    list: &[u8],
    values: &[u8],
    store: &mut [[u64; 4]],
    desk: &mut [u64; DESK_WORDS],
    table: &mut [u64; TABLE_WORDS],
) -> Option<Missing>
    ensures { NamesInJob list.now values.now (work store.old desk.old table.old) result (work store.new desk.new table.new) }
{
    let answer = missing_in_texts(list, values, store, desk, table);
    clear_work(store, desk, table);
    answer
}
