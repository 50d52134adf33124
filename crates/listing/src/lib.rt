// A listing, read line by line into a store.

#![tactic(auto)]

ghost use Rattle.std.specs.Prelude.{◌≡◌, [], ◌≤◌, length};
ghost use Rattle.memory.specs.Layout.{table_words};
ghost use Rattle.store.specs.Held.{lent, Sound};
ghost use Rattle.store.specs.Tracing.{Traced};
ghost use Rattle.listing.specs.Listings.{node_line, listing_line};
ghost use Rattle.listing.specs.Tables.{moved, Reads, FindsSwap, Above, Ready, TakesSwap, TakesLine, ReadsLines, root_of, LooksUp};

use expression::node::Expression;
use expression::refusal::Refusal;
use memory::halving::search;
use memory::layout::{DESK_WORDS, SWAPS_FROM};
use memory::{put, read};
use node_lines::{LF, TAB, map_operands, read_node};
use store::desk::refusal_of;
use store::{add, mark, start};
use text::reading::{decimal_field, end_field};

// 01's counts.
const MOST_NODE_LINES: usize = 1024;

const MOST_SWAPS: usize = 256;

// A listing that was read: the node of the root, and how many s lines the table has.
#[derive(Clone, Copy)]
pub struct Listed {
    pub root: usize,
    pub swaps: usize,
}

// The node of a line, whose operands are numbers of lines, with the nodes of these lines.
fn moved_by(table: &[u64], e: Expression) -> Expression
    ensures { result ≡ moved table.now e }
{
    map_operands(e, |line| read(table, line) as usize)
}

// How far reading is: how many node lines and s lines are read.
#[derive(Clone, Copy)]
struct Progress {
    lines: usize,
    swaps: usize,
}

// An s line after its first byte: its variable, the line of its node, and the bytes after it.
fn read_swap(s: &[u8], lines: usize) -> Option<(u64, usize, &[u8])>
    requires { lines ≤ 1024 }
    ensures { FindsSwap s.now lines result }
{
    let (_, s) = end_field(Some((115, s)), TAB)?;
    let (variable, s) = decimal_field(s, TAB, 65536)?;
    let (line, s) = decimal_field(s, LF, lines as u64)?;
    Some((variable, line as usize, s))
}

// An s line: 2, then 1.
fn take_swap<'a>(
    s: &'a [u8],
    substituting: bool,
    table: &mut [u64],
    p: Progress,
) -> Result<(Progress, &'a [u8]), Refusal>
    requires { Ready table.old p }
    ensures { TakesSwap substituting s.now table.old p result table.new }
{
    let lines = p.lines;
    let swaps = p.swaps;
    let here = (lines + swaps) as u64;
    if MOST_SWAPS <= swaps {
        return Err(Refusal::LongList(here));
    }
    let Some((variable, line, rest)) = read_swap(s, lines) else {
        return Err(Refusal::BadList(here));
    };
    if !substituting {
        return Err(Refusal::BadList(here));
    }
    if !is_above(table, swaps, variable) {
        return Err(Refusal::BadList(here));
    }
    let node = read(table, line);
    put(table, SWAPS_FROM + 2 * swaps, variable);
    put(table, SWAPS_FROM + 2 * swaps + 1, node);
    let more = Progress {
        lines,
        swaps: swaps + 1,
    };
    Ok((more, rest))
}

// Whether a variable is above that of the last s line.
fn is_above(table: &[u64], swaps: usize, variable: u64) -> bool
    requires { swaps ≤ 256 }
    ensures { Above table.now swaps variable result }
{
    if swaps == 0 {
        return true;
    }
    read(table, SWAPS_FROM + 2 * (swaps - 1)) < variable
}

// A node line: 2, then 1, then 6, 7, 8 as the node is stored.
fn take_node<'a>(
    first: u8,
    s: &'a [u8],
    store: &mut [[u64; 4]],
    desk: &mut [u64; DESK_WORDS],
    table: &mut [u64],
    p: Progress,
) -> Result<(Progress, &'a [u8]), Refusal>
    requires { Ready table.old p }
    ensures { TakesLine node_line first s.now table.old p result (lent store.old desk.old) (lent store.new desk.new) table.new }
{
    let lines = p.lines;
    let swaps = p.swaps;
    let here = (lines + swaps) as u64;
    if MOST_NODE_LINES <= lines {
        return Err(Refusal::LongList(here));
    }
    if 0 < swaps {
        return Err(Refusal::BadList(here));
    }
    let Some((e, rest)) = read_node(first, s, lines) else {
        return Err(Refusal::BadList(here));
    };
    let added = add(store, desk, moved_by(table, e));
    let Ok(node) = added else {
        return Err(refusal_of(desk));
    };
    mark(store, node, lines);
    put(table, lines, node as u64);
    let more = Progress {
        lines: lines + 1,
        swaps,
    };
    Ok((more, rest))
}

// A line by its first byte, which decides which kind it is, and the bytes after that.
fn take_line<'a>(
    first: u8,
    s: &'a [u8],
    substituting: bool,
    store: &mut [[u64; 4]],
    desk: &mut [u64; DESK_WORDS],
    table: &mut [u64],
    p: Progress,
) -> Result<(Progress, &'a [u8]), Refusal>
    requires { Ready table.old p }
    ensures { TakesLine (listing_line substituting) first s.now table.old p result (lent store.old desk.old) (lent store.new desk.new) table.new }
{
    if first == b's' {
        return take_swap(s, substituting, table, p);
    }
    take_node(first, s, store, desk, table, p)
}

// All lines, into a store.
fn read_lines(
    s: &[u8],
    substituting: bool,
    store: &mut [[u64; 4]],
    desk: &mut [u64; DESK_WORDS],
    table: &mut [u64],
) -> Result<Progress, Refusal>
    requires table_words_in_bounds { table_words ≤ length table.old }
    requires sound { Sound (lent store.old desk.old) × Traced [] (lent store.old desk.old) }
    ensures { ReadsLines substituting s.now result (lent store.old desk.old) (lent store.new desk.new) table.new }
{
    let mut rest = s;
    let mut p = Progress { lines: 0, swaps: 0 };
    while let Some((&first, after)) = rest.split_first() {
        (p, rest) = take_line(first, after, substituting, store, desk, table, p)?;
    }
    Ok(p)
}

// A listing, read into a new store whatever rows and desk held; the table has the s lines then.
pub fn read_listing(
    text: &[u8],
    substituting: bool,
    store: &mut [[u64; 4]],
    desk: &mut [u64; DESK_WORDS],
    table: &mut [u64],
) -> Result<Listed, Refusal>
    requires { table_words ≤ length table.old }
    ensures { Reads substituting text.now result (lent store.old desk.old) (lent store.new desk.new) table.new }
{
    start(desk);
    let end = read_lines(text, substituting, store, desk, table)?;
    root_of(table, end)
}

// "The last node line is the root"; with no node line there is none.
fn root_of(table: &[u64], p: Progress) -> Result<Listed, Refusal>
    ensures { result ≡ root_of table.now p }
{
    let lines = p.lines;
    if lines == 0 {
        return Err(Refusal::BadList(0));
    }
    Ok(Listed {
        root: read(table, lines - 1) as usize,
        swaps: p.swaps,
    })
}

// The node that the s line of this variable names, by halving.
pub fn swap_of(table: &[u64], swaps: usize, variable: u16) -> Option<usize>
    ensures { LooksUp table.now swaps variable result }
{
    let Some(j) = search(table, SWAPS_FROM, 2, swaps, variable as u64) else {
        return None;
    };
    Some(read(table, SWAPS_FROM + 2 * j + 1) as usize)
}
