// A tree written as a listing: its lines in order, at the start of an output.

#![tactic(auto)]

ghost use Rattle.std.specs.Prelude.{◌≡◌, ◌*◌, ◌≤◌, length};
ghost use Rattle.memory.specs.Layout.{table_words};
ghost use Rattle.store.specs.Memory.{memory};
ghost use Rattle.listing.specs.Tables.{moved};
ghost use Rattle.text.specs.Put.{Put};
ghost use Rattle.writing.specs.Ordering.{line_at, lines_text, Writes, KeepsRows, WritesTraced};

use expression::node::Expression;
use expression::refusal::Refusal;
use line::write_row;
use lines::{Plain, Traced, text_length, write_lines};
use memory::read;
use node_lines::map_operands;
use order::visit;
use store::reading::{expression_at, fields_at};
use store::words::link_at;

pub mod line;
mod lines;
mod order;
mod traced;

// A node with the lines of its operands in their place, which stand in the links of their rows.
fn lined(store: &[[u64; 4]], e: Expression) -> Expression
    ensures { result ≡ moved (memory store.now).link e }
{
    map_operands(e, |node| link_at(store, node) as usize)
}

// Line i of the order in the table, as a node whose operands are numbers of lines.
fn line_at(store: &[[u64; 4]], table: &[u64], i: usize) -> Expression
    ensures { result ≡ line_at (memory store.now) table.now i }
{
    let node = read(table, i) as usize;
    lined(store, expression_at(store, node))
}

// The first `count` lines where there is room for the longest ones: they need not be measured, and are written straight from their rows. No
// instance of `Lines`, which are measured first: docs/REASONS.md, "Is a written listing measured?".
fn write_lines_wide(store: &[[u64; 4]], table: &[u64], count: usize, out: &mut [u8]) -> usize
    requires { (count ≤ 1024) × (64 * count ≤ length out.old) }
    ensures put { Put out.old 0 (lines_text (memory store.now) table.now count) result out.new }
    ensures fits { result ≤ 64 * count }
{
    let mut at: usize = 0;
    for i in 0..count {
        let node = read(table, i) as usize;
        at = write_row(out, at, store, fields_at(store, node));
    }
    at
}

// The tree of a node, written at the start of the output: how many bytes they are. It is measured before the first byte is written, so that a
// refusal leaves the output as it was. The table and the links of the rows are used up.
pub fn write_listing(
    store: &mut [[u64; 4]],
    root: usize,
    table: &mut [u64],
    out: &mut [u8],
) -> Result<usize, Refusal>
    requires { table_words ≤ length table.old }
    ensures writes { Writes (memory store.old) root result out.old out.new }
    ensures kept { KeepsRows (memory store.old) root (memory store.new) }
{
    let count = visit(store, table, root, usize::MAX, 0);
    if 1024 < count {
        return Err(Refusal::LongList(0));
    }
    if 64 * count <= out.len() {
        return Ok(write_lines_wide(store, table, count, out));
    }
    let length = text_length::<Plain>(store, table, count);
    if out.len() < length {
        return Err(Refusal::OutRoom);
    }
    Ok(write_lines::<Plain>(store, table, count, out))
}

// The same with the origins of the nodes as a last field of each line.
pub fn write_origins(
    store: &mut [[u64; 4]],
    root: usize,
    table: &mut [u64],
    out: &mut [u8],
) -> Result<usize, Refusal>
    requires { table_words ≤ length table.old }
    ensures { WritesTraced (memory store.old) root result out.old out.new }
{
    let lines = visit(store, table, root, usize::MAX, 0);
    if 1024 < lines {
        return Err(Refusal::LongList(0));
    }
    let needed = text_length::<Traced>(store, table, lines);
    if out.len() < needed {
        return Err(Refusal::OutRoom);
    }
    Ok(write_lines::<Traced>(store, table, lines, out))
}
