// The public calls on tapes: an expression compiled to one, and one played under a sheet.
ghost use Rattle.std.specs.Prelude.{◌≡◌, ◌≤◌, length};
ghost use Rattle.memory.specs.Layout.{table_words};
ghost use Rattle.calls.specs.Lent.{work};
ghost use Rattle.calls.specs.Frame.{CompilesText, PlaysTexts};
ghost use Rattle.calls.specs.Promises.{Compiles, Plays, PlaysMarked};

use super::answer_of;
use super::frame::clear_work;
use complex::Complex;
use expression::refusal::Refusal;
use listing::read_listing;
use memory::layout::{DESK_WORDS, MARKS, TABLE_WORDS};
use sheet::read_sheet;
use store::desk::standing;
use tape::check;

fn compile_text(
    list: &[u8],
    store: &mut [[u64; 4]],
    desk: &mut [u64; DESK_WORDS],
    table: &mut [u64],
    out: &mut [u8],
) -> Result<usize, Refusal>
    requires { table_words ≤ length table.old }
    ensures { CompilesText list.now out.old (work store.old desk.old table.old) result out.new }
{
    let listed = read_listing(list, false, store, desk, table)?;
    tape::compile::compile(store, listed.root, standing(desk), out)
}

// The tape of an expression, at the start of the output.
pub fn compile(
    list: &[u8],
    store: &mut [[u64; 4]],
    desk: &mut [u64; DESK_WORDS],
    table: &mut [u64; TABLE_WORDS],
    out: &mut [u8],
) -> Result<usize, Refusal>
    ensures { Compiles list.now out.old (work store.old desk.old table.old) result out.new (work store.new desk.new table.new) }
{
    let answer = compile_text(list, store, desk, table, out);
    clear_work(store, desk, table);
    answer
}

fn play_texts(
    tape: &[u8],
    values: &[u8],
    table: &mut [u64],
    marks: &mut [u8; MARKS],
) -> Result<Complex, Refusal>
    requires { table_words ≤ length table.old }
    ensures { PlaysTexts tape.now values.now result marks.old marks.new }
{
    check(tape)?;
    let counts = read_sheet(values, table)?;
    answer_of(tape::play::play(tape, table, counts, marks))
}

// What a tape plays under a sheet, and the marks of the sheet's function values that were used: no store, and the table alone as work
// memory.
pub fn play_marked(
    tape: &[u8],
    values: &[u8],
    table: &mut [u64; TABLE_WORDS],
    marks: &mut [u8; MARKS],
) -> Result<Complex, Refusal>
    ensures { PlaysMarked tape.now values.now table.old result marks.new table.new }
{
    *marks = [0; MARKS];
    let answer = play_texts(tape, values, table, marks);
    table.fill(0);
    answer
}

// What it plays alone.
pub fn play(tape: &[u8], values: &[u8], table: &mut [u64; TABLE_WORDS]) -> Result<Complex, Refusal>
    ensures { Plays tape.now values.now table.old result table.new }
{
    let mut marks: [u8; MARKS] = [0; MARKS];
    play_marked(tape, values, table, &mut marks)
}
