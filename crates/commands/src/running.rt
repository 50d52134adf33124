// A command and its input: the texts that it takes, and the memory that its calls are lent.
ghost use Rattle.std.specs.Prelude.{◌≡◌, true, ◌≤◌, length};
ghost use Rattle.calls.specs.Lent.{work, capacity};
ghost use Rattle.commands.specs.Results as Results;
ghost use Rattle.commands.specs.Results.{result_in, result_for, marks_in};
ghost use Rattle.commands.specs.Needing.{WholeAlike, PartedAlike, Alike};
ghost use Rattle.outcomes.specs.Coming.{Comes};
ghost use Rattle.memory.specs.Marks.{no_marks};
ghost use Rattle.commands.specs.Coming.{ComesMarked};

use super::words::{Command, Parted, Whole};
use super::{jobs, tapes};
use console::input::{listing_length, sheet_of};
use memory::layout::{DESK_WORDS, MARKS, TABLE_WORDS};
use outcomes::Outcome;

// The longest input.
const MOST: usize = 262_144;

fn run_whole(
    command: Whole,
    text: &[u8],
    store: &mut [[u64; 4]],
    desk: &mut [u64; DESK_WORDS],
    table: &mut [u64; TABLE_WORDS],
    out: &mut [u8],
) -> Outcome
    requires { 65536 ≤ length out.old }
    ensures { Comes (Results.whole (capacity (work store.old desk.old table.old)) command text.now out.old) result out.new }
{
    match command {
        Whole::Substitute(traced) => jobs::substitute(traced, text, store, desk, table, out),
        Whole::Real => jobs::real(text, store, desk, table, out),
        Whole::Compile => tapes::compile(text, store, desk, table, out),
        Whole::Show => tapes::show(text, out),
        Whole::Check => tapes::check(text, out),
    }
}

fn run_parted(
    command: Parted,
    list: &[u8],
    values: &[u8],
    store: &mut [[u64; 4]],
    desk: &mut [u64; DESK_WORDS],
    table: &mut [u64; TABLE_WORDS],
    out: &mut [u8],
    marks: &mut [u8; MARKS],
) -> Outcome
    requires { (65536 ≤ length out.old) × (marks.old ≡ no_marks) }
    ensures { ComesMarked (Results.parted (capacity (work store.old desk.old table.old)) command list.now values.now out.old) (Results.parted_marks (capacity (work store.old desk.old table.old)) command list.now values.now out.old) result out.new marks.new }
{
    match command {
        Parted::Evaluate(_) => jobs::evaluate(list, values, store, desk, table, out, marks),
        Parted::Simplify(limit, _, traced) => {
            jobs::simplify(traced, list, values, limit, store, desk, table, out, marks)
        }
        Parted::Played => jobs::played(list, values, store, desk, table, out),
        Parted::Play(_) => tapes::play(list, values, table, out, marks),
    }
}

fn run_lent(
    command: Command,
    input: &[u8],
    store: &mut [[u64; 4]],
    desk: &mut [u64; DESK_WORDS],
    table: &mut [u64; TABLE_WORDS],
    out: &mut [u8],
    marks: &mut [u8; MARKS],
) -> Outcome
    requires { (65536 ≤ length out.old) × (marks.old ≡ no_marks) }
    ensures { ComesMarked (result_in (capacity (work store.old desk.old table.old)) command input.now out.old) (marks_in (capacity (work store.old desk.old table.old)) command input.now out.old) result out.new marks.new }
{
    match command {
        Command::Whole(whole) => run_whole(whole, input, store, desk, table, out),
        Command::Parted(parted) => {
            let n = listing_length(input);
            let values = sheet_of(&input[n..]);
            run_parted(parted, &input[..n], values, store, desk, table, out, marks)
        }
    }
}

fn whole_stores_little(command: Whole) -> bool
    ensures { (result ≡ true → WholeAlike command) }
{
    match command {
        Whole::Substitute(_) => false,
        Whole::Real => true,
        Whole::Compile => true,
        Whole::Show => true,
        Whole::Check => true,
    }
}

fn parted_stores_little(command: Parted) -> bool
    ensures { (result ≡ true → PartedAlike command) }
{
    match command {
        Parted::Evaluate(_) => true,
        Parted::Simplify(_, _, _) => false,
        Parted::Played => false,
        Parted::Play(_) => true,
    }
}

// Whether a command stores no node but those of a listing, which has at most 1024 node lines: then it comes to the same with 1024 rows, and
// the others need not be cleared.
fn stores_little(command: Command) -> bool
    ensures { (result ≡ true → Alike command) }
{
    match command {
        Command::Whole(whole) => whole_stores_little(whole),
        Command::Parted(parted) => parted_stores_little(parted),
    }
}

// A command is lent so many rows.
fn run_in<const ROWS: usize>(
    command: Command,
    input: &[u8],
    out: &mut [u8],
    marks: &mut [u8; MARKS],
) -> Outcome
    requires lent { (65536 ≤ length out.old) × (marks.old ≡ no_marks) }
    requires few { ROWS ≤ 4096 }
    ensures { ComesMarked (result_in ROWS command input.now out.old) (marks_in ROWS command input.now out.old) result out.new marks.new }
{
    let mut store = [[0; 4]; ROWS];
    let mut desk = [0; DESK_WORDS];
    let mut table = [0; TABLE_WORDS];
    run_lent(
        command, input, &mut store, &mut desk, &mut table, out, marks,
    )
}

// A command is lent the rows that it needs.
pub fn run(command: Command, input: &[u8], out: &mut [u8], marks: &mut [u8; MARKS]) -> Outcome
    requires { (65536 ≤ length out.old) × (marks.old ≡ no_marks) }
    ensures { ComesMarked (result_for command input.now out.old) (Results.marks command input.now out.old) result out.new marks.new }
{
    if MOST < input.len() {
        return Outcome::TooLong;
    }
    if stores_little(command) {
        return run_in::<1024>(command, input, out, marks);
    }
    run_in::<4096>(command, input, out, marks)
}
