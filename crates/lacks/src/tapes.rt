// The same of a tape: its first step that is a variable or a memory cell and that the sheet does not bind.
ghost use Rattle.std.specs.Prelude.{◌≡◌, ◌≤◌, length};
ghost use Rattle.memory.specs.Layout.{table_words};
ghost use Rattle.lacks.specs.Lacking.{missing_on_tape, NamesOnTape};
ghost use Rattle.lacks.specs.Run.{NamesStep, NamesSteps};

use super::{Missing, unless_bound};
use memory::layout::TABLE_WORDS;
use sheet::{Counts, cell, read_sheet, variable};
use steps::bytes::fields_at;
use steps::{Step, step_of};
use tape::check;

fn missing_step(table: &[u64], counts: Counts, s: Step) -> Option<Missing>
    ensures { NamesStep table.now counts s result }
{
    match s {
        Step::Variable(number) => {
            unless_bound(Missing::Variable(number), variable(table, counts, number))
        }
        Step::Memory(region, index) => unless_bound(
            Missing::Cell(region, index),
            cell(table, counts, region, index),
        ),
        Step::Number(_) => None,
        Step::Pi => None,
        Step::Function(_) => None,
        Step::Prefix(_) => None,
        Step::Infix(_) => None,
    }
}

fn missing_in_steps(tape: &[u8], table: &[u64], counts: Counts) -> Option<Missing>
    ensures { NamesSteps table.now counts tape.now result }
{
    let count = tape.len() / 24;
    for i in 0..count {
        let step = step_of(fields_at(tape, 24 * i));
        if let Some(missing) = missing_step(table, counts, step) {
            return Some(missing);
        }
    }
    None
}

// "The tape is checked before the sheet is read."
fn missing_on_bytes(tape: &[u8], values: &[u8], table: &mut [u64]) -> Option<Missing>
    requires { table_words ≤ length table.old }
    ensures { result ≡ missing_on_tape tape.now values.now }
{
    check(tape).ok()?;
    let counts = read_sheet(values, table).ok()?;
    missing_in_steps(tape, table, counts)
}

// Of a tape under a sheet, as bytes; nothing where one of them is refused.
pub fn missing_on_tape(
    tape: &[u8],
    values: &[u8],
    table: &mut [u64; TABLE_WORDS],
) -> Option<Missing>
    ensures { NamesOnTape tape.now values.now table.old result table.new }
{
    let answer = missing_on_bytes(tape, values, table);
    table.fill(0);
    answer
}
