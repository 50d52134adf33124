// The commands on listings: evaluate, simplify, both one after the other, substitute, and read as a real.
ghost use Rattle.std.specs.Prelude.{◌≤◌, length, take};
ghost use Rattle.io.specs.Counts.{IsPrefixLen};
ghost use Rattle.calls.specs.Lent.{work, capacity};
ghost use Rattle.commands.specs.Results.{evaluated, simplified_with, marks_with, played, substituted_with, real};
ghost use Rattle.outcomes.specs.Coming.{Comes};
ghost use Rattle.calls.specs.Marks.{evaluate_marks};
ghost use Rattle.commands.specs.Coming.{ComesMarked, SimplifiesWith, SubstitutesWith};

use super::details::{fault_alone, fault_of, lack_of};
use calls::Simplified;
use console::input::part;
use console::line::{write_real, write_value};
use expression::refusal::Refusal;
use memory::layout::{DESK_WORDS, MARKS, TABLE_WORDS};
use outcomes::Outcome;

// At which limit a job is played.
const LIMIT: u64 = 10;

pub fn evaluate(
    list: &[u8],
    values: &[u8],
    store: &mut [[u64; 4]],
    desk: &mut [u64; DESK_WORDS],
    table: &mut [u64; TABLE_WORDS],
    out: &mut [u8],
    marks: &mut [u8; MARKS],
) -> Outcome
    requires { 96 ≤ length out.old }
    ensures { ComesMarked (evaluated (capacity (work store.old desk.old table.old)) list.now values.now) (evaluate_marks (capacity (work store.old desk.old table.old)) list.now values.now) result out.new marks.new }
{
    match calls::evaluate_marked(list, values, store, desk, table, marks) {
        Ok(z) => Outcome::Printed(write_value(out, z)),
        Err(why) => Outcome::Refused(why, lack_of(why, list, values, store, desk, table)),
    }
}

// The call, with origins in the listing or without.
fn call_simplify(
    traced: bool,
    list: &[u8],
    values: &[u8],
    limit: u64,
    store: &mut [[u64; 4]],
    desk: &mut [u64; DESK_WORDS],
    table: &mut [u64; TABLE_WORDS],
    out: &mut [u8],
    marks: &mut [u8; MARKS],
) -> Result<Simplified, Refusal>
    ensures { SimplifiesWith traced (capacity (work store.old desk.old table.old)) limit list.now values.now out.old result out.new marks.new }
{
    if traced {
        calls::simplify_origins(list, values, limit, store, desk, table, out, marks)
    } else {
        calls::simplify_marked(list, values, limit, store, desk, table, out, marks)
    }
}

pub fn simplify(
    traced: bool,
    list: &[u8],
    values: &[u8],
    limit: u64,
    store: &mut [[u64; 4]],
    desk: &mut [u64; DESK_WORDS],
    table: &mut [u64; TABLE_WORDS],
    out: &mut [u8],
    marks: &mut [u8; MARKS],
) -> Outcome
    ensures { ComesMarked (simplified_with traced (capacity (work store.old desk.old table.old)) limit list.now values.now out.old) (marks_with traced (capacity (work store.old desk.old table.old)) limit list.now values.now out.old) result out.new marks.new }
{
    let answer = call_simplify(traced, list, values, limit, store, desk, table, out, marks);
    match answer {
        Ok(made) => Outcome::Simplified(part(out, made.bytes), made.calls),
        Err(why) => Outcome::Refused(why, fault_of(why, list, values)),
    }
}

// The value of the listing that the first n bytes of the output are; its line takes their place.
fn evaluate_written(
    n: usize,
    values: &[u8],
    store: &mut [[u64; 4]],
    desk: &mut [u64; DESK_WORDS],
    table: &mut [u64; TABLE_WORDS],
    out: &mut [u8],
) -> Outcome
    requires { (96 ≤ length out.old) × IsPrefixLen n out.old }
    ensures { Comes (evaluated (capacity (work store.old desk.old table.old)) (take n out.old) values.now) result out.new }
{
    match calls::evaluate(&out[..n], values, store, desk, table) {
        Ok(z) => Outcome::Printed(write_value(out, z)),
        Err(why) => Outcome::Refused(why, lack_of(why, &out[..n], values, store, desk, table)),
    }
}

// What is played where an expression is simplified first: the value of the result, under the same sheet.
pub fn played(
    list: &[u8],
    values: &[u8],
    store: &mut [[u64; 4]],
    desk: &mut [u64; DESK_WORDS],
    table: &mut [u64; TABLE_WORDS],
    out: &mut [u8],
) -> Outcome
    requires { 96 ≤ length out.old }
    ensures { Comes (played (capacity (work store.old desk.old table.old)) list.now values.now out.old) result out.new }
{
    match calls::simplify(list, values, LIMIT, store, desk, table, out) {
        Ok(made) => {
            let n = part(out, made.bytes);
            evaluate_written(n, values, store, desk, table, out)
        }
        Err(why) => Outcome::Refused(why, fault_of(why, list, values)),
    }
}

// The call, with origins in the listing or without.
fn call_substitute(
    traced: bool,
    list: &[u8],
    store: &mut [[u64; 4]],
    desk: &mut [u64; DESK_WORDS],
    table: &mut [u64; TABLE_WORDS],
    out: &mut [u8],
) -> Result<usize, Refusal>
    ensures { SubstitutesWith traced (capacity (work store.old desk.old table.old)) list.now out.old result out.new }
{
    if traced {
        calls::substitute_origins(list, store, desk, table, out)
    } else {
        calls::substitute(list, store, desk, table, out)
    }
}

pub fn substitute(
    traced: bool,
    list: &[u8],
    store: &mut [[u64; 4]],
    desk: &mut [u64; DESK_WORDS],
    table: &mut [u64; TABLE_WORDS],
    out: &mut [u8],
) -> Outcome
    ensures { Comes (substituted_with traced (capacity (work store.old desk.old table.old)) list.now out.old) result out.new }
{
    match call_substitute(traced, list, store, desk, table, out) {
        Ok(bytes) => Outcome::Printed(part(out, bytes)),
        Err(why) => Outcome::Refused(why, fault_alone(why, list)),
    }
}

pub fn real(
    list: &[u8],
    store: &mut [[u64; 4]],
    desk: &mut [u64; DESK_WORDS],
    table: &mut [u64; TABLE_WORDS],
    out: &mut [u8],
) -> Outcome
    requires { 96 ≤ length out.old }
    ensures { Comes (real (capacity (work store.old desk.old table.old)) list.now) result out.new }
{
    match calls::to_real(list, store, desk, table) {
        Ok(x) => Outcome::Printed(write_real(out, x)),
        Err(why) => Outcome::Refused(why, fault_alone(why, list)),
    }
}
