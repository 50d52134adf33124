// The public calls: bytes in, an answer out, the output slice for a result that is written, and work memory that the
// caller lends. They ask nothing of the caller: whatever the bytes and the memory hold, the answer, the output and the
// memory at return are what specs/Promises says.

#![tactic(auto)]

ghost use Rattle.std.specs.Prelude.{◌≡◌, ◌≤◌, length};
ghost use Rattle.memory.specs.Layout.{table_words};
ghost use Rattle.calls.specs.Lent.{work, capacity};
ghost use Rattle.calls.specs.Calls.{evaluated, to_real_call};
ghost use Rattle.calls.specs.Frame.{EvaluatesTexts, SubstitutesTexts, SubstitutesAs, SimplifiesTexts, SimplifiesAs};
ghost use Rattle.calls.specs.Promises.{Evaluates, EvaluatesMarked, Substitutes, SubstitutesOrigins, ReadsReal, Simplifies, SimplifiesMarked, SimplifiesOrigins};

use complex::Complex;
use evaluation::Evaluation;
use expression::refusal::Refusal;
use frame::{clear_work, read_job, write_answer};
use listing::read_listing;
use marks::show_marks;
use memory::layout::{DESK_WORDS, MARKS, TABLE_WORDS};
use sheet::Counts;
use store::desk::{calls_made, standing};
use substitution::substitute_variables;
use tasks::limit::Limit;

pub mod frame;
mod marks;
pub mod tapes;

// A listing and a sheet that were read: the node of the root, and the rows of the sheet.
#[derive(Clone, Copy)]
pub struct Job {
    pub root: usize,
    pub counts: Counts,
}

// How many bytes of the output are the result, and how many simplify calls were made.
#[derive(Clone, Copy)]
pub struct Simplified {
    pub bytes: usize,
    pub calls: u64,
}

// Evaluation's lacks as refusals: 9 and 10. No `From`: neither type of the answer is this crate's, and 01 names `Evaluation` as the form to use.
pub fn answer_of(value: Evaluation) -> Result<Complex, Refusal>
    ensures { result ≡ evaluated value }
{
    match value {
        Evaluation::Value(z) => Ok(z),
        Evaluation::Incomplete => Err(Refusal::Incomplete),
        Evaluation::Need(operation, x, y) => Err(Refusal::Need(operation, x, y)),
    }
}

fn evaluate_texts(
    list: &[u8],
    values: &[u8],
    store: &mut [[u64; 4]],
    desk: &mut [u64; DESK_WORDS],
    table: &mut [u64],
    marks: &mut [u8; MARKS],
) -> Result<Complex, Refusal>
    requires { table_words ≤ length table.old }
    ensures { EvaluatesTexts list.now values.now (work store.old desk.old table.old) result marks.old marks.new }
{
    let job = read_job(list, values, store, desk, table)?;
    let nodes = standing(desk);
    let value = evaluation::evaluate(store, table, job.counts, job.root, nodes, marks);
    answer_of(value)
}

// The value of an expression under a sheet, and the marks of the sheet's function values that were used.
pub fn evaluate_marked(
    list: &[u8],
    values: &[u8],
    store: &mut [[u64; 4]],
    desk: &mut [u64; DESK_WORDS],
    table: &mut [u64; TABLE_WORDS],
    marks: &mut [u8; MARKS],
) -> Result<Complex, Refusal>
    ensures { EvaluatesMarked list.now values.now (work store.old desk.old table.old) result marks.new (work store.new desk.new table.new) }
{
    *marks = [0; MARKS];
    let answer = evaluate_texts(list, values, store, desk, table, marks);
    clear_work(store, desk, table);
    answer
}

// The value alone.
pub fn evaluate(
    list: &[u8],
    values: &[u8],
    store: &mut [[u64; 4]],
    desk: &mut [u64; DESK_WORDS],
    table: &mut [u64; TABLE_WORDS],
) -> Result<Complex, Refusal>
    ensures { Evaluates list.now values.now (work store.old desk.old table.old) result (work store.new desk.new table.new) }
{
    let mut marks: [u8; MARKS] = [0; MARKS];
    evaluate_marked(list, values, store, desk, table, &mut marks)
}

fn substitute_texts(
    traced: bool,
    list: &[u8],
    store: &mut [[u64; 4]],
    desk: &mut [u64; DESK_WORDS],
    table: &mut [u64],
    out: &mut [u8],
) -> Result<usize, Refusal>
    requires { table_words ≤ length table.old }
    ensures { SubstitutesTexts traced list.now out.old (work store.old desk.old table.old) result out.new }
{
    let listed = read_listing(list, true, store, desk, table)?;
    let built = substitute_variables(store, desk, table, listed.swaps, listed.root);
    write_answer(traced, store, desk, table, out, built)
}

// As `substitute`, with origins in the listing if `traced`.
fn substitute_as(
    traced: bool,
    list: &[u8],
    store: &mut [[u64; 4]],
    desk: &mut [u64; DESK_WORDS],
    table: &mut [u64; TABLE_WORDS],
    out: &mut [u8],
) -> Result<usize, Refusal>
    ensures { SubstitutesAs traced list.now out.old (work store.old desk.old table.old) result out.new (work store.new desk.new table.new) }
{
    let answer = substitute_texts(traced, list, store, desk, table, out);
    clear_work(store, desk, table);
    answer
}

// An expression with its variables replaced as the s lines of its listing say, written as a listing.
pub fn substitute(
    list: &[u8],
    store: &mut [[u64; 4]],
    desk: &mut [u64; DESK_WORDS],
    table: &mut [u64; TABLE_WORDS],
    out: &mut [u8],
) -> Result<usize, Refusal>
    ensures { Substitutes list.now out.old (work store.old desk.old table.old) result out.new (work store.new desk.new table.new) }
{
    substitute_as(false, list, store, desk, table, out)
}

// The same with origins in the listing.
pub fn substitute_origins(
    list: &[u8],
    store: &mut [[u64; 4]],
    desk: &mut [u64; DESK_WORDS],
    table: &mut [u64; TABLE_WORDS],
    out: &mut [u8],
) -> Result<usize, Refusal>
    ensures { SubstitutesOrigins list.now out.old (work store.old desk.old table.old) result out.new (work store.new desk.new table.new) }
{
    substitute_as(true, list, store, desk, table, out)
}

fn real_of_text(
    list: &[u8],
    store: &mut [[u64; 4]],
    desk: &mut [u64; DESK_WORDS],
    table: &mut [u64],
) -> Result<f64, Refusal>
    requires { table_words ≤ length table.old }
    ensures { result ≡ to_real_call (capacity (work store.old desk.old table.old)) list.now }
{
    let listed = read_listing(list, false, store, desk, table)?;
    evaluation::real::to_real(store, listed.root)
}

// The real number that an expression is, if it is a number or pi.
pub fn to_real(
    list: &[u8],
    store: &mut [[u64; 4]],
    desk: &mut [u64; DESK_WORDS],
    table: &mut [u64; TABLE_WORDS],
) -> Result<f64, Refusal>
    ensures { ReadsReal list.now (work store.old desk.old table.old) result (work store.new desk.new table.new) }
{
    let answer = real_of_text(list, store, desk, table);
    clear_work(store, desk, table);
    answer
}

fn simplify_texts(
    traced: bool,
    list: &[u8],
    values: &[u8],
    limit: u64,
    store: &mut [[u64; 4]],
    desk: &mut [u64; DESK_WORDS],
    table: &mut [u64],
    out: &mut [u8],
) -> Result<Simplified, Refusal>
    requires { table_words ≤ length table.old }
    ensures { SimplifiesTexts traced limit list.now values.now out.old (work store.old desk.old table.old) result out.new desk.new }
{
    let limit = Limit(limit);
    if !limit.is_allowed() {
        return Err(Refusal::BadLimit);
    }
    let job = read_job(list, values, store, desk, table)?;
    let built = simplification::simplify(limit, store, desk, table, job.counts, job.root);
    let bytes = write_answer(traced, store, desk, table, out, built)?;
    Ok(Simplified {
        bytes,
        calls: calls_made(desk),
    })
}

// As `simplify_marked`, with origins in the listing if `traced`.
fn simplify_as(
    traced: bool,
    list: &[u8],
    values: &[u8],
    limit: u64,
    store: &mut [[u64; 4]],
    desk: &mut [u64; DESK_WORDS],
    table: &mut [u64; TABLE_WORDS],
    out: &mut [u8],
    marks: &mut [u8; MARKS],
) -> Result<Simplified, Refusal>
    ensures { SimplifiesAs traced limit list.now values.now out.old (work store.old desk.old table.old) result marks.new out.new (work store.new desk.new table.new) }
{
    let answer = simplify_texts(traced, list, values, limit, store, desk, table, out);
    show_marks(answer, desk, marks);
    clear_work(store, desk, table);
    answer
}

// An expression simplified at a limit, written as a listing, and the marks of the sheet's function values that were used.
pub fn simplify_marked(
    list: &[u8],
    values: &[u8],
    limit: u64,
    store: &mut [[u64; 4]],
    desk: &mut [u64; DESK_WORDS],
    table: &mut [u64; TABLE_WORDS],
    out: &mut [u8],
    marks: &mut [u8; MARKS],
) -> Result<Simplified, Refusal>
    ensures { SimplifiesMarked limit list.now values.now out.old (work store.old desk.old table.old) result marks.new out.new (work store.new desk.new table.new) }
{
    simplify_as(false, list, values, limit, store, desk, table, out, marks)
}

// The same with origins in the listing.
pub fn simplify_origins(
    list: &[u8],
    values: &[u8],
    limit: u64,
    store: &mut [[u64; 4]],
    desk: &mut [u64; DESK_WORDS],
    table: &mut [u64; TABLE_WORDS],
    out: &mut [u8],
    marks: &mut [u8; MARKS],
) -> Result<Simplified, Refusal>
    ensures { SimplifiesOrigins limit list.now values.now out.old (work store.old desk.old table.old) result marks.new out.new (work store.new desk.new table.new) }
{
    simplify_as(true, list, values, limit, store, desk, table, out, marks)
}

// The listing alone.
pub fn simplify(
    list: &[u8],
    values: &[u8],
    limit: u64,
    store: &mut [[u64; 4]],
    desk: &mut [u64; DESK_WORDS],
    table: &mut [u64; TABLE_WORDS],
    out: &mut [u8],
) -> Result<Simplified, Refusal>
    ensures { Simplifies limit list.now values.now out.old (work store.old desk.old table.old) result out.new (work store.new desk.new table.new) }
{
    let mut marks: [u8; MARKS] = [0; MARKS];
    simplify_marked(list, values, limit, store, desk, table, out, &mut marks)
}
