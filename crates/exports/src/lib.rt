// The public calls for C, Rust and others, over numbers and slices alone; include/findavoreb.h says what each
// parameter and each answer word is.

#![tactic(auto)]

ghost use Rattle.std.specs.Prelude.{◌≡◌};
ghost use Rattle.calls.specs.Lent.{work};
ghost use Rattle.exports.specs.Words.{Evaluates, EvaluatesMarked, Substitutes, SubstitutesOrigins, ReadsReal, Simplifies, SimplifiesMarked, SimplifiesOrigins, Compiles, Plays, PlaysMarked, Checks, Picks};

use answer::{put_checked, put_evaluated, put_real, put_simplified, put_two, put_written};
use calls::tapes::{compile, play, play_marked};
use calls::{
    evaluate, evaluate_marked, simplify, simplify_marked, simplify_origins, substitute,
    substitute_origins, to_real,
};
use memory::layout::{DESK_WORDS, MARKS, TABLE_WORDS};
use tape::{Picked, check, which};

mod answer;

// 10000 times the major number, 100 times the minor one and the patch's: FINDAVOREB_VERSION_NUMBER of the header.
pub const VERSION: u64 = 20_200;

#[unsafe(no_mangle)]
pub extern "C" fn findavoreb_version() -> u64
    ensures { result ≡ 20200 }
{
    VERSION
}

#[unsafe(no_mangle)]
pub extern "C" fn findavoreb_evaluate(
    list: &[u8],
    values: &[u8],
    store: &mut [[u64; 4]],
    desk: &mut [u64; DESK_WORDS],
    table: &mut [u64; TABLE_WORDS],
    answer: &mut [u64; 6],
) -> u64
    ensures { Evaluates list.now values.now (work store.old desk.old table.old) result answer.new (work store.new desk.new table.new) }
{
    put_evaluated(answer, evaluate(list, values, store, desk, table))
}

#[unsafe(no_mangle)]
pub extern "C" fn findavoreb_evaluate_marked(
    list: &[u8],
    values: &[u8],
    store: &mut [[u64; 4]],
    desk: &mut [u64; DESK_WORDS],
    table: &mut [u64; TABLE_WORDS],
    answer: &mut [u64; 6],
    marks: &mut [u8; MARKS],
) -> u64
    ensures { EvaluatesMarked list.now values.now (work store.old desk.old table.old) result answer.new marks.new (work store.new desk.new table.new) }
{
    put_evaluated(
        answer,
        evaluate_marked(list, values, store, desk, table, marks),
    )
}

#[unsafe(no_mangle)]
pub extern "C" fn findavoreb_substitute(
    list: &[u8],
    store: &mut [[u64; 4]],
    desk: &mut [u64; DESK_WORDS],
    table: &mut [u64; TABLE_WORDS],
    out: &mut [u8],
    answer: &mut [u64; 6],
) -> u64
    ensures { Substitutes list.now out.old (work store.old desk.old table.old) result answer.new out.new (work store.new desk.new table.new) }
{
    put_written(answer, substitute(list, store, desk, table, out))
}

#[unsafe(no_mangle)]
pub extern "C" fn findavoreb_substitute_origins(
    list: &[u8],
    store: &mut [[u64; 4]],
    desk: &mut [u64; DESK_WORDS],
    table: &mut [u64; TABLE_WORDS],
    out: &mut [u8],
    answer: &mut [u64; 6],
) -> u64
    ensures { SubstitutesOrigins list.now out.old (work store.old desk.old table.old) result answer.new out.new (work store.new desk.new table.new) }
{
    put_written(answer, substitute_origins(list, store, desk, table, out))
}

#[unsafe(no_mangle)]
pub extern "C" fn findavoreb_to_real(
    list: &[u8],
    store: &mut [[u64; 4]],
    desk: &mut [u64; DESK_WORDS],
    table: &mut [u64; TABLE_WORDS],
    answer: &mut [u64; 6],
) -> u64
    ensures { ReadsReal list.now (work store.old desk.old table.old) result answer.new (work store.new desk.new table.new) }
{
    put_real(answer, to_real(list, store, desk, table))
}

#[unsafe(no_mangle)]
pub extern "C" fn findavoreb_simplify(
    list: &[u8],
    values: &[u8],
    limit: u64,
    store: &mut [[u64; 4]],
    desk: &mut [u64; DESK_WORDS],
    table: &mut [u64; TABLE_WORDS],
    out: &mut [u8],
    answer: &mut [u64; 6],
) -> u64
    ensures { Simplifies limit list.now values.now out.old (work store.old desk.old table.old) result answer.new out.new (work store.new desk.new table.new) }
{
    put_simplified(
        answer,
        simplify(list, values, limit, store, desk, table, out),
    )
}

#[unsafe(no_mangle)]
pub extern "C" fn findavoreb_simplify_marked(
    list: &[u8],
    values: &[u8],
    limit: u64,
    store: &mut [[u64; 4]],
    desk: &mut [u64; DESK_WORDS],
    table: &mut [u64; TABLE_WORDS],
    out: &mut [u8],
    answer: &mut [u64; 6],
    marks: &mut [u8; MARKS],
) -> u64
    ensures { SimplifiesMarked limit list.now values.now out.old (work store.old desk.old table.old) result answer.new marks.new out.new (work store.new desk.new table.new) }
{
    put_simplified(
        answer,
        simplify_marked(list, values, limit, store, desk, table, out, marks),
    )
}

#[unsafe(no_mangle)]
pub extern "C" fn findavoreb_simplify_origins(
    list: &[u8],
    values: &[u8],
    limit: u64,
    store: &mut [[u64; 4]],
    desk: &mut [u64; DESK_WORDS],
    table: &mut [u64; TABLE_WORDS],
    out: &mut [u8],
    answer: &mut [u64; 6],
    marks: &mut [u8; MARKS],
) -> u64
    ensures { SimplifiesOrigins limit list.now values.now out.old (work store.old desk.old table.old) result answer.new marks.new out.new (work store.new desk.new table.new) }
{
    put_simplified(
        answer,
        simplify_origins(list, values, limit, store, desk, table, out, marks),
    )
}

#[unsafe(no_mangle)]
pub extern "C" fn findavoreb_compile(
    list: &[u8],
    store: &mut [[u64; 4]],
    desk: &mut [u64; DESK_WORDS],
    table: &mut [u64; TABLE_WORDS],
    out: &mut [u8],
    answer: &mut [u64; 6],
) -> u64
    ensures { Compiles list.now out.old (work store.old desk.old table.old) result answer.new out.new (work store.new desk.new table.new) }
{
    put_written(answer, compile(list, store, desk, table, out))
}

#[unsafe(no_mangle)]
pub extern "C" fn findavoreb_play(
    tape: &[u8],
    values: &[u8],
    table: &mut [u64; TABLE_WORDS],
    answer: &mut [u64; 6],
) -> u64
    ensures { Plays tape.now values.now table.old result answer.new table.new }
{
    put_evaluated(answer, play(tape, values, table))
}

#[unsafe(no_mangle)]
pub extern "C" fn findavoreb_play_marked(
    tape: &[u8],
    values: &[u8],
    table: &mut [u64; TABLE_WORDS],
    answer: &mut [u64; 6],
    marks: &mut [u8; MARKS],
) -> u64
    ensures { PlaysMarked tape.now values.now table.old result answer.new marks.new table.new }
{
    put_evaluated(answer, play_marked(tape, values, table, marks))
}

#[unsafe(no_mangle)]
pub extern "C" fn findavoreb_check(tape: &[u8], answer: &mut [u64; 6]) -> u64
    ensures { Checks tape.now result answer.new }
{
    let steps = (tape.len() / 24) as u64;
    put_checked(answer, steps, check(tape))
}

#[unsafe(no_mangle)]
pub extern "C" fn findavoreb_pick(a: &[u8], b: &[u8], picked: &mut [u64; 2]) -> u64
    ensures { Picks a.now b.now result picked.new }
{
    let choice = which(a, b);
    match choice {
        Picked::First => put_two(picked, 1, a.len() as u64),
        Picked::Second => put_two(picked, 2, b.len() as u64),
        Picked::Nothing => put_two(picked, 0, 0),
    }
}
