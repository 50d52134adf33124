// The static library for C: each call of include/findavoreb.h, which is the function of that name in the library `exports`,
// with the same clauses. A crate is a library or a static library, and not both.

#![tactic(auto)]

ghost use Rattle.std.specs.Prelude.{◌≡◌};
ghost use Rattle.calls.specs.Lent.{work};
ghost use Rattle.exports.specs.Words.{Evaluates, EvaluatesMarked, Substitutes, SubstitutesOrigins, ReadsReal, Simplifies, SimplifiesMarked, SimplifiesOrigins, Compiles, Plays, PlaysMarked, Checks, Picks};

use memory::layout::{DESK_WORDS, MARKS, TABLE_WORDS};

#[unsafe(no_mangle)]
pub extern "C" fn findavoreb_version() -> u64
    ensures { result ≡ 20200 }
{
    exports::findavoreb_version()
}

#[unsafe(no_mangle)]
pub extern "C" fn findavoreb_evaluate(
    list: &[u8],
    values: &[u8],
    store: &mut [[u64; 4]],
    desk: &mut [u64; DESK_WORDS],
    table: &mut [u64; TABLE_WORDS],
    answer: &mut [u64; 6],
) -> u64
    ensures { Evaluates list.now values.now (work store.old desk.old table.old) result answer.new (work store.new desk.new table.new) }
{
    exports::findavoreb_evaluate(list, values, store, desk, table, answer)
}

#[unsafe(no_mangle)]
pub extern "C" fn findavoreb_evaluate_marked(
    list: &[u8],
    values: &[u8],
    store: &mut [[u64; 4]],
    desk: &mut [u64; DESK_WORDS],
    table: &mut [u64; TABLE_WORDS],
    answer: &mut [u64; 6],
    marks: &mut [u8; MARKS],
) -> u64
    ensures { EvaluatesMarked list.now values.now (work store.old desk.old table.old) result answer.new marks.new (work store.new desk.new table.new) }
{
    exports::findavoreb_evaluate_marked(list, values, store, desk, table, answer, marks)
}

#[unsafe(no_mangle)]
pub extern "C" fn findavoreb_substitute(
    list: &[u8],
    store: &mut [[u64; 4]],
    desk: &mut [u64; DESK_WORDS],
    table: &mut [u64; TABLE_WORDS],
    out: &mut [u8],
    answer: &mut [u64; 6],
) -> u64
    ensures { Substitutes list.now out.old (work store.old desk.old table.old) result answer.new out.new (work store.new desk.new table.new) }
{
    exports::findavoreb_substitute(list, store, desk, table, out, answer)
}

#[unsafe(no_mangle)]
pub extern "C" fn findavoreb_substitute_origins(
    list: &[u8],
    store: &mut [[u64; 4]],
    desk: &mut [u64; DESK_WORDS],
    table: &mut [u64; TABLE_WORDS],
    out: &mut [u8],
    answer: &mut [u64; 6],
) -> u64
    ensures { SubstitutesOrigins list.now out.old (work store.old desk.old table.old) result answer.new out.new (work store.new desk.new table.new) }
{
    exports::findavoreb_substitute_origins(list, store, desk, table, out, answer)
}

#[unsafe(no_mangle)]
pub extern "C" fn findavoreb_to_real(
    list: &[u8],
    store: &mut [[u64; 4]],
    desk: &mut [u64; DESK_WORDS],
    table: &mut [u64; TABLE_WORDS],
    answer: &mut [u64; 6],
) -> u64
    ensures { ReadsReal list.now (work store.old desk.old table.old) result answer.new (work store.new desk.new table.new) }
{
    exports::findavoreb_to_real(list, store, desk, table, answer)
}

#[unsafe(no_mangle)]
pub extern "C" fn findavoreb_simplify(
    list: &[u8],
    values: &[u8],
    limit: u64,
    store: &mut [[u64; 4]],
    desk: &mut [u64; DESK_WORDS],
    table: &mut [u64; TABLE_WORDS],
    out: &mut [u8],
    answer: &mut [u64; 6],
) -> u64
    ensures { Simplifies limit list.now values.now out.old (work store.old desk.old table.old) result answer.new out.new (work store.new desk.new table.new) }
{
    exports::findavoreb_simplify(list, values, limit, store, desk, table, out, answer)
}

#[unsafe(no_mangle)]
pub extern "C" fn findavoreb_simplify_marked(
    list: &[u8],
    values: &[u8],
    limit: u64,
    store: &mut [[u64; 4]],
    desk: &mut [u64; DESK_WORDS],
    table: &mut [u64; TABLE_WORDS],
    out: &mut [u8],
    answer: &mut [u64; 6],
    marks: &mut [u8; MARKS],
) -> u64
    ensures { SimplifiesMarked limit list.now values.now out.old (work store.old desk.old table.old) result answer.new marks.new out.new (work store.new desk.new table.new) }
{
    exports::findavoreb_simplify_marked(list, values, limit, store, desk, table, out, answer, marks)
}

#[unsafe(no_mangle)]
pub extern "C" fn findavoreb_simplify_origins(
    list: &[u8],
    values: &[u8],
    limit: u64,
    store: &mut [[u64; 4]],
    desk: &mut [u64; DESK_WORDS],
    table: &mut [u64; TABLE_WORDS],
    out: &mut [u8],
    answer: &mut [u64; 6],
    marks: &mut [u8; MARKS],
) -> u64
    ensures { SimplifiesOrigins limit list.now values.now out.old (work store.old desk.old table.old) result answer.new marks.new out.new (work store.new desk.new table.new) }
{
    exports::findavoreb_simplify_origins(
        list, values, limit, store, desk, table, out, answer, marks,
    )
}

#[unsafe(no_mangle)]
pub extern "C" fn findavoreb_compile(
    list: &[u8],
    store: &mut [[u64; 4]],
    desk: &mut [u64; DESK_WORDS],
    table: &mut [u64; TABLE_WORDS],
    out: &mut [u8],
    answer: &mut [u64; 6],
) -> u64
    ensures { Compiles list.now out.old (work store.old desk.old table.old) result answer.new out.new (work store.new desk.new table.new) }
{
    exports::findavoreb_compile(list, store, desk, table, out, answer)
}

#[unsafe(no_mangle)]
pub extern "C" fn findavoreb_play(
    tape: &[u8],
    values: &[u8],
    table: &mut [u64; TABLE_WORDS],
    answer: &mut [u64; 6],
) -> u64
    ensures { Plays tape.now values.now table.old result answer.new table.new }
{
    exports::findavoreb_play(tape, values, table, answer)
}

#[unsafe(no_mangle)]
pub extern "C" fn findavoreb_play_marked(
    tape: &[u8],
    values: &[u8],
    table: &mut [u64; TABLE_WORDS],
    answer: &mut [u64; 6],
    marks: &mut [u8; MARKS],
) -> u64
    ensures { PlaysMarked tape.now values.now table.old result answer.new marks.new table.new }
{
    exports::findavoreb_play_marked(tape, values, table, answer, marks)
}

#[unsafe(no_mangle)]
pub extern "C" fn findavoreb_check(tape: &[u8], answer: &mut [u64; 6]) -> u64
    ensures { Checks tape.now result answer.new }
{
    exports::findavoreb_check(tape, answer)
}

#[unsafe(no_mangle)]
pub extern "C" fn findavoreb_pick(a: &[u8], b: &[u8], picked: &mut [u64; 2]) -> u64
    ensures { Picks a.now b.now result picked.new }
{
    exports::findavoreb_pick(a, b, picked)
}
