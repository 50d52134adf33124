// The port is asked, through the same functions as C asks it. All memory holds the case's word before.
ghost use Rattle.std.specs.Prelude.{◌≡◌};
ghost use Rattle.replay.specs.Judges.{all_are};
ghost use Rattle.call_cases.specs.Judging.{answered_by};

use super::case::Case;
use exports::{
    findavoreb_compile, findavoreb_evaluate, findavoreb_play, findavoreb_simplify,
    findavoreb_substitute, findavoreb_substitute_origins, findavoreb_to_real,
};
use memory::layout::{DESK_WORDS, MARKS, TABLE_WORDS};
use replay::lent::{BLANK, is_clear};
use replay::say;
use replay::slices::{is_zero, part};

// An answer's six words, the paper of the output, the marks, which a call without marks leaves blank, and whether all the
// memory that was lent is zero.
#[derive(Clone, Copy)]
pub struct Told {
    pub words: [u64; 6],
    pub paper: [u8; 32768],
    pub marks: [u8; MARKS],
    pub is_clear: bool,
}

// The call that a letter stands for.
fn call(
    kind: u8,
    text: &[u8],
    sheet: &[u8],
    limit: u64,
    store: &mut [[u64; 4]],
    desk: &mut [u64; DESK_WORDS],
    table: &mut [u64; TABLE_WORDS],
    out: &mut [u8],
    words: &mut [u64; 6],
) {
    match kind {
        b'e' => findavoreb_evaluate(text, sheet, store, desk, table, words),
        b'r' => findavoreb_to_real(text, store, desk, table, words),
        b's' => findavoreb_substitute(text, store, desk, table, out, words),
        b'S' => findavoreb_substitute_origins(text, store, desk, table, out, words),
        b'z' => findavoreb_simplify(text, sheet, limit, store, desk, table, out, words),
        _ => findavoreb_compile(text, store, desk, table, out, words),
    };
}

// Asks with as many rows as the case lends, and `room` bytes of a paper.
pub fn ask(kind: u8, case: Case, text: &[u8], sheet: &[u8], room: usize) -> Told {
    let junk = case.junk;
    let rows = case.rows;
    let mut store = [[junk; 4]; 4096];
    let mut desk = [junk; DESK_WORDS];
    let mut table = [junk; TABLE_WORDS];
    let mut paper = [BLANK; 32768];
    let mut words = [junk; 6];
    let m = part(&store, rows);
    let n = part(&paper, room);
    call(
        kind,
        text,
        sheet,
        case.limit,
        &mut store[..m],
        &mut desk,
        &mut table,
        &mut paper[..n],
        &mut words,
    );
    let is_clear = is_clear(rows, &store, &desk, &table);
    Told {
        words,
        paper,
        marks: [BLANK; MARKS],
        is_clear,
    }
}

pub fn is_table_clear(table: &[u64; TABLE_WORDS]) -> bool
    ensures { result ≡ all_are 0 table.now }
{
    is_zero(table)
}

// Playing is lent the table alone.
pub fn play(case: Case, tape: &[u8], sheet: &[u8]) -> Told {
    let junk = case.junk;
    let mut table = [junk; TABLE_WORDS];
    let mut words = [junk; 6];
    findavoreb_play(tape, sheet, &mut table, &mut words);
    let is_clear = is_table_clear(&table);
    Told {
        words,
        paper: [BLANK; 32768],
        marks: [BLANK; MARKS],
        is_clear,
    }
}

// Whether the port has left the memory zero; says so if it has not.
pub fn is_left_clear(rt: &impl Print, told: Told) -> bool
    ensures { result ≡ told.is_clear }
{
    if !told.is_clear {
        say::fault(rt, b"the port has left something in the work memory");
    }
    told.is_clear
}

// Whether the answer is the wanted one, and the memory zero.
pub fn is_right(rt: &impl Print, whose: &[u8], wanted: [u64; 6], told: Told) -> bool
    ensures { result ≡ answered_by wanted told.words told.is_clear }
{
    let words = told.words;
    if !say::is_right(rt, whose, &wanted, &words) {
        return false;
    }
    is_left_clear(rt, told)
}
