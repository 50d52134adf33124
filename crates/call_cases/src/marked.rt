// The port is asked through the calls with marks, as C asks it; one of them writes origins too. All memory holds the case's
// word before, and every mark is junk that is no mark.
use super::ask::{Told, is_table_clear};
use super::case::Case;
use exports::{
    findavoreb_evaluate_marked, findavoreb_play_marked, findavoreb_simplify_marked,
    findavoreb_simplify_origins,
};
use memory::layout::{DESK_WORDS, MARKS, TABLE_WORDS};
use replay::lent::{BLANK, is_clear};
use replay::slices::part;

pub fn evaluate(case: Case, text: &[u8], sheet: &[u8]) -> Told {
    let junk = case.junk;
    let rows = case.rows;
    let mut store = [[junk; 4]; 4096];
    let mut desk = [junk; DESK_WORDS];
    let mut table = [junk; TABLE_WORDS];
    let mut words = [junk; 6];
    let mut marks = [BLANK; MARKS];
    let m = part(&store, rows);
    findavoreb_evaluate_marked(
        text,
        sheet,
        &mut store[..m],
        &mut desk,
        &mut table,
        &mut words,
        &mut marks,
    );
    let is_clear = is_clear(rows, &store, &desk, &table);
    Told {
        words,
        paper: [BLANK; 32768],
        marks,
        is_clear,
    }
}

// With origins if the case's letter asks for them.
fn call_simplify(
    kind: u8,
    text: &[u8],
    sheet: &[u8],
    limit: u64,
    store: &mut [[u64; 4]],
    desk: &mut [u64; DESK_WORDS],
    table: &mut [u64; TABLE_WORDS],
    out: &mut [u8],
    words: &mut [u64; 6],
    marks: &mut [u8; MARKS],
) {
    if kind == b'O' {
        findavoreb_simplify_origins(text, sheet, limit, store, desk, table, out, words, marks);
        return;
    }
    findavoreb_simplify_marked(text, sheet, limit, store, desk, table, out, words, marks);
}

pub fn simplify(case: Case, text: &[u8], sheet: &[u8]) -> Told {
    let junk = case.junk;
    let rows = case.rows;
    let mut store = [[junk; 4]; 4096];
    let mut desk = [junk; DESK_WORDS];
    let mut table = [junk; TABLE_WORDS];
    let mut paper = [BLANK; 32768];
    let mut words = [junk; 6];
    let mut marks = [BLANK; MARKS];
    let m = part(&store, rows);
    let n = part(&paper, case.room);
    call_simplify(
        case.kind,
        text,
        sheet,
        case.limit,
        &mut store[..m],
        &mut desk,
        &mut table,
        &mut paper[..n],
        &mut words,
        &mut marks,
    );
    let is_clear = is_clear(rows, &store, &desk, &table);
    Told {
        words,
        paper,
        marks,
        is_clear,
    }
}

pub fn play(case: Case, tape: &[u8], sheet: &[u8]) -> Told {
    let junk = case.junk;
    let mut table = [junk; TABLE_WORDS];
    let mut words = [junk; 6];
    let mut marks = [BLANK; MARKS];
    findavoreb_play_marked(tape, sheet, &mut table, &mut words, &mut marks);
    let is_clear = is_table_clear(&table);
    Told {
        words,
        paper: [BLANK; 32768],
        marks,
        is_clear,
    }
}
