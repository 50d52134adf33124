// A case of a listing: it is read, what its s lines name and its root are written, and what was written of the root is read
// back and written again.
use super::say::{refused, refused_text};
use super::texts;
use super::texts::next;
use expression::refusal::Refusal;
use listing::{Listed, read_listing, swap_of};
use memory::layout::{DESK_WORDS, TABLE_WORDS};
use replay::lent::BLANK;
use replay::line::Line;
use replay::lists::List;
use replay::say::{count, word};
use replay::slices::{is_all, is_same, part};
use store::desk::standing;
use writing::write_listing;

// What a table holds before it is used for writing.
const JUNK: u64 = 0xdead_beef_0001_0001;

fn say_read(rt: &impl Print, nodes: usize, swaps: usize) {
    word(rt, b"read");
    count(rt, nodes as u64);
    count(rt, swaps as u64);
    word(rt, b"\n");
}

// How much of the output is lent.
fn room_of(line: Line) -> usize {
    (line.fields[3] % 4294967296) as usize
}

fn say_compared(rt: &impl Print, is_same: bool) {
    if is_same {
        word(rt, b"same\n");
    } else {
        word(rt, b"differs\n");
    }
}

// Says what was written on a paper, and whether the bytes beside it are as they were before.
fn say_written(rt: &impl Print, answer: Result<usize, Refusal>, paper: &[u8]) {
    let n = part(paper, answer.unwrap_or(0));
    word(rt, &paper[..n]);
    match answer {
        Ok(length) => {
            word(rt, b"wrote");
            count(rt, length as u64);
        }
        Err(why) => refused(rt, why),
    }
    if is_all(paper, n, BLANK) {
        word(rt, b"\tkept\n");
    } else {
        word(rt, b"\tchanged\n");
    }
}

// Writes the listing of a node where `room` bytes of the paper are lent, and answers how many bytes it has, 0 after a
// refusal.
fn write(
    rt: &impl Print,
    store: &mut [[u64; 4]],
    at: usize,
    table: &mut [u64; TABLE_WORDS],
    paper: &mut [u8],
    room: usize,
) -> usize {
    let lent = part(paper, room);
    let answer = write_listing(store, at, table, &mut paper[..lent]);
    say_written(rt, answer, paper);
    answer.unwrap_or(0)
}

// Writes a node with a table of its own, so that the s lines stay where they are.
fn write_apart(rt: &impl Print, store: &mut [[u64; 4]], at: usize, room: usize) {
    let mut table = [JUNK; TABLE_WORDS];
    let mut paper = [BLANK; 40960];
    write(rt, store, at, &mut table, &mut paper, room);
}

// Writes the node that a line asks for, if there is one.
fn write_swap(rt: &impl Print, found: Option<usize>, store: &mut [[u64; 4]], room: usize) {
    match found {
        Some(at) => write_apart(rt, store, at, room),
        None => word(rt, b"nothing\n"),
    }
}

// Answers the lines that ask for the nodes of variables.
fn write_swaps(
    rt: &impl Print,
    list: &mut List,
    asked: u64,
    room: usize,
    store: &mut [[u64; 4]],
    table: &[u64],
    swaps: usize,
) {
    for _ in 0..asked {
        let line = next(list);
        let found = swap_of(table, swaps, (line.fields[1] % 65536) as u16);
        write_swap(rt, found, store, room);
    }
}

// Says what was read, and writes what the lines ask for that follow. Answers the root, if there is one.
fn say_listing(
    rt: &impl Print,
    list: &mut List,
    line: Line,
    answer: Result<Listed, Refusal>,
    store: &mut [[u64; 4]],
    desk: &[u64; DESK_WORDS],
    table: &[u64],
) -> Option<usize> {
    match answer {
        Ok(Listed { root, swaps }) => {
            say_read(rt, standing(desk), swaps);
            write_swaps(rt, list, line.fields[4], room_of(line), store, table, swaps);
            Some(root)
        }
        Err(why) => {
            refused_text(rt, why);
            None
        }
    }
}

// Says whether what was read back is written as the bytes that it was read from.
fn say_same(
    rt: &impl Print,
    answer: Result<Listed, Refusal>,
    written: &[u8],
    store: &mut [[u64; 4]],
    table: &mut [u64; TABLE_WORDS],
) {
    let mut paper = [BLANK; 40960];
    match answer {
        Ok(listed) => {
            let n = write_listing(store, listed.root, table, &mut paper).unwrap_or(0);
            let m = part(&paper, n);
            say_compared(rt, is_same(written, &paper[..m]));
        }
        Err(why) => refused_text(rt, why),
    }
}

// Writes the root and reads back what was written, in the same rows.
fn write_back(
    rt: &impl Print,
    root: usize,
    room: usize,
    store: &mut [[u64; 4]],
    desk: &mut [u64; DESK_WORDS],
    table: &mut [u64; TABLE_WORDS],
) {
    let mut paper = [BLANK; 40960];
    let n = write(rt, store, root, table, &mut paper, room);
    if 0 < n {
        let m = part(&paper, n);
        let answer = read_listing(&paper[..m], false, store, desk, table);
        say_same(rt, answer, &paper[..m], store, table);
    }
}

pub fn run(
    rt: &impl Print,
    list: &mut List,
    line: Line,
    store: &mut [[u64; 4]],
    desk: &mut [u64; DESK_WORDS],
    table: &mut [u64; TABLE_WORDS],
) {
    let mut text = [0u8; 81920];
    let n = texts::read(list, line, &mut text);
    let answer = read_listing(&text[..n], line.kind == b's', store, desk, table);
    if let Some(root) = say_listing(rt, list, line, answer, store, desk, table) {
        write_back(rt, root, room_of(line), store, desk, table);
    }
}
