// Listings and sheets: a case is a line, its text, and the lines that ask for something. Writes what each gives.
ghost use Rattle.io.specs.Counts.{IsPrefixLen};

use super::{listings, sheets};
use memory::layout::{DESK_WORDS, TABLE_WORDS};
use replay::line::{Line, next_line, read_text};
use replay::lists::{List, MOST};
use replay::say::{count, word};
use replay::slices::part;

// With its line feed.
const LINE: usize = 71;

// The next line of the list that begins a case or asks for something.
pub fn next(list: &mut List) -> Line {
    next_line(list, LINE)
}

// Puts the text of a case at the start of a slice, and answers how long it is.
pub fn read(list: &mut List, line: Line, text: &mut [u8]) -> usize
    ensures { IsPrefixLen result text.new }
{
    read_text(list, text, (line.fields[3] / 4294967296) as usize)
}

// A line that asks for something begins no case; where one stands in a case's place, the text before it was to be accepted.
fn run_case(
    rt: &impl Print,
    list: &mut List,
    line: Line,
    store: &mut [[u64; 4]],
    desk: &mut [u64; DESK_WORDS],
    table: &mut [u64; TABLE_WORDS],
) {
    let kind = line.kind;
    match kind {
        b'a' => word(rt, b"no case\n"),
        b'v' => sheets::run(rt, list, line, table),
        _ => listings::run(rt, list, line, store, desk, table),
    }
}

fn say_case(rt: &impl Print, number: u64) {
    word(rt, b"case");
    count(rt, number);
    word(rt, b"\n");
}

// Rows, desk and table hold the word of a line that is marked, or what the case before left there.
pub fn run(rt: &impl Print, list: &mut List) {
    let mut store = [[0; 4]; 4096];
    let mut desk = [0; DESK_WORDS];
    let mut table = [0; TABLE_WORDS];
    for number in 0..MOST {
        let line = next(list);
        if line.is_none() {
            return;
        }
        say_case(rt, number);
        if line.mark == b'1' {
            let junk = line.fields[1];
            store = [[junk; 4]; 4096];
            desk = [junk; DESK_WORDS];
            table = [junk; TABLE_WORDS];
        }
        let rows = part(&store, line.fields[2] as usize);
        run_case(rt, list, line, &mut store[..rows], &mut desk, &mut table);
    }
}
