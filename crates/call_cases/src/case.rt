// A case of the public calls as a line of a list has it; tests/call_cases.py and tests/rust/README.md say what each field
// stands for.
ghost use Rattle.std.specs.Prelude.{◌≡◌, eqb};

use replay::line::{Line, next_line};
use replay::lists::List;

// With its line feed.
const LINE: usize = 190;

// `junk` is what all memory holds before a call, `rows` how many rows are lent, `first` and `second` how long the texts or
// tapes are that follow the line, `room` how much of the output is lent, and `written` how long what has to be written there
// is. `wanted` has the six words of the right answer, as `exports` gives them.
#[derive(Clone, Copy)]
pub struct Case {
    pub kind: u8,
    pub junk: u64,
    pub rows: usize,
    pub first: usize,
    pub second: usize,
    pub room: usize,
    pub written: usize,
    pub wanted: [u64; 6],
    pub limit: u64,
}

impl Case {
    // What stands at the end of a list has no kind. No Option: a case is made of whatever was read, of a list that is cut short too.
    pub fn is_none(self) -> bool
        ensures { result ≡ eqb self.kind 0 }
    {
        self.kind == 0
    }
}

fn upper(field: u64) -> usize {
    (field / 4294967296) as usize
}

fn lower(field: u64) -> usize {
    (field % 4294967296) as usize
}

// The second word of the right answer. Of what was written and of a sound tape a list has 0 there; the port says how many bytes
// or steps they have.
fn detail(line: Line) -> u64 {
    if line.fields[5] != 0 {
        return line.fields[6];
    }
    let kind = line.kind;
    match kind {
        b's' | b'S' | b'z' | b'Z' | b'O' | b'c' => lower(line.fields[4]) as u64,
        b'k' => (upper(line.fields[3]) / 24) as u64,
        _ => line.fields[6],
    }
}

pub fn next_case(list: &mut List) -> Case {
    let line = next_line(list, LINE);
    Case {
        kind: line.kind,
        junk: line.fields[1],
        rows: line.fields[2] as usize,
        first: upper(line.fields[3]),
        second: lower(line.fields[3]),
        room: upper(line.fields[4]),
        written: lower(line.fields[4]),
        wanted: [
            line.fields[5],
            detail(line),
            line.fields[7],
            line.fields[8],
            line.fields[9],
            line.fields[10],
        ],
        limit: line.fields[11],
    }
}
