// The marks of a case as they stand in a list: a line of 64 hex digits, a bit a row. Of the first digit the highest bit is row
// 0, of the last the lowest bit is row 255.
ghost use Rattle.std.specs.Prelude.{◌≡◌, ◌&&◌};
ghost use Rattle.call_cases.specs.Judging.{answered_by, mark_in, marked_by};

use super::ask;
use super::ask::Told;
use memory::layout::MARKS;
use replay::line::{digit, read_text};
use replay::lists::List;
use replay::say;

// With its line feed.
pub const LINE: usize = 65;

// What is read where the list ends is no line.
pub fn next_marks(list: &mut List) -> [u8; LINE] {
    let mut line = [0u8; LINE];
    read_text(list, &mut line, LINE);
    line
}

// The mark of a row by the digit of its four rows.
fn mark_in(digit: u8, row: usize) -> u8
    ensures { result ≡ mark_in digit row }
{
    match row % 4 {
        0 => digit / 8 % 2,
        1 => digit / 4 % 2,
        2 => digit / 2 % 2,
        _ => digit % 2,
    }
}

fn is_same(line: &[u8; LINE], marks: &[u8; MARKS]) -> bool
    ensures { result ≡ marked_by line.now marks.now }
{
    if line[64] != b'\n' {
        return false;
    }
    for (row, mark) in marks.iter().enumerate() {
        if *mark != mark_in(digit(line[row / 4]), row) {
            return false;
        }
    }
    true
}

// Whether the rows that are marked are those of the line; prints the line if they are not.
pub fn is_marked(rt: &impl Print, line: [u8; LINE], told: Told) -> bool
    ensures { result ≡ marked_by line told.marks }
{
    let marks = told.marks;
    let is_right = is_same(&line, &marks);
    if !is_right {
        say::word(rt, b"the port has marked other rows than ");
        say::word(rt, &line);
    }
    is_right
}

// Whether the answer is the wanted one, the memory zero, and the marks are those of the line.
pub fn is_right(
    rt: &impl Print,
    whose: &[u8],
    wanted: [u64; 6],
    line: [u8; LINE],
    told: Told,
) -> bool
    ensures { result ≡ (answered_by wanted told.words told.is_clear && marked_by line told.marks) }
{
    if !ask::is_right(rt, whose, wanted, told) {
        return false;
    }
    is_marked(rt, line, told)
}
