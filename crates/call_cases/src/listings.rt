// A case of a listing: its texts are read, the port is asked, and everything that is stored of the right answer is compared
// with what it gives.
ghost use Rattle.io.specs.Counts.{IsPrefixLen};

use super::ask::{Told, ask, is_right};
use super::case::Case;
use super::digits::read_tape;
use super::evaluations::is_value;
use super::mark_lines::{is_marked, next_marks};
use super::outcome::Outcome;
use super::{evaluations, marked};
use replay::lent::is_written;
use replay::line::read_text;
use replay::lists::List;
use replay::say;

// What has to be written follows in the list: a tape in digits, or a listing as it is.
fn read_wanted(list: &mut List, case: Case, wanted: &mut [u8]) -> usize
    ensures { IsPrefixLen result wanted.new }
{
    if case.kind == b'c' {
        return read_tape(list, wanted, case.written);
    }
    read_text(list, wanted, case.written)
}

// Both: what is written, and the answer. The answer is looked at, and printed if it is wrong, whatever was written.
fn is_told(rt: &impl Print, list: &mut List, case: Case, told: Told) -> bool {
    let paper = told.paper;
    let mut wanted = [0u8; 32768];
    let n = read_wanted(list, case, &mut wanted);
    let is_there = is_written(rt, &wanted[..n], &paper);
    let is_answered = is_right(rt, b"wanted", case.wanted, told);
    is_there && is_answered
}

// The line of marks follows what has to be written.
fn is_simplified(rt: &impl Print, list: &mut List, case: Case, text: &[u8], sheet: &[u8]) -> bool {
    let told = marked::simplify(case, text, sheet);
    let is_there = is_told(rt, list, case, told);
    let is_marked = is_marked(rt, next_marks(list), told);
    is_there && is_marked
}

fn ask_and_look(
    rt: &impl Print,
    list: &mut List,
    case: Case,
    text: &[u8],
    sheet: &[u8],
) -> Outcome {
    let kind = case.kind;
    match kind {
        b'e' => evaluations::run(rt, case, text, sheet),
        b'r' => Outcome::Right.if_right(is_value(rt, case, ask(kind, case, text, sheet, 0))),
        b's' | b'S' | b'z' | b'c' => {
            Outcome::Right.if_right(is_told(
                rt,
                list,
                case,
                ask(kind, case, text, sheet, case.room),
            ))
        }
        b'E' => evaluations::run_marked(rt, list, case, text, sheet),
        b'Z' | b'O' => Outcome::Right.if_right(is_simplified(rt, list, case, text, sheet)),
        _ => Outcome::Wrong,
    }
}

pub fn run(rt: &impl Print, list: &mut List, case: Case) -> Outcome {
    let mut text = [0u8; 32768];
    let mut sheet = [0u8; 32768];
    let n = read_text(list, &mut text, case.first);
    let m = read_text(list, &mut sheet, case.second);
    if n != case.first {
        say::fault(rt, b"there is no whole listing");
        return Outcome::Wrong;
    }
    if m != case.second {
        say::fault(rt, b"there is no whole sheet");
        return Outcome::Wrong;
    }
    ask_and_look(rt, list, case, &text[..n], &sheet[..m])
}
