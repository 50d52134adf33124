// A case of one or two tapes, which are checked, picked from or played.
use super::case::Case;
use super::digits::read_tape;
use super::mark_lines::next_marks;
use super::outcome::Outcome;
use super::{ask, mark_lines, marked};
use exports::{findavoreb_check, findavoreb_pick};
use replay::line::read_text;
use replay::lists::List;
use replay::say;
use replay::slices::is_same;

pub fn check(rt: &impl Print, list: &mut List, case: Case) -> Outcome {
    let mut tape = [0u8; 16384];
    let n = read_tape(list, &mut tape, case.first);
    let mut words = [case.junk; 6];
    findavoreb_check(&tape[..n], &mut words);
    let wanted = case.wanted;
    Outcome::Right.if_right(say::is_right(rt, b"wanted", &wanted, &words))
}

// Whether the part that is handed back is the wanted one of two tapes, or empty.
fn is_part(which: u64, a: &[u8], b: &[u8], part: &[u8]) -> bool {
    match which {
        0 => part.len() == 0,
        1 => is_same(part, a),
        _ => is_same(part, b),
    }
}

// Two words as six.
fn padded(words: [u64; 2]) -> [u64; 6] {
    [words[0], words[1], 0, 0, 0, 0]
}

fn is_picked<'a>(rt: &impl Print, case: Case, a: &'a [u8], b: &'a [u8]) -> bool {
    let mut words = [case.junk; 2];
    let which = findavoreb_pick(a, b, &mut words);
    let wanted = case.wanted;
    let got = padded(words);
    if !say::is_right(rt, b"wanted", &wanted, &got) {
        return false;
    }
    if !is_part(which, a, b, tape::pick(a, b)) {
        say::fault(rt, b"the port has handed back other bytes");
        return false;
    }
    true
}

pub fn pick(rt: &impl Print, list: &mut List, case: Case) -> Outcome {
    let mut a = [0u8; 16384];
    let mut b = [0u8; 16384];
    let n = read_tape(list, &mut a, case.first);
    let m = read_tape(list, &mut b, case.second);
    Outcome::Right.if_right(is_picked(rt, case, &a[..n], &b[..m]))
}

pub fn play(rt: &impl Print, list: &mut List, case: Case) -> Outcome {
    let mut tape = [0u8; 16384];
    let mut sheet = [0u8; 32768];
    let n = read_tape(list, &mut tape, case.first);
    let m = read_text(list, &mut sheet, case.second);
    let told = ask::play(case, &tape[..n], &sheet[..m]);
    let wanted = case.wanted;
    Outcome::Right.if_right(ask::is_right(rt, b"wanted", wanted, told))
}

// The line of marks follows the sheet.
pub fn play_marked(rt: &impl Print, list: &mut List, case: Case) -> Outcome {
    let mut tape = [0u8; 16384];
    let mut sheet = [0u8; 32768];
    let n = read_tape(list, &mut tape, case.first);
    let m = read_text(list, &mut sheet, case.second);
    let line = next_marks(list);
    let told = marked::play(case, &tape[..n], &sheet[..m]);
    let wanted = case.wanted;
    Outcome::Right.if_right(mark_lines::is_right(rt, b"wanted", wanted, line, told))
}
