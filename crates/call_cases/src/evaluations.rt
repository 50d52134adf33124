// An evaluation that the Rust answered, and its tape: the listing is evaluated, then compiled, and the tape played with the
// same sheet. Playing has to answer what evaluating does, bit for bit, and to mark the same rows.
use super::ask::{Told, ask, is_left_clear, is_right, play};
use super::case::Case;
use super::mark_lines::{is_marked, next_marks};
use super::outcome::Outcome;
use super::{mark_lines, marked};
use complex::bits::class_of_bits;
use replay::lists::List;
use replay::slices::part;

// As long as the longest tape.
const TAPE: usize = 12288;

// An answer with one zero where it is a value.
fn with_one_zero(words: [u64; 6]) -> [u64; 6] {
    if words[0] != 0 {
        return words;
    }
    [
        0,
        words[1],
        class_of_bits(words[2]),
        class_of_bits(words[3]),
        words[4],
        words[5],
    ]
}

// Whether a value is the Rust's, zeros of either sign as one.
pub fn is_value(rt: &impl Print, case: Case, told: Told) -> bool {
    let wanted = case.wanted;
    let words = told.words;
    let alike = with_one_zero(words);
    let mut got = told;
    got.words = alike;
    is_right(rt, b"the Rust", with_one_zero(wanted), got)
}

pub fn run(rt: &impl Print, case: Case, text: &[u8], sheet: &[u8]) -> Outcome {
    let evaluated = ask(b'e', case, text, sheet, 0);
    if !is_value(rt, case, evaluated) {
        return Outcome::Wrong;
    }
    let words = evaluated.words;
    compile(rt, case, words, [0; mark_lines::LINE], text, sheet)
}

// The line of marks follows in the list.
pub fn run_marked(
    rt: &impl Print,
    list: &mut List,
    case: Case,
    text: &[u8],
    sheet: &[u8],
) -> Outcome {
    let line = next_marks(list);
    let evaluated = marked::evaluate(case, text, sheet);
    if !is_value(rt, case, evaluated) {
        return Outcome::Wrong;
    }
    if !is_marked(rt, line, evaluated) {
        return Outcome::Wrong;
    }
    let words = evaluated.words;
    compile(rt, case, words, line, text, sheet)
}

fn compile(
    rt: &impl Print,
    case: Case,
    evaluated: [u64; 6],
    line: [u8; mark_lines::LINE],
    text: &[u8],
    sheet: &[u8],
) -> Outcome {
    let compiled = ask(b'c', case, text, sheet, TAPE);
    let words = compiled.words;
    if words[0] != 0 {
        return refused(rt, evaluated, compiled);
    }
    if !is_left_clear(rt, compiled) {
        return Outcome::Wrong;
    }
    let tape = compiled.paper;
    let n = part(&tape, words[1] as usize);
    Outcome::Played.if_right(is_played(rt, case, evaluated, line, &tape[..n], sheet))
}

// With marks if it was evaluated with marks.
fn is_played(
    rt: &impl Print,
    case: Case,
    evaluated: [u64; 6],
    line: [u8; mark_lines::LINE],
    tape: &[u8],
    sheet: &[u8],
) -> bool {
    if case.kind == b'E' {
        let told = marked::play(case, tape, sheet);
        return mark_lines::is_right(rt, b"evaluating", evaluated, line, told);
    }
    is_right(rt, b"evaluating", evaluated, play(case, tape, sheet))
}

// Where evaluating has refused the listing, compiling has to refuse it likewise. Whatever else can be evaluated is compiled, or
// refused by 14.
fn refused(rt: &impl Print, evaluated: [u64; 6], compiled: Told) -> Outcome {
    let number = evaluated[0];
    match number {
        1 | 2 | 6 | 7 | 8 => {
            Outcome::Refused.if_right(is_right(rt, b"evaluating", evaluated, compiled))
        }
        _ => Outcome::Long.if_right(is_right(rt, b"without a tape", [14, 0, 0, 0, 0, 0], compiled)),
    }
}
