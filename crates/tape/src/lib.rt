// The tape of an expression: compiled from the store, checked, played on a stack of 64 values, and picked from two.

#![tactic(auto)]

ghost use Rattle.std.specs.Prelude.{◌≡◌, ◌*◌, ◌≤◌, length, is_ok};
ghost use Rattle.steps.specs.Steps.{step_of};
ghost use Rattle.tape.specs.Tapes as Tapes;
ghost use Rattle.tape.specs.Run.{values_after, checked};

use expression::refusal::Refusal;
use steps::bytes::fields_at;
use steps::{Fields, is_known};

pub mod compile;
pub mod play;

// "1 to 512 whole steps"; "the stack is sixty-four complex numbers".
const MOST_STEPS: usize = 512;

const MOST_VALUES: usize = 64;

#[derive(Clone, Copy)]
pub enum Picked {
    First,
    Second,
    Nothing,
}

// How many values a step takes from the stack; each step leaves one.
pub fn taken(f: Fields) -> usize
    ensures { (result ≡ Tapes.takes (step_of f)) × (result ≤ 2) }
{
    let opcode = f.opcode;
    match opcode {
        1 | 2 | 3 | 4 => 0,
        5 | 6 => 1,
        _ => 2,
    }
}

// How many values there are after a step, if it is allowed.
fn values_after(values: usize, f: Fields) -> Option<usize>
    requires { values ≤ 64 }
    ensures { result ≡ values_after values f }
{
    if !is_known(f) {
        return None;
    }
    let left = values.checked_sub(taken(f))?;
    if MOST_VALUES <= left {
        return None;
    }
    Some(left + 1)
}

// The steps one by one, where there are `count` whole ones: the first bad one. It is a number and no refusal, which would go through memory: so
// checking and picking take half the stack.
fn check_steps(tape: &[u8], count: usize) -> Option<u64>
    requires { (24 * count ≤ length tape.now) × (count ≤ 512) }
    ensures { checked result ≡ Tapes.check_from 0 0 (Tapes.fields_of_all count tape.now) }
{
    let mut values: usize = 0;
    for i in 0..count {
        let Some(next) = values_after(values, fields_at(tape, 24 * i)) else {
            return Some(i as u64);
        };
        values = next;
    }
    if values == 1 {
        return None;
    }
    Some(count as u64)
}

// "Length faults name step 0."
fn first_bad(tape: &[u8]) -> Option<u64>
    ensures { checked result ≡ Tapes.check tape.now }
{
    let count = tape.len() / 24;
    if tape.len() % 24 != 0 {
        return Some(0);
    }
    if count == 0 {
        return Some(0);
    }
    if MOST_STEPS < count {
        return Some(0);
    }
    check_steps(tape, count)
}

// A tape is sound, or it is refused by its first bad step.
pub fn check(tape: &[u8]) -> Result<(), Refusal>
    ensures { result ≡ Tapes.check tape.now }
{
    match first_bad(tape) {
        None => Ok(()),
        Some(step) => Err(Refusal::BadTape(step)),
    }
}

fn is_sound(tape: &[u8]) -> bool
    ensures { result ≡ is_ok (Tapes.check tape.now) }
{
    first_bad(tape).is_none()
}

// Which of two tapes has fewer steps, the first at a tie; an unsound one loses.
pub fn which(a: &[u8], b: &[u8]) -> Picked
    ensures { result ≡ Tapes.picked a.now b.now }
{
    if !is_sound(a) {
        if is_sound(b) {
            return Picked::Second;
        }
        return Picked::Nothing;
    }
    if b.len() / 24 < a.len() / 24 {
        if is_sound(b) {
            return Picked::Second;
        }
    }
    Picked::First
}

// The tape that was picked, as the caller lent it, or the empty part of the first.
pub fn pick<'a>(a: &'a [u8], b: &'a [u8]) -> &'a [u8]
    ensures result_value { result.now ≡ Tapes.pick a.now b.now }
    ensures own { Tapes.Own (Tapes.picked a.now b.now) a.entry b.entry result }
{
    let choice = which(a, b);
    match choice {
        Picked::First => a,
        Picked::Second => b,
        Picked::Nothing => &a[..0],
    }
}
