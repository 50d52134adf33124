// What a command has come to, what is printed of it and what is said of it: bytes that stand at the start of the output
// already, or a refusal.

#![tactic(auto)]

ghost use Rattle.std.specs.Prelude.{◌≡◌, true, ◌++◌, ◌+◌, ◌≤◌, length};
ghost use Rattle.io.specs.Counts.{IsPrefixLen};
ghost use Rattle.text.specs.Put.{Put};
ghost use Rattle.marks.specs.Marking.{used_line};
ghost use Rattle.outcomes.specs.Outcomes.{refused_text, output_with, standing_with, said_with};
ghost use Rattle.outcomes.specs.Coming.{seen, Prints, said_of, bytes_of, Inside, Short, Stands};

use console::line::{write_refusal, write_refused};
use expression::refusal::Refusal;
use marks::{write_marks, write_used};
use origins::standing::write_standing;
use sentences::{Detail, write_calls, write_sentence, write_too_long};
use text::writing::write_bytes;

// So many bytes of the output, alone or with the number of simplify calls; a refusal and what is known of it besides; or an
// input that is too long.
#[derive(Clone, Copy)]
pub enum Outcome {
    Printed(usize),
    Simplified(usize, u64),
    Refused(Refusal, Detail),
    TooLong,
}

// Where a line of marks can begin at the latest, in an output of 65536 bytes.
const BEFORE_MARKS: usize = 64_496;

// The room for a sentence, after which the rows are said.
const BEFORE_ROWS: usize = 81_920;

// The room for both, after which it is said where lines of the job stand.
const BEFORE_STANDING: usize = 82_960;

fn print_refusal(out: &mut [u8], why: Refusal) -> usize
    requires { 96 ≤ length out.old }
    ensures put { Put out.old 0 (refused_text why) result out.new }
    ensures within { IsPrefixLen result out.new }
{
    if why.number() == 10 {
        return write_bytes(out, 0, b"incomplete\n");
    }
    write_refusal(out, why)
}

// Bytes that stand at the start of the output stay there.
fn print(out: &mut [u8], outcome: Outcome) -> usize
    requires { (96 ≤ length out.old) × Inside out.old outcome }
    ensures { Prints out.old outcome result out.new }
{
    match outcome {
        Outcome::Printed(n) | Outcome::Simplified(n, _) => n,
        Outcome::Refused(why, _) => print_refusal(out, why),
        Outcome::TooLong => write_refused(out, 0, 0),
    }
}

fn say(said: &mut [u8], outcome: Outcome) -> usize
    requires { 81920 ≤ length said.old }
    ensures put { Put said.old 0 (said_of outcome) result said.new }
    ensures within { IsPrefixLen result said.new }
{
    match outcome {
        Outcome::Printed(_) => 0,
        Outcome::Simplified(_, calls) => write_calls(said, calls),
        Outcome::Refused(why, detail) => write_sentence(said, why, detail),
        Outcome::TooLong => write_too_long(said),
    }
}

// The answer and, where it is asked for, the line of the marks.
pub fn print_marked(out: &mut [u8], outcome: Outcome, marks: [u8; 256], shown: bool) -> usize
    requires { (65536 ≤ length out.old) × Inside out.old outcome × (shown ≡ true → Short outcome) }
    ensures { Stands (output_with shown marks (seen out.old outcome)) result out.new }
{
    if shown {
        let n = print(&mut out[..BEFORE_MARKS], outcome);
        return write_marks(out, n, &marks);
    }
    print(out, outcome)
}

// The sentence, and the rows that were used.
fn say_marked(said: &mut [u8], outcome: Outcome, marks: [u8; 256]) -> usize
    requires { 82960 ≤ length said.old }
    ensures { Stands (said_of outcome ++ used_line marks) result said.new }
{
    let n = say(&mut said[..BEFORE_ROWS], outcome);
    write_used(said, n, &marks)
}

// How many bytes of the output are printed as they stand there.
fn bytes_of(outcome: Outcome) -> usize
    ensures { result ≡ bytes_of outcome }
{
    match outcome {
        Outcome::Printed(n) | Outcome::Simplified(n, _) => n,
        Outcome::Refused(_, _) | Outcome::TooLong => 0,
    }
}

// Where lines of the job stand in the listing, if that is asked for; after what is said already.
fn say_standing(said: &mut [u8], at: usize, out: &[u8], outcome: Outcome, traced: bool) -> usize
    requires { (at + 56320 ≤ length said.old) × Inside out.now outcome }
    ensures { Put said.old at (standing_with traced (seen out.now outcome)) result said.new × (result ≤ at + 56320) }
{
    if traced {
        let n = bytes_of(outcome);
        return write_standing(said, at, &out[..n]);
    }
    at
}

// All that is said of an outcome whose bytes stand at the start of the output.
pub fn say_traced(
    said: &mut [u8],
    out: &[u8],
    outcome: Outcome,
    marks: [u8; 256],
    traced: bool,
) -> usize
    requires { (139280 ≤ length said.old) × Inside out.now outcome }
    ensures { Stands (said_with traced marks (seen out.now outcome)) result said.new }
{
    let n = say_marked(&mut said[..BEFORE_STANDING], outcome, marks);
    say_standing(said, n, out, outcome, traced)
}
