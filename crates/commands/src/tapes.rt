// The commands on tapes: compile, play, check and show.
ghost use Rattle.std.specs.Prelude.{◌≡◌, ◌≤◌, length};
ghost use Rattle.calls.specs.Lent.{work, capacity};
ghost use Rattle.lacks.specs.Lacking.{missing_on_tape};
ghost use Rattle.commands.specs.Results.{lack_of, empty_tape, compiled, playing_tape, playing, checked, shown_text};
ghost use Rattle.outcomes.specs.Coming.{Comes};
ghost use Rattle.calls.specs.Marks.{play_marks};
ghost use Rattle.console.specs.TapeText.{tape_in};
ghost use Rattle.commands.specs.Coming.{ComesMarked};

use super::details::{fault_alone, fault_of};
use console::input::part;
use console::line::write_value;
use console::tape::{ROOM, read_tape, write_tape};
use expression::refusal::Refusal;
use lacks::tapes::missing_on_tape;
use memory::layout::{DESK_WORDS, MARKS, TABLE_WORDS};
use outcomes::Outcome;
use sentences::Detail;
use shown::write_steps;
use text::writing::write_bytes;

// As many bytes as the longest tape has.
fn empty_tape() -> [u8; 12_288]
    ensures { result ≡ empty_tape }
{
    [0; 12_288]
}

pub fn compile(
    list: &[u8],
    store: &mut [[u64; 4]],
    desk: &mut [u64; DESK_WORDS],
    table: &mut [u64; TABLE_WORDS],
    out: &mut [u8],
) -> Outcome
    requires { 36864 ≤ length out.old }
    ensures { Comes (compiled (capacity (work store.old desk.old table.old)) list.now) result out.new }
{
    let mut tape = empty_tape();
    match calls::tapes::compile(list, store, desk, table, &mut tape) {
        Ok(bytes) => {
            let n = part(&tape, bytes);
            Outcome::Printed(write_tape(out, &tape[..n]))
        }
        Err(why) => Outcome::Refused(why, fault_alone(why, list)),
    }
}

// For 10 besides, what the sheet does not bind.
fn lack_on_tape(
    why: Refusal,
    tape: &[u8],
    text: &[u8],
    values: &[u8],
    table: &mut [u64; TABLE_WORDS],
) -> Detail
    ensures { result ≡ lack_of (missing_on_tape tape.now values.now) text.now values.now why }
{
    if why.number() == 10 {
        return Detail::Missing(missing_on_tape(tape, values, table));
    }
    fault_of(why, text, values)
}

fn play_tape(
    tape: &[u8],
    text: &[u8],
    values: &[u8],
    table: &mut [u64; TABLE_WORDS],
    out: &mut [u8],
    marks: &mut [u8; MARKS],
) -> Outcome
    requires { 96 ≤ length out.old }
    ensures { ComesMarked (playing_tape tape.now text.now values.now) (play_marks tape.now values.now) result out.new marks.new }
{
    match calls::tapes::play_marked(tape, values, table, marks) {
        Ok(z) => Outcome::Printed(write_value(out, z)),
        Err(why) => Outcome::Refused(why, lack_on_tape(why, tape, text, values, table)),
    }
}

pub fn play(
    text: &[u8],
    values: &[u8],
    table: &mut [u64; TABLE_WORDS],
    out: &mut [u8],
    marks: &mut [u8; MARKS],
) -> Outcome
    requires { 96 ≤ length out.old }
    ensures { ComesMarked (playing text.now values.now) (play_marks (tape_in text.now) values.now) result out.new marks.new }
{
    let mut tape = [0u8; ROOM];
    let n = read_tape(&mut tape, text);
    play_tape(&tape[..n], text, values, table, out, marks)
}

pub fn check(text: &[u8], out: &mut [u8]) -> Outcome
    requires { 96 ≤ length out.old }
    ensures { Comes (checked text.now) result out.new }
{
    let mut tape = [0u8; ROOM];
    let n = read_tape(&mut tape, text);
    match tape::check(&tape[..n]) {
        Ok(()) => Outcome::Printed(write_bytes(out, 0, b"sound\n")),
        Err(why) => Outcome::Refused(why, Detail::Plain),
    }
}

pub fn show(text: &[u8], out: &mut [u8]) -> Outcome
    requires { 36936 ≤ length out.old }
    ensures { Comes (shown_text text.now) result out.new }
{
    let mut tape = [0u8; ROOM];
    let n = read_tape(&mut tape, text);
    match tape::check(&tape[..n]) {
        Ok(()) => Outcome::Printed(write_steps(out, &tape[..n])),
        Err(why) => Outcome::Refused(why, Detail::Plain),
    }
}
