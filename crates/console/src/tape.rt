// A tape as a text that people read and write: a line a step, its 24 bytes in hex, parted by tabs into the six fields.
ghost use Rattle.std.specs.Prelude.{◌≡◌, ◌+◌, ◌*◌, ◌≤◌, [], length};
ghost use Rattle.io.specs.Counts.{IsPrefixLen};
ghost use Rattle.text.specs.Seen.{seen};
ghost use Rattle.text.specs.Put.{Put};
ghost use Rattle.console.specs.TapeText.{stop_after, in_digits, in_lines, byte_from, step_from, or_zeros, next_line, tape_in};

use text::reading::{byte_at, digit, end_field};
use text::writing::{digit_byte, write_byte, write_bytes};

const LF: u8 = b'\n';

// The bytes of a step.
const STEP: usize = 24;

// How many steps are read: one more than a tape may have, so that a longer one shows.
const STEPS: usize = 513;

// The room for the bytes of a tape that is read.
pub const ROOM: usize = 12_312;

// What stands after byte k of a step, and 0 where nothing does: no Option, since `in_digits` and `byte_from` are defined on that 0.
fn stop_after(k: usize) -> u8
    ensures { result ≡ stop_after k }
{
    byte_at(b"\t\t\0\t\0\0\0\t\0\0\0\0\0\0\0\t\0\0\0\0\0\0\0\n", k)
}

fn write_digits(out: &mut [u8], at: usize, b: u8, stop: u8) -> usize
    requires { at + 3 ≤ length out.old }
    ensures { Put out.old at (in_digits b stop) result out.new }
{
    let n = b as u64;
    out[at] = digit_byte(n / 16);
    out[at + 1] = digit_byte(n % 16);
    if stop == 0 {
        return at + 2;
    }
    write_byte(out, at + 2, stop)
}

// The lines of a tape, at the start of an output.
pub fn write_tape(out: &mut [u8], tape: &[u8]) -> usize
    requires { 3 * length tape.now ≤ length out.old }
    ensures put { Put out.old 0 (in_lines 0 tape.now) result out.new }
    ensures within { IsPrefixLen result out.new }
{
    let mut at: usize = 0;
    for (i, &b) in tape.iter().enumerate() {
        at = write_digits(out, at, b, stop_after(i % STEP));
    }
    at
}

fn read_byte(s: &[u8], stop: u8) -> Option<(u64, &[u8])>
    ensures { seen result ≡ byte_from stop s.now }
{
    let (&a, s) = s.split_first()?;
    let high = digit(a);
    if 15 < high {
        return None;
    }
    let (&b, s) = s.split_first()?;
    let low = digit(b);
    if 15 < low {
        return None;
    }
    let n = Some((high * 16 + low, s));
    if stop == 0 {
        return n;
    }
    end_field(n, stop)
}

// The step that a line says; a line that says none gives zeros, which are no step.
fn read_step(s: &[u8]) -> [u8; 24]
    ensures { result ≡ or_zeros (step_from 24 [] s.now) }
{
    let mut step = [0u8; STEP];
    let mut rest = s;
    for k in 0..STEP {
        let Some((b, after)) = read_byte(rest, stop_after(k)) else {
            return [0u8; STEP];
        };
        step[k] = b as u8;
        rest = after;
    }
    step
}

// What stands after the line feed that comes next, or nothing.
pub fn next_line(s: &[u8]) -> &[u8]
    ensures { result.now ≡ next_line s.now }
{
    let mut rest = s;
    while let Some((&b, after)) = rest.split_first() {
        rest = after;
        if b == LF {
            return rest;
        }
    }
    rest
}

// The bytes that a text says, at the start of an output: 24 for each line.
pub fn read_tape(out: &mut [u8], text: &[u8]) -> usize
    requires { 12312 ≤ length out.old }
    ensures put { Put out.old 0 (tape_in text.now) result out.new }
    ensures within { IsPrefixLen result out.new }
{
    let mut rest = text;
    let mut n: usize = 0;
    for _ in 0..STEPS {
        if rest.is_empty() {
            return n;
        }
        let step = read_step(rest);
        n = write_bytes(out, n, &step);
        rest = next_line(rest);
    }
    n
}
