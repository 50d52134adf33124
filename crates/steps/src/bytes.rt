// The 24 bytes of a step: its fields read from a tape, and written to one.
ghost use Rattle.std.specs.Prelude.{◌≡◌, ◌+◌, ◌≤◌, length, drop};
ghost use Rattle.text.specs.Put.{Put};
ghost use Rattle.steps.specs.Steps.{first, fields_in, head_of, encoded};

use super::{Fields, Step, fields_of};
use text::writing::{write_byte, write_bytes};

fn half_at(tape: &[u8], at: usize) -> u16
    requires { at + 2 ≤ length tape.now }
    ensures { result ≡ first 2 (drop at tape.now) }
{
    u16::from_le_bytes(tape[at..at + 2].try_into().unwrap())
}

fn word_at(tape: &[u8], at: usize) -> u32
    requires { at + 4 ≤ length tape.now }
    ensures { result ≡ first 4 (drop at tape.now) }
{
    u32::from_le_bytes(tape[at..at + 4].try_into().unwrap())
}

fn double_at(tape: &[u8], at: usize) -> u64
    requires { at + 8 ≤ length tape.now }
    ensures { result ≡ first 8 (drop at tape.now) }
{
    u64::from_le_bytes(tape[at..at + 8].try_into().unwrap())
}

// The fields of the step whose first byte is there.
pub fn fields_at(tape: &[u8], at: usize) -> Fields
    requires { at + 24 ≤ length tape.now }
    ensures { result ≡ fields_in (drop at tape.now) }
{
    Fields {
        opcode: tape[at],
        sub: tape[at + 1],
        half: half_at(tape, at + 2),
        word: word_at(tape, at + 4),
        re: double_at(tape, at + 8),
        im: double_at(tape, at + 16),
    }
}

// Opcode, sub and the two whole numbers.
fn write_head(out: &mut [u8], at: usize, f: Fields) -> usize
    requires { at + 8 ≤ length out.old }
    ensures { Put out.old at (head_of f) result out.new }
{
    let p = write_byte(out, at, f.opcode);
    let q = write_byte(out, p, f.sub);
    let r = write_bytes(out, q, &f.half.to_le_bytes());
    write_bytes(out, r, &f.word.to_le_bytes())
}

// A step, 24 bytes.
pub fn write_step(out: &mut [u8], at: usize, s: Step) -> usize
    requires { at + 24 ≤ length out.old }
    ensures { Put out.old at (encoded s) result out.new }
{
    let f = fields_of(s);
    let p = write_head(out, at, f);
    let q = write_bytes(out, p, &f.re.to_le_bytes());
    write_bytes(out, q, &f.im.to_le_bytes())
}
