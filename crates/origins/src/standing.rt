// What is said of a listing with origins: for each line that has one, where it stood in the job.
ghost use Rattle.std.specs.Prelude.{◌++◌, ◌+◌, ◌<◌, ◌≤◌, length};
ghost use Rattle.text.specs.Put.{Put};
ghost use Rattle.text.specs.Reading.{decimal};
ghost use Rattle.text.specs.Writing.{in_decimal};
ghost use Rattle.origins.specs.Fields.{most_origins};
ghost use Rattle.origins.specs.Standing.{stands_at, told, standing};

use text::reading::read_decimal;
use text::writing::{write_bytes, write_decimal};

const LF: u8 = 10;

// A listing has at most 1024 lines.
const LINES: u64 = 1024;

// Some words and the number of a line after them.
fn write_named(out: &mut [u8], at: usize, words: &[u8], line: u64) -> usize
    requires { (line < 1024) × (at + length words.now + 4 ≤ length out.old) }
    ensures { Put out.old at (words.now ++ in_decimal line) result out.new × (result ≤ at + length words.now + 4) }
{
    let next = write_bytes(out, at, words);
    write_decimal(out, next, line)
}

// One sentence: at most 55 bytes.
fn write_stands(out: &mut [u8], at: usize, job: u64, res: u64) -> usize
    requires { (job < 1024) × (res < 1024) × (at + 55 ≤ length out.old) }
    ensures { Put out.old at (stands_at job res) result out.new × (result ≤ at + 55) }
{
    let p = write_named(out, at, b"line ", job);
    let q = write_named(out, p, b" of the job stands at line ", res);
    write_bytes(out, q, b" of the result\n")
}

// What the `@` of a line says, by what stands after it.
fn write_told(out: &mut [u8], at: usize, after: &[u8], line: u64) -> usize
    requires { (line < 1024) × (at + 55 ≤ length out.old) }
    ensures { Put out.old at (told line (decimal most_origins after.now)) result out.new × (result ≤ at + 55) }
{
    let Some((job, _)) = read_decimal(after, LINES) else {
        return at;
    };
    write_stands(out, at, job, line)
}

// A sentence for each line of the text that has an origin: at most 1024.
pub fn write_standing(out: &mut [u8], at: usize, text: &[u8]) -> usize
    requires { at + 56320 ≤ length out.old }
    ensures { Put out.old at (standing text.now) result out.new × (result ≤ at + 56320) }
{
    let mut next = at;
    let mut line: u64 = 0;
    let mut passed = false;
    for (i, &b) in text.iter().enumerate() {
        if b == LF {
            line += 1;
            passed = false;
        } else if b == b'@' {
            if !passed && line < LINES {
                next = write_told(out, next, &text[i + 1..], line);
            }
            passed = true;
        }
    }
    next
}
