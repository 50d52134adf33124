// The numbers of the rows that are marked, written as a line at a place of an output that has room for it.

#![tactic(auto)]

ghost use Rattle.std.specs.Prelude.{◌≡◌, cond, [], ◌∷◌, ◌+◌, ◌*◌, ◌<◌, ◌≤◌, eqb, length};
ghost use Rattle.text.specs.Lines.{none};
ghost use Rattle.text.specs.Writing.{in_decimal};
ghost use Rattle.text.specs.Put.{Put};
ghost use Rattle.marks.specs.Marking.{marked, each, numbers_line, marks_line, used_line};

use text::writing::{write_byte, write_bytes, write_decimal};

const LF: u8 = b'\n';

// Of a mark that is not 0 its row's number, after the separator.
fn write_mark(out: &mut [u8], at: usize, mark: u8, number: u64, separator: u8) -> usize
    requires { (number < 256) × (at + 4 ≤ length out.old) }
    ensures { Put out.old at (cond (eqb mark 0) [] (separator ∷ in_decimal number)) result out.new × (result ≤ at + 4) }
{
    if mark == 0 {
        return at;
    }
    let next = write_byte(out, at, separator);
    write_decimal(out, next, number)
}

fn write_numbers(out: &mut [u8], at: usize, separator: u8, marks: &[u8]) -> usize
    requires { (length marks.now ≤ 256) × (at + 1024 ≤ length out.old) }
    ensures { Put out.old at (each separator (marked marks.now)) result out.new × (result ≤ at + 1024) }
{
    let mut next = at;
    for (k, mark) in marks.iter().enumerate() {
        next = write_mark(out, next, *mark, k as u64, separator);
    }
    next
}

// Of 256 marks: the longest line has 925 bytes.
fn write_line(out: &mut [u8], at: usize, head: &[u8], separator: u8, marks: &[u8]) -> usize
    requires { (length marks.now ≤ 256) × (length head.now ≤ 15) × (at + 1040 ≤ length out.old) }
    ensures { Put out.old at (numbers_line head.now separator (marked marks.now)) result out.new × (result ≤ at + 1040) }
{
    let p = write_bytes(out, at, head);
    let q = write_numbers(out, p, separator, marks);
    write_byte(out, q, LF)
}

pub fn write_marks(out: &mut [u8], at: usize, marks: &[u8]) -> usize
    requires { (length marks.now ≤ 256) × (at + 1040 ≤ length out.old) }
    ensures { Put out.old at (marks_line marks.now) result out.new × (result ≤ at + 1040) }
{
    write_line(out, at, b"marks", b'\t', marks)
}

// Whether no row is marked.
fn is_clear(marks: &[u8]) -> bool
    ensures { result ≡ none (marked marks.now) }
{
    marks.iter().all(|mark| *mark == 0)
}

// Nothing where no row is marked.
pub fn write_used(out: &mut [u8], at: usize, marks: &[u8]) -> usize
    requires { (length marks.now ≤ 256) × (at + 1040 ≤ length out.old) }
    ensures { Put out.old at (used_line marks.now) result out.new × (result ≤ at + 1040) }
{
    if is_clear(marks) {
        return at;
    }
    write_line(out, at, b"rows used:", b' ', marks)
}
