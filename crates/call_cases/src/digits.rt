// A tape as it stands in a list of cases: two hex digits a byte, and a line feed after each step and at the end.
ghost use Rattle.io.specs.Counts.{IsPrefixLen};

use replay::line::{digit, read_text};
use replay::lists::List;
use replay::slices::part;

fn digit_at(digits: &[u8], i: usize) -> u8 {
    digits.get(i).map_or(0, |c| digit(*c))
}

// The byte whose digits begin here.
fn byte_at(digits: &[u8], at: usize) -> u8 {
    if at < digits.len() {
        (digit_at(digits, at) << 4) | digit_at(digits, at + 1)
    } else {
        0
    }
}

// Where the digits of byte i begin. No tape is longer than a megabyte.
fn place_of(i: usize) -> usize {
    if i < 1_000_000 { 2 * i + i / 24 } else { 0 }
}

// How many bytes of a list a tape takes.
fn digits_of(length: usize) -> usize {
    if length < 1_000_000 {
        2 * length + (length + 23) / 24
    } else {
        0
    }
}

fn decode(digits: &[u8], tape: &mut [u8]) {
    for (i, byte) in tape.iter_mut().enumerate() {
        *byte = byte_at(digits, place_of(i));
    }
}

// Puts the next tape of the list at the start of a slice, and answers how many bytes it has.
pub fn read_tape(list: &mut List, tape: &mut [u8], length: usize) -> usize
    ensures { IsPrefixLen result tape.new }
{
    let mut digits = [0u8; 40960];
    let n = read_text(list, &mut digits, digits_of(length));
    let most = part(tape, length);
    decode(&digits[..n], &mut tape[..most]);
    part(tape, length)
}
