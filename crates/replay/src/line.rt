// A line of a list of cases: one or two letters, and fields of hex digits in either case, each after a tab. What they stand
// for is said where the lists are made, in tests/ and in tests/rust.
ghost use Rattle.std.specs.Prelude.{◌<◌, ◌≡◌, eqb};
ghost use Rattle.replay.specs.Judges.{digit_of};
ghost use Rattle.io.specs.Counts.{IsPrefixLen};

use super::slices::part;
use std::io::Read;

// The first two bytes, and the fields by their numbers from 1 on; a field that the line does not have is 0. No Option where the list has
// ended: a case that a list cut short asks for is read as zeros, and what is printed of it stays the same.
#[derive(Clone, Copy)]
pub struct Line {
    pub kind: u8,
    pub mark: u8,
    pub fields: [u64; 12],
}

impl Line {
    // What stands at the end of a list.
    fn none() -> Self {
        Self {
            kind: 0,
            mark: 0,
            fields: [0; 12],
        }
    }

    pub fn is_none(self) -> bool
        ensures { result ≡ eqb self.kind 0 }
    {
        self.kind == 0
    }
}

// The value of a hex digit; no other byte stands where it is asked.
pub fn digit(c: u8) -> u8
    ensures { result ≡ digit_of c }
{
    if c <= b'9' { c % 16 } else { c % 8 + 9 }
}

fn wide(b: u8) -> u64 {
    b as u64
}

// A field with one digit more; a tab and a line feed are none.
fn with_digit(field: u64, c: u8) -> u64 {
    if c < b'0' {
        field
    } else {
        (field << 4) | wide(digit(c))
    }
}

// The number of the field in which a byte stands, after a byte of field k: a tab begins the next one.
fn field_after(k: usize, c: u8) -> usize
    ensures { result < 12 }
{
    if 11 <= k {
        return 11;
    }
    if c == b'\t' { k + 1 } else { k }
}

fn line_of(bytes: &[u8]) -> Line {
    if bytes.len() < 2 {
        return Line::none();
    }
    let kind = bytes[0];
    let mark = bytes[1];
    let mut fields = [0; 12];
    let mut k = 0;
    for byte in bytes {
        k = field_after(k, *byte);
        fields[k] = with_digit(fields[k], *byte);
    }
    Line { kind, mark, fields }
}

// The next line of a list whose lines have this length, or none where there is no whole line.
pub fn next_line<R: Read>(list: &mut R, length: usize) -> Line {
    let mut bytes = [0u8; 190];
    let n = read_text(list, &mut bytes, length);
    if n < length {
        return Line::none();
    }
    line_of(&bytes[..n])
}

// Reads until a slice is full, the list ends or a read fails, and answers how many bytes were put at the start of the slice.
fn read_full<R: Read>(list: &mut R, text: &mut [u8]) -> usize
    ensures { IsPrefixLen result text.new }
{
    let mut done = 0;
    // No `for`: how far it goes on is what a read gave.
    while done < text.len() {
        let n = list.read(&mut text[done..]).unwrap_or(0);
        if n == 0 {
            break;
        }
        done += n;
    }
    done
}

// Puts the next bytes of the list at the start of a slice, and answers how many they are.
pub fn read_text<R: Read>(list: &mut R, text: &mut [u8], length: usize) -> usize
    ensures { IsPrefixLen result text.new }
{
    let most = part(text, length);
    let n = read_full(list, &mut text[..most]);
    part(text, n)
}

#[cfg(test)]
mod tests {
    use super::*;
    use std::io;

    // Gives one byte a call. The call after `whole` of them fails, and those after it go on. `console` tests with the same reader: no crate
    // of this repository stands below both, and a test's helper is not exported.
    #[derive(Drop)]
    struct Broken {
        calls: usize,
        whole: usize,
    }

    impl Read for Broken {
        fn read(&mut self, buf: &mut [u8]) -> io::Result<usize> {
            self.calls = self.calls.saturating_add(1);
            if self.calls == self.whole.saturating_add(1) {
                return Err(io::Error::from(io::ErrorKind::Other));
            }
            if buf.len() == 0 {
                return Ok(0);
            }
            buf[0] = b'7';
            Ok(1)
        }
    }

    #[test]
    fn a_read_that_fails_ends_the_text(rt: HostRuntime) {
        let mut text = [0u8; 8];
        let mut list = Broken { calls: 0, whole: 3 };
        assert_eq!(rt; read_text(&mut list, &mut text, 5), 3);
        assert!(rt; text == [b'7', b'7', b'7', 0, 0, 0, 0, 0]);
    }

    #[test]
    fn a_line_that_a_failed_read_cuts_short_is_none(rt: HostRuntime) {
        let mut list = Broken { calls: 0, whole: 3 };
        assert!(rt; next_line(&mut list, 4).is_none());
        let mut sound = Broken { calls: 0, whole: 4 };
        assert_eq!(rt; next_line(&mut sound, 4).kind, b'7');
    }
}
