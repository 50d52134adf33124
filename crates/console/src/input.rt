// The job that is read: to its end, and where its listing and its sheet part.
ghost use Rattle.std.specs.Prelude.{◌≡◌, min, length};
ghost use Rattle.io.specs.Counts.{IsPrefixLen};
ghost use Rattle.console.specs.Parting.{Parted};
ghost use Rattle.console.specs.Slices.{SheetPart};
ghost use Rattle.console.specs.declared.input.Unread.{Unread as Whys};

use std::io;
use std::io::Read;

const LF: u8 = b'\n';

// Why an input is not read to its end.
#[derive(Clone, Copy, Debug, PartialEq, Eq)]
pub enum Unread {
    TooLong,
    Failed,
}

impl From<io::Error> for Unread {
    ghost from_gives = { λ error unread. unread ≡ Whys.Failed };

    fn from(_error: io::Error) -> Unread {
        Unread::Failed
    }
}

// Reads a file up to its end, and answers how long it is. One that fills the slice is too long.
pub fn read<R: Read>(file: &mut R, text: &mut [u8]) -> Result<usize, Unread> {
    let mut done: usize = 0;
    // No `for`: how far it goes on is what a read gave.
    while done < text.len() {
        let more = file.read(&mut text[done..])?;
        if more == 0 {
            return Ok(done);
        }
        done += more;
    }
    Err(Unread::TooLong)
}

// As much of a slice as n says, at most its length.
pub fn part(s: &[u8], n: usize) -> usize
    ensures prefix_len { IsPrefixLen result s.now }
    ensures least { result ≡ min n (length s.now) }
{
    n.min(s.len())
}

// How long the listing is: it ends before the first empty line, or with the text.
pub fn listing_length(text: &[u8]) -> usize
    ensures { Parted text.now result }
{
    let mut before = LF;
    for (at, byte) in text.iter().enumerate() {
        if before == LF && *byte == LF {
            return at;
        }
        before = *byte;
    }
    text.len()
}

// The sheet: what follows after the line feed of the empty line.
pub fn sheet_of(rest: &[u8]) -> &[u8]
    ensures { SheetPart rest.entry result }
{
    match rest {
        [] => rest,
        [_, sheet @ ..] => sheet,
    }
}

// The sentence on standard error for an input that failed.
pub fn say_unread(rt: &impl Eprint) {
    let _ = rt.eprint("The input could not be read to its end.\n");
}

#[cfg(test)]
mod tests {
    use super::*;
    use std::io;

    // Gives one byte a call. The call after `whole` of them fails, and those after it go on.
    #[derive(Drop)]
    struct Broken {
        calls: usize,
        whole: usize,
    }

    impl Read for Broken {
        fn read(&mut self, buf: &mut [u8]) -> io::Result<usize> {
            self.calls = self.calls.saturating_add(1);
            if self.calls == self.whole.saturating_add(1) {
                return Err(io::Error::from(io::ErrorKind::Other));
            }
            if buf.len() == 0 {
                return Ok(0);
            }
            buf[0] = b'7';
            Ok(1)
        }
    }

    #[test]
    fn an_input_ends_or_fails_or_is_too_long(rt: HostRuntime) {
        let mut text = [0u8; 8];
        let mut bytes: &[u8] = b"a job";
        assert_eq!(rt; read(&mut bytes, &mut text), Ok(5));
        assert_eq!(rt;
            read(&mut Broken { calls: 0, whole: 3 }, &mut text),
            Err(Unread::Failed)
        );
        assert_eq!(rt;
            read(&mut Broken { calls: 0, whole: 8 }, &mut text),
            Err(Unread::TooLong)
        );
    }
}
