// The words of the command line, gathered into a text: each of them is a line.
use std::env::FillError;
use std::rt::Env;
use text::writing::{write_byte, write_bytes};

const LF: u8 = b'\n';

// Room for the longest word.
const WORD: usize = 4096;

// One word more; the whole length stands for words that are too long.
fn append(space: &mut [u8], at: usize, word: &[u8]) -> usize {
    if space.len() <= word.len() {
        return space.len();
    }
    if space.len() - word.len() <= at {
        return space.len();
    }
    let next = write_bytes(space, at, word);
    write_byte(space, next, LF)
}

// How many bytes the words take, or the whole length where they are too long. The program's own name, which comes first, is
// none of them.
pub fn gather(rt: &impl Env, space: &mut [u8]) -> usize {
    let mut at: usize = 0;
    for k in 1..usize::MAX {
        let mut word = [0u8; WORD];
        match rt.arg(k, &mut word) {
            Ok(n) => at = append(space, at, &word[..n]),
            Err(FillError::TooLong) => return space.len(),
            Err(FillError::NotPresent) => break,
        }
    }
    at
}
