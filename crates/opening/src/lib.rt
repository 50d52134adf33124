// Opening a file that a word of the command line names, and saying why one could not be opened.

#![tactic(auto)]

use std::fs::File;
use std::io::{Error, ErrorKind, Write};
use std::rt::Files;
use std::{io, str};

// More than the longest of the system's sentences on an error takes, with its number.
const ROOM: usize = 256;

// Opens a file for reading. A path of std is text: a name that is not UTF-8 names no file to it.
pub fn open<R: Files>(rt: &R, name: &[u8]) -> io::Result<R::File> {
    match str::from_utf8(name) {
        Ok(path) => File::open(rt, path),
        Err(_) => Err(Error::from(ErrorKind::InvalidFilename)),
    }
}

// Puts what std says of an error at the start of the room, and answers how many bytes it has.
fn write_error(error: &Error, room: &mut [u8; ROOM]) -> usize {
    let mut rest: &mut [u8] = room;
    // What has no place in the room is left out.
    let _ = write!(rest, "{error}");
    ROOM.saturating_sub(rest.len())
}

// The sentence alone: after what the system says of an error std puts its number.
fn sentence(text: &str) -> &str {
    match text.split_once(" (os error ") {
        Some((before, _)) => before,
        None => text,
    }
}

// A line on standard error: the file's name, a colon and why it could not be opened.
pub fn say_unopened(stderr: &impl Print, name: &[u8], error: &Error) {
    let mut room = [0u8; ROOM];
    let n = write_error(error, &mut room).min(ROOM);
    let why = sentence(str::from_utf8(&room[..n]).unwrap_or(""));
    let _ = stderr.write_all(name);
    let _ = stderr.write_all(b": ");
    let _ = stderr.write_all(why.as_bytes());
    let _ = stderr.write_all(b"\n");
}

#[cfg(test)]
mod tests {
    use super::*;

    // What std says of an error, and the system's own words for it.
    fn words_of(room: &mut [u8; ROOM], error: &Error) -> usize {
        let n = write_error(error, room).min(ROOM);
        sentence(str::from_utf8(&room[..n]).unwrap_or("")).len()
    }

    #[test]
    fn a_file_that_is_missing_is_said_in_the_systems_words(rt: HostRuntime) {
        let mut room = [0u8; ROOM];
        match open(&rt, b"/no/such/file") {
            Ok(_) => assert!(rt; false, "opened"),
            Err(error) => {
                let n = words_of(&mut room, &error).min(ROOM);
                assert_eq!(rt; &room[..n], b"No such file or directory".as_slice());
            }
        }
    }

    #[test]
    fn a_name_that_is_not_text_is_refused(rt: HostRuntime) {
        match open(&rt, b"a\xffb") {
            Ok(_) => assert!(rt; false, "opened"),
            Err(error) => assert!(rt; error.kind() == ErrorKind::InvalidFilename),
        }
    }
}
