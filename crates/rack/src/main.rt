// One tool for the bench: its words say what is to be done with the job in a file or on standard input. What is printed is
// made by `commands::answer`; here it is read and written.

#![tactic(auto)]

ghost use Rattle.std.specs.Prelude.{◌≡◌, ◌≤◌, length};

use commands::answer;
use commands::words::{Asked, read_words};
use console::input::Unread;
use console::{input, output};
use line::gather;
use opening::{open, say_unopened};
use std::io::Read;

mod line;

// Room for an input, and for a byte more than it may have, so that a longer one shows.
fn input_room() -> [u8; 262_145]
    ensures { 262145 ≡ length result }
{
    [0; 262_145]
}

// Room for a sentence that names a word; or for one, the rows that were used, and where lines of the job stand.
fn saying_room() -> [u8; 148_480]
    ensures { 148480 ≡ length result }
{
    [0; 148_480]
}

// The first bytes of the two outputs.
fn write(rt: &HostRuntime, out: &[u8], printed: usize, said: &[u8], spoken: usize) {
    let n = input::part(out, printed);
    let m = input::part(said, spoken);
    output::put(rt, &out[..n]);
    // Where this fails there is nowhere left to say so.
    let _ = rt.stderr().write_all(&said[..m]);
}

fn finish(rt: &HostRuntime, words: &[u8], input: &[u8])
    requires { length words.now ≤ 8192 }
{
    let mut out = io::large_buffer();
    let mut said = saying_room();
    let printed = answer(words, input, &mut out, &mut said);
    write(rt, &out, printed.out, &said, printed.said);
}

fn with_file<R: Read>(rt: &HostRuntime, words: &[u8], file: &mut R)
    requires { length words.now ≤ 8192 }
{
    let mut space = input_room();
    match input::read(file, &mut space) {
        Ok(length) => {
            let n = input::part(&space, length);
            finish(rt, words, &space[..n]);
        }
        Err(Unread::TooLong) => finish(rt, words, &space),
        Err(Unread::Failed) => input::say_unread(rt),
    }
}

// The job stands in the file that the last word names, or on standard input.
fn with_input(rt: &HostRuntime, words: &[u8], at: usize)
    requires { length words.now ≤ 8192 }
{
    if words.len() <= at {
        with_file(rt, words, &mut rt.stdin());
        return;
    }
    let name = &words[at..words.len() - 1];
    match open(rt, name) {
        Ok(mut file) => with_file(rt, words, &mut file),
        Err(error) => say_unopened(&rt.stderr(), name, &error),
    }
}

fn obey(rt: &HostRuntime, words: &[u8])
    requires { length words.now ≤ 8192 }
{
    let asked = read_words(words);
    match asked {
        Asked::Job(_, at) => with_input(rt, words, at),
        _ => finish(rt, words, b""),
    }
}

fn main(rt: HostRuntime) {
    let mut space = [0u8; 8192];
    let length = gather(&rt, &mut space);
    if space.len() <= length {
        let _ = rt.eprint(
            "The words are too long: one may have 4096 bytes, and all of them 8191.\n",
        );
        return;
    }
    let n = input::part(&space, length);
    obey(&rt, &space[..n]);
}
