// The reducer: reads a listing and, after an empty line if any, a sheet; prints the simplified listing, or why there is
// none.

#![tactic(auto)]

use console::input::Unread;
use console::{input, output};
use reduction::reduce;

mod reduction;

// A byte more than an input may have, so that a longer one shows.
const ROOM: usize = 65_537;

fn run(rt: &(impl Print + Eprint), text: &[u8]) {
    // More than 1024 lines of the longest form take.
    let mut out = io::large_buffer();
    let n = reduce(text, &mut out);
    output::put(rt, &out[..n]);
}

fn main(rt: HostRuntime) {
    let mut space = [0u8; ROOM];
    match input::read(&mut rt.stdin(), &mut space) {
        Ok(length) => {
            let n = input::part(&space, length);
            run(&rt, &space[..n]);
        }
        Err(Unread::TooLong) => run(&rt, &space),
        Err(Unread::Failed) => input::say_unread(&rt),
    }
}
