// Replays cases of the parts below the public calls. Its arguments name three lists, which tests/part_cases.py makes with the
// right answers: vectors for complex numbers, commands for a store, and listings and sheets as texts.

#![tactic(auto)]

use replay::lists;

mod commands;
mod listings;
mod nodes;
mod say;
mod sheets;
mod texts;
mod vectors;

fn main(rt: HostRuntime) {
    vectors::run(&rt, &mut lists::open(&rt, 1), 1);
    commands::run(&rt, &mut lists::open(&rt, 2));
    texts::run(&rt, &mut lists::open(&rt, 3));
}
