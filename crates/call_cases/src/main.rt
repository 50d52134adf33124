// Replays cases of the public calls, and the examples of rack. Its arguments name lists: the Rust's answers, which
// tests/rust/run stores; tapes, listings and plays, which tests/call_cases.py makes with the right answers; and the jobs of the
// folder examples/. Says which answers of the port differ, and how many there were.

#![tactic(auto)]

use case::{Case, next_case};
use outcome::{Outcome, Tapes};
use replay::lists::{List, MOST};
use replay::{lists, say};

mod ask;
mod case;
mod digits;
mod evaluations;
mod examples;
mod listings;
mod mark_lines;
mod marked;
mod outcome;
mod tapes;

fn run_case(rt: &impl Print, list: &mut List, case: Case) -> Outcome {
    let kind = case.kind;
    match kind {
        b'k' => tapes::check(rt, list, case),
        b'p' => tapes::pick(rt, list, case),
        b'y' => tapes::play(rt, list, case),
        b'Y' => tapes::play_marked(rt, list, case),
        b'x' => examples::run(rt, list, case),
        _ => listings::run(rt, list, case),
    }
}

fn run_list(rt: &HostRuntime, k: usize) {
    let mut list = lists::open(rt, k);
    let mut count = 0;
    let mut wrong = 0;
    let mut tapes = Tapes::none();
    // No `for`: how many there were is said after the loop, which ends where the list does.
    while count < MOST {
        let case = next_case(&mut list);
        if case.is_none() {
            break;
        }
        let outcome = run_case(rt, &mut list, case);
        wrong += say::count_wrong(rt, count, outcome.is_right());
        tapes = tapes.with(outcome);
        count += 1;
    }
    lists::end(rt, k, count, wrong);
    tapes.end(rt);
}

// Argument 0 is the program's own name.
fn main(rt: HostRuntime) {
    for k in 1..usize::MAX {
        if !lists::is_named(&rt, k) {
            break;
        }
        run_list(&rt, k);
    }
}
