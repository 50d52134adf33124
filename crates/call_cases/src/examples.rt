// An example of the folder examples/: the words of a command line and a job, and what the tool `rack` has to print on standard
// output and to say on standard error. Both are compared byte for byte.
ghost use Rattle.std.specs.Prelude.{◌+◌, ◌≤◌, ◌≡◌, length};
ghost use Rattle.replay.specs.Judges.{same};
ghost use Rattle.call_cases.specs.Judging.{printed_as};

use super::case::Case;
use super::outcome::Outcome;
use commands::answer;
use replay::line::read_text;
use replay::lists::List;
use replay::say;
use replay::slices::is_same;

// As long as the words of a command line can be.
const WORDS: usize = 8192;

// Room for a sentence that names a word; or for one, the rows that were used, and where lines of the job stand.
const SAID: usize = 148_480;

fn say_both(rt: &impl Print, what: &[u8], wanted: &[u8], got: &[u8]) {
    say::word(rt, what);
    say::word(rt, b", wanted:\n");
    say::word(rt, wanted);
    say::word(rt, b"the port:\n");
    say::word(rt, got);
}

// Whether a text is the wanted one; says both if it is not. `what` names it.
fn is_text(rt: &impl Print, what: &[u8], wanted: &[u8], got: &[u8]) -> bool
    ensures { result ≡ same wanted.now got.now }
{
    let is_right = is_same(wanted, got);
    if !is_right {
        say_both(rt, what, wanted, got);
    }
    is_right
}

// Whether the two outputs get what is wanted.
fn is_printed(
    rt: &impl Print,
    words: &[u8],
    job: &[u8],
    out_wanted: &[u8],
    said_wanted: &[u8],
    out: &mut [u8],
    said: &mut [u8],
) -> bool
    requires { (65536 ≤ length out.old) × (length words.now + 139280 ≤ length said.old) }
    ensures { result ≡ printed_as words.now job.now out.old out_wanted.now said_wanted.now }
{
    let printed = answer(words, job, out, said);
    let n = printed.out;
    let m = printed.said;
    if !is_text(rt, b"standard output", out_wanted, &out[..n]) {
        return false;
    }
    is_text(rt, b"standard error", said_wanted, &said[..m])
}

fn is_answered(
    rt: &impl Print,
    words: &[u8],
    job: &[u8],
    out_wanted: &[u8],
    said_wanted: &[u8],
) -> bool
    requires { length words.now ≤ 8192 }
{
    let mut out = io::large_buffer();
    let mut said = [0u8; SAID];
    is_printed(rt, words, job, out_wanted, said_wanted, &mut out, &mut said)
}

// What has to be printed and to be said follows in the list.
fn is_told(rt: &impl Print, list: &mut List, case: Case, words: &[u8], job: &[u8]) -> bool
    requires { length words.now ≤ 8192 }
{
    let mut out_wanted = [0u8; 65536];
    let mut said_wanted = [0u8; SAID];
    let n = read_text(list, &mut out_wanted, case.room);
    let m = read_text(list, &mut said_wanted, case.written);
    is_answered(rt, words, job, &out_wanted[..n], &said_wanted[..m])
}

pub fn run(rt: &impl Print, list: &mut List, case: Case) -> Outcome {
    let mut words = [0u8; WORDS];
    let mut job = [0u8; 65536];
    let n = read_text(list, &mut words, case.first);
    let m = read_text(list, &mut job, case.second);
    if n != case.first {
        say::fault(rt, b"there are no whole words");
        return Outcome::Wrong;
    }
    if m != case.second {
        say::fault(rt, b"there is no whole job");
        return Outcome::Wrong;
    }
    Outcome::Right.if_right(is_told(rt, list, case, &words[..n], &job[..m]))
}
