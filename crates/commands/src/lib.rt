// The commands of rack, on slices: what is printed on standard output and said on standard error for all words of the
// command line and every input.

#![tactic(auto)]

ghost use Rattle.std.specs.Prelude.{◌≡◌, ◌+◌, ◌≤◌, length};
ghost use Rattle.memory.specs.Marks.{no_marks};
ghost use Rattle.commands.specs.Printing.{Answers};
ghost use Rattle.commands.specs.Coming.{PrintsJob};

use help::{write_help, write_too_many, write_unknown, write_usage, write_version};
use memory::layout::MARKS;
use outcomes::{print_marked, say_traced};
use running::run;
use words::{Asked, Command, first_length, read_words, shows, traces};

mod details;
mod help;
mod jobs;
mod running;
mod tapes;
pub mod words;

// How many bytes of the two outputs are to be written.
#[derive(Clone, Copy)]
pub struct Printed {
    pub out: usize,
    pub said: usize,
}

// No t row is marked.
fn no_marks() -> [u8; MARKS]
    ensures { result ≡ no_marks }
{
    [0; MARKS]
}

// What is said goes by the listing, behind which the marks are printed: so it comes first.
fn run_job(command: Command, input: &[u8], out: &mut [u8], said: &mut [u8]) -> Printed
    requires { (65536 ≤ length out.old) × (139280 ≤ length said.old) }
    ensures { PrintsJob command input.now out.old result out.new said.new }
{
    let mut marks = no_marks();
    let outcome = run(command, input, out, &mut marks);
    let m = say_traced(said, out, outcome, marks, traces(command));
    let n = print_marked(out, outcome, marks, shows(command));
    Printed { out: n, said: m }
}

// The words of the command line, each ended by a line feed; the input, which a command reads; and the two outputs.
pub fn answer(words: &[u8], input: &[u8], out: &mut [u8], said: &mut [u8]) -> Printed
    requires { (65536 ≤ length out.old) × (length words.now + 139280 ≤ length said.old) }
    ensures { Answers words.now input.now out.old result out.new said.new }
{
    let asked = read_words(words);
    match asked {
        Asked::Job(command, _) => run_job(command, input, out, said),
        Asked::Help => Printed {
            out: write_help(out),
            said: 0,
        },
        Asked::Version => Printed {
            out: write_version(out),
            said: 0,
        },
        Asked::Nothing => Printed {
            out: 0,
            said: write_usage(said),
        },
        Asked::Unknown => {
            let n = first_length(words);
            Printed {
                out: 0,
                said: write_unknown(said, &words[..n]),
            }
        }
        Asked::TooMany => Printed {
            out: 0,
            said: write_too_many(said),
        },
    }
}
