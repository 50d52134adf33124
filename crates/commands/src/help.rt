// What the help and the version print, and what is said where no command is known.
ghost use Rattle.std.specs.Prelude.{◌+◌, ◌≤◌, ◌++◌, length};
ghost use Rattle.io.specs.Counts.{IsPrefixLen};
ghost use Rattle.text.specs.Put.{Put};
ghost use Rattle.commands.specs.Help.{help, version, usage, too_many, unknown};

use text::writing::write_bytes;

pub fn write_help(out: &mut [u8]) -> usize
    requires { 4096 ≤ length out.old }
    ensures put { Put out.old 0 help result out.new }
    ensures within { IsPrefixLen result out.new }
{
    write_bytes(
        out,
        0,
        b"use: ./run rack COMMAND [LIMIT] [marks] [origins] [FILE], where COMMAND is one of:\n\
\x20 evaluate    reads a listing and, after an empty line, a sheet of values; prints the expression's value\n\
\x20 simplify    reads what evaluate reads; prints the listing simplified at LIMIT, 0 to 10, which is 10 if left out\n\
\x20 played      reads what evaluate reads; simplifies at 10 and prints the value of the result under the same sheet\n\
\x20 substitute  reads a listing with s lines; prints the listing with the variables replaced\n\
\x20 real        reads a listing; prints the real number that its expression is, if it is a number or pi\n\
\x20 compile     reads a listing; prints its expression's tape, a line a step: the step's 24 bytes in hex, in six fields\n\
\x20 play        reads a tape as compile prints it and, after an empty line, a sheet of values; prints what it gives\n\
\x20 check       reads a tape as compile prints it; prints sound, or which step is not\n\
\x20 show        reads a tape as compile prints it; prints its steps in words\n\
\x20 help        prints this, as --help does; --version prints the version\n\
The job is read from FILE or, where none is named, from standard input. docs/FORMATS.md says how a job is written.\n\
Which t rows of the sheet evaluate, simplify and play used is said on standard error, by their numbers from 0; with the\n\
word marks it is also printed, as a last line. A file of that name is written ./marks.\n\
With the word origins, which stands after marks, simplify and substitute also print where each line came from, as its last\n\
field: @ and the number of a line of the job, or @- for none. Which line of the job stands where in the result is then said\n\
on standard error. Both count from 0. A file of that name is written ./origins.\n\
A job that has no answer prints incomplete, or need and the function value that is lacking, or refused, the\n\
refusal's number and the place: a line or a step counted from 0. The sentence on standard error counts from 1.\n\
Example, half of pi: printf 'p\\nn\\t4000000000000000\\t0000000000000000\\nb\\t/\\t0\\t1\\n' | ./run rack evaluate\n\
",
    )
}

pub fn write_version(out: &mut [u8]) -> usize
    requires { 4096 ≤ length out.old }
    ensures put { Put out.old 0 version result out.new }
    ensures within { IsPrefixLen result out.new }
{
    write_bytes(out, 0, b"rack 2.2.0\n")
}

pub fn write_usage(out: &mut [u8]) -> usize
    requires { 4096 ≤ length out.old }
    ensures put { Put out.old 0 usage result out.new }
    ensures within { IsPrefixLen result out.new }
{
    write_bytes(
        out,
        0,
        b"use: ./run rack COMMAND [LIMIT] [marks] [origins] [FILE]; ./run rack help names the commands.\n",
    )
}

pub fn write_too_many(out: &mut [u8]) -> usize
    requires { 4096 ≤ length out.old }
    ensures put { Put out.old 0 too_many result out.new }
    ensures within { IsPrefixLen result out.new }
{
    write_bytes(
        out,
        0,
        b"There are too many words: at most a file follows on a command, before it origins on simplify and substitute, before that marks on evaluate, simplify and play, and before that on simplify a limit.\n",
    )
}

// The word is named.
pub fn write_unknown(out: &mut [u8], word: &[u8]) -> usize
    requires { length word.now + 4096 ≤ length out.old }
    ensures put { Put out.old 0 (unknown word.now) result out.new }
    ensures within { IsPrefixLen result out.new }
{
    let p = write_bytes(out, 0, b"rack has no command ");
    let q = write_bytes(out, p, word);
    write_bytes(out, q, b"; ./run rack help names the commands.\n")
}
