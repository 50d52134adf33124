// Which sentence is said on standard error of a job that has no answer. The sentences are the lines of a table, in which %
// stands for a first number and & for a second. Lines and steps count from 1 in them.

#![tactic(auto)]

ghost use Rattle.std.specs.Prelude.{◌≡◌, ◌+◌, ◌*◌, ◌≤◌, length, drop};
ghost use Rattle.io.specs.Counts.{IsPrefixLen};
ghost use Rattle.expression.specs.Refusals.{number_of, carries};
ghost use Rattle.text.specs.Put.{Put};
ghost use Rattle.sentences.specs.Sentences.{from_one, sentence, calls_sentence, too_long_sentence};
ghost use Rattle.sentences.specs.Table.{piece, filled, need_line, placed_line, fault_line, plain_line, fault_code, missing_entry, entry, calls_entry, says};

use expression::refusal::{Operation, Refusal};
use faults::{Fault, line_start};
use lacks::Missing;
use text::writing::{write_byte, write_decimal};

const LF: u8 = b'\n';

// What is known of a refusal beside its number and its place.
#[derive(Clone, Copy)]
pub enum Detail {
    Plain,
    Fault(Fault),
    Missing(Option<Missing>),
    Sheet,
}

// A line of the table, and its numbers.
#[derive(Clone, Copy)]
struct Entry {
    line: u64,
    first: u64,
    second: u64,
}

// A place from 1; the last number of 64 bits has none after it.
fn from_one(place: u64) -> u64
    ensures { result ≡ from_one place }
{
    place.saturating_add(1)
}

// Of 2 and 15 the place 0 has a sentence of its own.
fn placed_line(number: u64, place: u64) -> u64
    ensures { result ≡ placed_line number place }
{
    match (number, place) {
        (2, 0) => 42,
        (15, 0) => 43,
        _ => number,
    }
}

fn need_line(operation: Operation) -> u64
    ensures { result ≡ need_line operation }
{
    match operation {
        Operation::Sine => 37,
        Operation::Cosine => 38,
        Operation::Exponent => 39,
        Operation::SquareRoot => 40,
        Operation::Power => 41,
    }
}

fn plain_line(why: Refusal) -> u64
    ensures { result ≡ plain_line (number_of why) (carries why) }
{
    let Refusal::Need(operation, _, _) = why else {
        return placed_line(why.number(), why.place());
    };
    need_line(operation)
}

fn fault_code(fault: Fault) -> u64
    ensures { (result ≡ fault_code fault) × (result ≤ 6) }
{
    match fault {
        Fault::WrongByte => 0,
        Fault::FieldMissing => 1,
        Fault::HexCase => 2,
        Fault::CarriageReturn => 3,
        Fault::Order => 4,
        Fault::NoLineFeed => 5,
        Fault::NoLine => 6,
    }
}

fn fault_line(number: u64, fault: Fault) -> u64
    ensures { result ≡ fault_line number fault }
{
    let first = if number == 1 { 21 } else { 28 };
    first + fault_code(fault)
}

fn missing_entry(missing: Option<Missing>) -> Entry
    ensures { result ≡ missing_entry missing }
{
    match missing {
        None => Entry {
            line: 10,
            first: 0,
            second: 0,
        },
        Some(Missing::Variable(v)) => Entry {
            line: 35,
            first: v as u64,
            second: 0,
        },
        Some(Missing::Cell(region, index)) => Entry {
            line: 36,
            first: region as u64,
            second: index as u64,
        },
    }
}

fn entry_of(why: Refusal, detail: Detail) -> Entry
    ensures { result ≡ entry why detail }
{
    match detail {
        Detail::Plain => Entry {
            line: plain_line(why),
            first: from_one(why.place()),
            second: 0,
        },
        Detail::Fault(fault) => Entry {
            line: fault_line(why.number(), fault),
            first: from_one(why.place()),
            second: 0,
        },
        Detail::Missing(missing) => missing_entry(missing),
        Detail::Sheet => Entry {
            line: 46,
            first: from_one(why.place()),
            second: 0,
        },
    }
}

// A byte of a line, or the number that it stands for.
fn write_piece(out: &mut [u8], at: usize, b: u8, first: u64, second: u64) -> usize
    requires { at + 20 ≤ length out.old }
    ensures { Put out.old at (piece first second b) result out.new × (result ≤ at + 20) }
{
    match b {
        b'%' => write_decimal(out, at, first),
        b'&' => write_decimal(out, at, second),
        _ => write_byte(out, at, b),
    }
}

// The line of a table that begins at a place, to its end.
fn write_line(out: &mut [u8], table: &[u8], from: usize, first: u64, second: u64) -> usize
    requires { 20 * length table.now ≤ length out.old }
    ensures put { Put out.old 0 (filled first second (drop from table.now)) result out.new }
    ensures within { IsPrefixLen result out.new }
{
    let mut at: usize = 0;
    // By places, since `from` may be past the end: the definition then fills nothing.
    for i in from..table.len() {
        at = write_piece(out, at, table[i], first, second);
        if table[i] == LF {
            return at;
        }
    }
    at
}

// What a row of the table says.
fn write_entry(out: &mut [u8], entry: Entry) -> usize
    requires { 81920 ≤ length out.old }
    ensures put { Put out.old 0 (says entry) result out.new }
    ensures within { IsPrefixLen result out.new }
{
    let table = b"The input is too long: it may have 262,144 bytes.\n\
The listing's line % is malformed.\n\
The listing's line % is one too many: a listing has at most 1024 node lines and 256 s lines.\n\
The sheet's line %, counted after the empty line, is malformed.\n\
The sheet's line %, counted after the empty line, is one too many: a sheet has at most 256 v lines, 1024 m lines and 256 t lines.\n\
The limit is above 10.\n\
The expression is too big: a part of it has a size above 1,000,000.\n\
The expression is too deep: a part of it has a depth above 64.\n\
The store is full: the job makes more nodes than it has room for.\n\
The sheet lacks a function value.\n\
The sheet does not bind every variable and memory cell that the expression has.\n\
The number is not real: its imaginary part is not below 1e-16 in magnitude.\n\
The expression is neither a number nor pi.\n\
The output has too little room for the result.\n\
The expression is too long for a tape: its size is above 512.\n\
The tape's step % is missing, malformed or unsound.\n\
The name sheet's line % is malformed, repeats a name or a number, or is not ended by a line feed.\n\
Line % has a name without a number in the name sheet, or a number without a name.\n\
There is no such rule book.\n\
There are more than 4096 listings.\n\
A number is not written as Quil text: it is NaN, infinite, nonzero and below 1e-4, or not below 1e15.\n\
The listing's line % has a byte, a name or a number that does not belong there.\n\
The listing's line % lacks a field, or has one that is cut short.\n\
The listing's line % has a hex digit in lower case: a double is 16 digits from 0 to 9 and A to F.\n\
The listing's line % has a carriage return: a line ends in a line feed alone.\n\
The listing's line % is out of order: it names a line that does not come before it, or s lines, which only substitute takes, are not last and ascending.\n\
The listing's line % is not ended by a line feed.\n\
The listing has no node line.\n\
The sheet's line %, counted after the empty line, has a byte, a name or a number that does not belong there.\n\
The sheet's line %, counted after the empty line, lacks a field, or has one that is cut short.\n\
The sheet's line %, counted after the empty line, has a hex digit in lower case: a double is 16 digits from 0 to 9 and A to F.\n\
The sheet's line %, counted after the empty line, has a carriage return: a line ends in a line feed alone.\n\
The sheet's line %, counted after the empty line, is out of order: v lines come first, then m lines, then t lines; v and m lines ascend.\n\
The sheet's line %, counted after the empty line, is not ended by a line feed.\n\
The sheet's line %, counted after the empty line, is missing.\n\
The sheet does not bind variable %.\n\
The sheet does not bind the memory cell of region % and index &.\n\
The sheet has no row for sin of the operands printed: add a t row with this name, the four fields and the value.\n\
The sheet has no row for cos of the operands printed: add a t row with this name, the four fields and the value.\n\
The sheet has no row for exp of the operands printed: add a t row with this name, the four fields and the value.\n\
The sheet has no row for sqrt of the operands printed: add a t row with this name, the four fields and the value.\n\
The sheet has no row for pow of the operands printed: add a t row with this name, the four fields and the value.\n\
The result has more than 1024 lines.\n\
The tape's step 1 is missing, malformed or unsound, or there are more than 512 steps.\n\
The expression was simplified in % calls.\n\
The expression was simplified in 1 call.\n\
The listing's line % is empty: this command takes no sheet of values.\n\
";
    let from = line_start(table, entry.line);
    write_line(out, table, from, entry.first, entry.second)
}

// Why a job has no answer.
pub fn write_sentence(out: &mut [u8], why: Refusal, detail: Detail) -> usize
    requires { 81920 ≤ length out.old }
    ensures put { Put out.old 0 (sentence why detail) result out.new }
    ensures within { IsPrefixLen result out.new }
{
    write_entry(out, entry_of(why, detail))
}

fn calls_entry(calls: u64) -> Entry
    ensures { result ≡ calls_entry calls }
{
    let line = if calls == 1 { 45 } else { 44 };
    Entry {
        line,
        first: calls,
        second: 0,
    }
}

// How many simplify calls a result took.
pub fn write_calls(out: &mut [u8], calls: u64) -> usize
    requires { 81920 ≤ length out.old }
    ensures put { Put out.old 0 (calls_sentence calls) result out.new }
    ensures within { IsPrefixLen result out.new }
{
    write_entry(out, calls_entry(calls))
}

// An input that is longer than a job may be.
pub fn write_too_long(out: &mut [u8]) -> usize
    requires { 81920 ≤ length out.old }
    ensures put { Put out.old 0 too_long_sentence result out.new }
    ensures within { IsPrefixLen result out.new }
{
    write_entry(
        out,
        Entry {
            line: 0,
            first: 0,
            second: 0,
        },
    )
}
