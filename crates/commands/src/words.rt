// What the words of the command line ask for. A word is a line here, so that each has an end.
ghost use Rattle.std.specs.Prelude.{◌≡◌, take};
ghost use Rattle.io.specs.Counts.{IsPrefixLen};
ghost use Rattle.commands.specs.Words.{tape_word, job_word, first_word, first_of, parted_shows, shows, whole_traces, parted_traces, traces};
ghost use Rattle.commands.specs.Asking.{Asks, FoundAt, AsksSimplifying, AsksAtLimit, AsksFile, AsksAll};

use console::tape::next_line;
use text::reading::{decimal_field, word_at};

const LF: u8 = b'\n';

// The limit of `simplify` where none is given.
const LIMIT: u64 = 10;

// A limit is a number below this one.
const LIMITS: u64 = 4_294_967_296;

// The commands whose input is one text; the first by whether origins are asked for.
#[derive(Clone, Copy)]
pub enum Whole {
    Substitute(bool),
    Real,
    Compile,
    Show,
    Check,
}

// Those whose input parts at the first empty line; three of them by whether the marks are asked for, and simplify by its limit
// and by whether origins are asked for besides.
#[derive(Clone, Copy)]
pub enum Parted {
    Evaluate(bool),
    Simplify(u64, bool, bool),
    Played,
    Play(bool),
}

#[derive(Clone, Copy)]
pub enum Command {
    Whole(Whole),
    Parted(Parted),
}

// A command, and where the words after it begin; or what else is asked.
#[derive(Clone, Copy)]
pub enum Asked {
    Job(Command, usize),
    Help,
    Version,
    Nothing,
    Unknown,
    TooMany,
}

// Where the words after a word begin, if it stands at a place.
fn find_at(words: &[u8], at: usize, word: &[u8]) -> Option<usize>
    ensures { FoundAt words.now at word.now result }
{
    if word_at(words, at, word) {
        return Some(at + word.len());
    }
    None
}

// "simplify" at a limit, and what follows on that.
fn simplify_at(words: &[u8], at: usize, limit: u64) -> Asked
    ensures { AsksSimplifying words.now at limit result }
{
    let marks = find_at(words, at, b"marks\n");
    let next = marks.unwrap_or(at);
    let origins = find_at(words, next, b"origins\n");
    Asked::Job(
        Command::Parted(Parted::Simplify(limit, marks.is_some(), origins.is_some())),
        origins.unwrap_or(next),
    )
}

// "simplify" and, if one follows, its limit.
fn at_limit(words: &[u8], at: usize) -> Asked
    ensures { AsksAtLimit words.now at result }
{
    match decimal_field(&words[at.min(words.len())..], LF, LIMITS) {
        Some((limit, rest)) => simplify_at(words, words.len() - rest.len(), limit),
        None => simplify_at(words, at, LIMIT),
    }
}

fn tape_word(words: &[u8]) -> Asked
    ensures { Asks tape_word words.now result }
{
    if word_at(words, 0, b"compile\n") {
        return Asked::Job(Command::Whole(Whole::Compile), 8);
    }
    if word_at(words, 0, b"play\n") {
        let marks = find_at(words, 5, b"marks\n");
        return Asked::Job(
            Command::Parted(Parted::Play(marks.is_some())),
            marks.unwrap_or(5),
        );
    }
    if word_at(words, 0, b"show\n") {
        return Asked::Job(Command::Whole(Whole::Show), 5);
    }
    if word_at(words, 0, b"check\n") {
        return Asked::Job(Command::Whole(Whole::Check), 6);
    }
    Asked::Unknown
}

fn job_word(words: &[u8]) -> Asked
    ensures { Asks job_word words.now result }
{
    if word_at(words, 0, b"evaluate\n") {
        let marks = find_at(words, 9, b"marks\n");
        return Asked::Job(
            Command::Parted(Parted::Evaluate(marks.is_some())),
            marks.unwrap_or(9),
        );
    }
    if word_at(words, 0, b"substitute\n") {
        let origins = find_at(words, 11, b"origins\n");
        return Asked::Job(
            Command::Whole(Whole::Substitute(origins.is_some())),
            origins.unwrap_or(11),
        );
    }
    if word_at(words, 0, b"real\n") {
        return Asked::Job(Command::Whole(Whole::Real), 5);
    }
    if word_at(words, 0, b"simplify\n") {
        return at_limit(words, 9);
    }
    if word_at(words, 0, b"played\n") {
        return Asked::Job(Command::Parted(Parted::Played), 7);
    }
    tape_word(words)
}

fn first_word(words: &[u8]) -> Asked
    ensures { Asks first_word words.now result }
{
    if words.len() == 0 {
        return Asked::Nothing;
    }
    if word_at(words, 0, b"help\n") {
        return Asked::Help;
    }
    if word_at(words, 0, b"--help\n") {
        return Asked::Help;
    }
    if word_at(words, 0, b"--version\n") {
        return Asked::Version;
    }
    job_word(words)
}

// At most one word follows on a command: the name of a file.
fn with_file(words: &[u8], command: Command, at: usize) -> Asked
    ensures { AsksFile words.now command at result }
{
    if words.len() <= at {
        return Asked::Job(command, words.len());
    }
    if !next_line(&words[at..]).is_empty() {
        return Asked::TooMany;
    }
    Asked::Job(command, at)
}

pub fn read_words(words: &[u8]) -> Asked
    ensures { AsksAll words.now result }
{
    let first = first_word(words);
    match first {
        Asked::Job(command, at) => with_file(words, command, at),
        Asked::Help => Asked::Help,
        Asked::Version => Asked::Version,
        Asked::Nothing => Asked::Nothing,
        Asked::Unknown => Asked::Unknown,
        Asked::TooMany => Asked::TooMany,
    }
}

// How long the first word is.
pub fn first_length(words: &[u8]) -> usize
    ensures words_value { take result words.now ≡ first_of words.now }
    ensures within { IsPrefixLen result words.now }
{
    for (i, &b) in words.iter().enumerate() {
        if b == LF {
            return i;
        }
    }
    words.len()
}

fn parted_shows(command: Parted) -> bool
    ensures { result ≡ parted_shows command }
{
    match command {
        Parted::Evaluate(shown) => shown,
        Parted::Simplify(_, shown, _) => shown,
        Parted::Played => false,
        Parted::Play(shown) => shown,
    }
}

// Whether the marks are asked for.
pub fn shows(command: Command) -> bool
    ensures { result ≡ shows command }
{
    match command {
        Command::Whole(_) => false,
        Command::Parted(parted) => parted_shows(parted),
    }
}

fn whole_traces(command: Whole) -> bool
    ensures { result ≡ whole_traces command }
{
    match command {
        Whole::Substitute(traced) => traced,
        Whole::Real => false,
        Whole::Compile => false,
        Whole::Show => false,
        Whole::Check => false,
    }
}

fn parted_traces(command: Parted) -> bool
    ensures { result ≡ parted_traces command }
{
    match command {
        Parted::Evaluate(_) => false,
        Parted::Simplify(_, _, traced) => traced,
        Parted::Played => false,
        Parted::Play(_) => false,
    }
}

// Whether origins are asked for.
pub fn traces(command: Command) -> bool
    ensures { result ≡ traces command }
{
    match command {
        Command::Whole(whole) => whole_traces(whole),
        Command::Parted(parted) => parted_traces(parted),
    }
}
