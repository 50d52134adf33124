// The refusals by name, those of 01's table and the five that the change requests add to it, each with its number and what
// it carries.
ghost use Rattle.std.specs.Prelude.{◌≡◌};
ghost use Rattle.expression.specs.Codes.{operation_code, operation_of};
ghost use Rattle.expression.specs.Refusals.{number_of, place_of, is_lack};

use complex::Complex;

// What a row of the sheet gives a value of: the names sin, cos, exp, sqrt and pow.
#[derive(Clone, Copy, Debug, PartialEq, Eq)]
pub enum Operation {
    Sine,
    Cosine,
    Exponent,
    SquareRoot,
    Power,
}

// No derived equality, as of nodes: Need carries doubles.
#[derive(Clone, Copy)]
pub enum Refusal {
    BadList(u64),
    LongList(u64),
    BadSheet(u64),
    LongSheet(u64),
    BadLimit,
    Big,
    Deep,
    Room,
    Need(Operation, Complex, Complex),
    Incomplete,
    NotReal,
    NotANumber,
    OutRoom,
    LongTape,
    BadTape(u64),
    BadNames(u64),
    UnknownName(u64),
    BadBook,
    Many(u64),
    NoText,
}

impl From<Operation> for u64 {
    ghost from_gives = { λ x n. n ≡ operation_code x };

    fn from(x: Operation) -> u64 {
        match x {
            Operation::Sine => 1,
            Operation::Cosine => 2,
            Operation::Exponent => 3,
            Operation::SquareRoot => 4,
            Operation::Power => 5,
        }
    }
}

impl Operation {
    // The operation with this number, 1 to 5.
    #[tactic(auto, unfolding(crate::specs::Codes::numbered))]
    pub fn from_code(code: u64) -> Self
        ensures { result ≡ operation_of code }
    {
        match code {
            1 => Operation::Sine,
            2 => Operation::Cosine,
            3 => Operation::Exponent,
            4 => Operation::SquareRoot,
            _ => Operation::Power,
        }
    }
}

impl Refusal {
    // Its number in 01 or, from 16 on, in 02.
    pub fn number(self) -> u64
        ensures { result ≡ number_of self }
    {
        match self {
            Refusal::BadList(_) => 1,
            Refusal::LongList(_) => 2,
            Refusal::BadSheet(_) => 3,
            Refusal::LongSheet(_) => 4,
            Refusal::BadLimit => 5,
            Refusal::Big => 6,
            Refusal::Deep => 7,
            Refusal::Room => 8,
            Refusal::Need(_, _, _) => 9,
            Refusal::Incomplete => 10,
            Refusal::NotReal => 11,
            Refusal::NotANumber => 12,
            Refusal::OutRoom => 13,
            Refusal::LongTape => 14,
            Refusal::BadTape(_) => 15,
            Refusal::BadNames(_) => 16,
            Refusal::UnknownName(_) => 17,
            Refusal::BadBook => 18,
            Refusal::Many(_) => 19,
            Refusal::NoText => 20,
        }
    }

    // NEED and INCOMPLETE: the sheet lacks what was looked up in it.
    pub fn is_lack(self) -> bool
        ensures { result ≡ is_lack self }
    {
        matches!(self, Refusal::Need(_, _, _) | Refusal::Incomplete)
    }

    // The line, step or listing that it carries, else 0.
    pub fn place(self) -> u64
        ensures { result ≡ place_of self }
    {
        match self {
            Refusal::BadList(place)
            | Refusal::LongList(place)
            | Refusal::BadSheet(place)
            | Refusal::LongSheet(place)
            | Refusal::BadTape(place)
            | Refusal::BadNames(place)
            | Refusal::UnknownName(place)
            | Refusal::Many(place) => place,
            _ => 0,
        }
    }
}
