// What comes of a case, and how many tapes there were.
ghost use Rattle.std.specs.Prelude.{◌≡◌, cond};
ghost use Rattle.call_cases.specs.declared.outcome.Outcome.{Outcome as Judged};
ghost use Rattle.call_cases.specs.Judging.{rightly};

use replay::lists::MOST;
use replay::say::{decimal, word};

// Wrong, or right: of an evaluation it says whether the listing was compiled and its tape played, was too long for a
// tape, or was refused before.
#[derive(Clone, Copy)]
pub enum Outcome {
    Wrong,
    Right,
    Played,
    Long,
    Refused,
}

impl Outcome {
    pub fn is_right(self) -> bool
        ensures { result ≡ rightly self }
    {
        !matches!(self, Outcome::Wrong)
    }

    // This one if all is right.
    pub fn if_right(self, is_right: bool) -> Self
        ensures { result ≡ cond is_right self Judged.Wrong }
    {
        if is_right { self } else { Outcome::Wrong }
    }
}

#[derive(Clone, Copy)]
pub struct Tapes {
    pub played: u64,
    pub long: u64,
    pub refused: u64,
}

// One more, up to more cases than any list has.
fn more(n: u64) -> u64 {
    n.saturating_add(1).min(MOST)
}

impl Tapes {
    pub fn none() -> Self {
        Self {
            played: 0,
            long: 0,
            refused: 0,
        }
    }

    pub fn with(self, outcome: Outcome) -> Self {
        let mut tapes = self;
        match outcome {
            Outcome::Played => tapes.played = more(self.played),
            Outcome::Long => tapes.long = more(self.long),
            Outcome::Refused => tapes.refused = more(self.refused),
            _ => (),
        }
        tapes
    }

    // Says how many there were of each, if any was played.
    pub fn end(self, rt: &impl Print) {
        if self.played == 0 {
            return;
        }
        decimal(rt, self.played);
        word(rt, b" compiled and played, ");
        decimal(rt, self.long);
        word(rt, b" too long for a tape, ");
        decimal(rt, self.refused);
        word(rt, b" refused\n");
    }
}
