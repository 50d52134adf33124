// Lent memory: words that are read and written at any place and sought by halving, marks that are set, and where things stand in what a
// call lends.

#![tactic(auto)]

ghost use Rattle.std.specs.Prelude.{◌≡◌, get_or, set};
ghost use Rattle.memory.specs.Layout.{numbered};
ghost use Rattle.memory.specs.Marks.{noted};

pub mod halving;
pub mod layout;

// The number at i; past the end 0.
pub fn read(s: &[u64], i: usize) -> u64
    ensures { result ≡ get_or s.now i 0 }
{
    if i < s.len() { s[i] } else { 0 }
}

// The number at i becomes v; past the end nothing does.
pub fn put(s: &mut [u64], i: usize, v: u64)
    ensures { s.new ≡ set s.old i v }
{
    if i < s.len() {
        s[i] = v;
    }
}

// The mark of a row that was used, if one was; past the end there is no mark.
pub fn mark(marks: &mut [u8], row: Option<usize>)
    ensures { marks.new ≡ noted (numbered row) marks.old }
{
    let Some(j) = row else {
        return;
    };
    if j < marks.len() {
        marks[j] = 1;
    }
}
