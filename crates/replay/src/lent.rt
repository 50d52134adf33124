// The memory that a case lends: whether all of it is zero after a call, and the paper of an output.
ghost use Rattle.std.specs.Prelude.{◌≡◌};
ghost use Rattle.replay.specs.Judges.{clear, written};

use super::say;
use super::slices::{is_all, is_same, is_zero, is_zero_in, part};
use memory::layout::{DESK_WORDS, TABLE_WORDS};

// What the paper of an output has everywhere before something is written there.
pub const BLANK: u8 = 0xa5;

// Whether all that was lent is zero: the first rows, the desk and the table.
pub fn is_clear(
    rows: usize,
    store: &[[u64; 4]; 4096],
    desk: &[u64; DESK_WORDS],
    table: &[u64; TABLE_WORDS],
) -> bool
    ensures { result ≡ clear rows store.now desk.now table.now }
{
    is_zero_in(store, rows) && is_zero(desk) && is_zero(table)
}

// Whether a paper begins with the wanted bytes, and the others are blank.
pub fn is_written(rt: &impl Print, wanted: &[u8], paper: &[u8]) -> bool
    ensures { result ≡ written wanted.now paper.now }
{
    let n = part(paper, wanted.len());
    if !is_same(wanted, &paper[..n]) {
        say::fault(rt, b"the port has written something else");
        return false;
    }
    if !is_all(paper, n, BLANK) {
        say::fault(rt, b"the port has changed bytes beside what it wrote");
        return false;
    }
    true
}
