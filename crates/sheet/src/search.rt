// The first function value for a name and operands: a walk through the chain of their bucket.
ghost use Rattle.std.specs.Prelude.{◌≡◌, ◌<◌, ◌≤◌, IfSome};
ghost use Rattle.memory.specs.Layout.{table_words};
ghost use Rattle.memory.specs.Keys.{FirstOf};
ghost use Rattle.sheet.specs.Index.{link_of, bucket_of, head_for};
ghost use Rattle.sheet.specs.Table.{words_of, pair_matches, row_matches, Indexed};

use super::fields::Words;
use super::index::{bucket_of, head_of, next_of};
use complex::Complex;
use complex::bits::to_bits;
use memory::layout::FUNCTIONS_FROM;
use memory::read;

const MOST_FUNCTIONS: usize = 256;

// So many rows of a chain are walked; in a full sheet chains of more than 6 are rare.
const LONGEST: usize = 8;

pub fn words_of(x: Complex) -> Words
    ensures { result ≡ words_of x }
{
    Words {
        re: to_bits(x.re),
        im: to_bits(x.im),
    }
}

fn pair_at(table: &[u64], at: usize, words: Words) -> bool
    requires { at ≤ table_words }
    ensures { result ≡ pair_matches table.now at words }
{
    if read(table, at) != words.re {
        return false;
    }
    words.im == read(table, at + 1)
}

fn row_matches(table: &[u64], j: usize, name: u64, x: Words, y: Words) -> bool
    requires { j < 256 }
    ensures { result ≡ row_matches table.now name x y j }
{
    let at = 7 * j + FUNCTIONS_FROM;
    if read(table, at) % 8 != name {
        return false;
    }
    if !pair_at(table, at + 1, x) {
        return false;
    }
    pair_at(table, at + 3, y)
}

// Row by row from the first on. No row has to wait for the one before, as in a chain.
fn scan(table: &[u64], count: usize, name: u64, x: Words, y: Words) -> Option<usize>
    requires { count ≤ 256 }
    ensures { FirstOf (row_matches table.now name x y) count result }
{
    (0..count).find(|j| row_matches(table, *j, name, x, y))
}

// From the head of a chain on to the row for this name and these operands. Each step leads to an older row, so the walk ends in any
// memory. A long chain is left: rows that were searched until they fell in one bucket cost no more than a look at all rows.
pub fn walk(
    table: &[u64],
    count: usize,
    head: Option<usize>,
    name: u64,
    x: Words,
    y: Words,
) -> Option<usize>
    requires { (count ≤ 256) × (link_of head ≤ count) }
    ensures within { IfSome result (λ j. j < count) }
    ensures first { Indexed table.now count → link_of head ≡ head_for table.now count (bucket_of name x y) → FirstOf (row_matches table.now name x y) count result }
{
    let mut at = head;
    for _ in 0..LONGEST {
        let j = at?;
        if row_matches(table, j, name, x, y) {
            return Some(j);
        }
        at = next_of(table, j);
    }
    at?;
    scan(table, count, name, x, y)
}

// The first row for this name and these operands.
pub fn find_row(table: &[u64], count: usize, name: u64, x: Words, y: Words) -> Option<usize>
    ensures within { IfSome result (λ j. (j < count) × (j < 256)) }
    ensures first { count ≤ 256 → Indexed table.now count → FirstOf (row_matches table.now name x y) count result }
{
    if MOST_FUNCTIONS < count {
        return None;
    }
    let bucket = bucket_of(name, x, y);
    let head = head_of(table, count, bucket);
    walk(table, count, head, name, x, y)
}
