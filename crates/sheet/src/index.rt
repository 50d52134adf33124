// The index of the function values: chains of rows by a hash of name and operands, newest first. It stands in the first words of the
// rows. That of row j has the number of the row's name (3 bits), the next row of its chain (9), the bucket that is its home (8), and above
// these the head of bucket j. Heads and nexts are numbers of rows plus one, so that 0 says none.
ghost use Rattle.std.specs.Prelude.{◌≡◌, ◌+◌, ◌*◌, ◌%◌, ◌<◌, ◌≤◌, min, set};
ghost use Rattle.memory.specs.Layout.{functions_from};
ghost use Rattle.sheet.specs.Index.{word_at, next_in, link_of, bucket_of, head_for};
ghost use Rattle.sheet.specs.Index as Index;

use super::fields::Words;
use memory::layout::FUNCTIONS_FROM;
use memory::{put, read};

// A word more in a hash: a product of the word's halves, each moved on, so that none of them makes it vanish; its own upper half is added
// to the lower. The hash moves the one half, so that each word is spread by those before it.
fn spread(hash: u64, word: u64, by: u64) -> u64
    requires { (hash < 8589934592) × (by < 4294967296) }
    ensures { (result ≡ Index.spread hash word by) × (result < 8589934592) }
{
    let low = (word % 4294967296 + hash) % 4294967296 + 1;
    let high = (word / 4294967296 + by) % 2147483648 + 2147483648;
    let product = low * high;
    product / 4294967296 + product % 4294967296
}

// The bucket of a name and operands, one of 256. The numbers only spread them.
pub fn bucket_of(name: u64, x: Words, y: Words) -> usize
    ensures { (result ≡ bucket_of name x y) × (result < 256) }
{
    let first = spread(name % 8 * 668265263, x.re, 1779033703);
    let second = spread(first, x.im, 1013904243);
    let third = spread(second, y.re, 1359893119);
    let hash = spread(third, y.im, 528734635);
    (hash % 4294967296 * 2246822519 % 4294967296 / 16777216) as usize
}

pub fn word_at(table: &[u64], j: usize) -> u64
    requires { j < 256 }
    ensures { result ≡ word_at table.now j }
{
    read(table, 7 * j + FUNCTIONS_FROM)
}

// The head of a bucket, of so many rows. Where no row was entered the word may hold anything: a number counts if it is a row's whose
// home is this bucket. So nothing is cleared before the first row.
pub fn head_of(table: &[u64], count: usize, bucket: usize) -> Option<usize>
    requires { (count ≤ 256) × (bucket < 256) }
    ensures { link_of result ≡ head_for table.now count bucket }
{
    let head = (word_at(table, bucket) / 1048576) as usize;
    let j = head.checked_sub(1)?;
    if count <= j {
        return None;
    }
    if word_at(table, j) / 4096 % 256 == bucket as u64 {
        Some(j)
    } else {
        None
    }
}

// What follows row j in its chain: in any memory an older row, or none.
pub fn next_of(table: &[u64], j: usize) -> Option<usize>
    requires { j < 256 }
    ensures { link_of result ≡ min (next_in (word_at table.now j)) j }
{
    let next = (word_at(table, j) / 8 % 512) as usize;
    next.min(j).checked_sub(1)
}

// A row as a word has it, in nine bits.
fn link_of(row: Option<usize>) -> u64
    ensures { result ≡ link_of row % 512 }
{
    match row {
        Some(j) => (j as u64 % 512 + 1) % 512,
        None => 0,
    }
}

// The first word of a new row; the head in it stays.
pub fn linked(word: u64, name: u64, next: Option<usize>, home: usize) -> u64
    ensures { result ≡ Index.linked word name (link_of next) home }
{
    name % 8 + 8 * link_of(next) + 4096 * (home as u64 % 256) + 1048576 * (word / 1048576)
}

// A row becomes the head of a bucket.
pub fn put_head(table: &mut [u64], bucket: usize, row: usize)
    requires { bucket < 256 }
    ensures { table.new ≡ set table.old (7 * bucket + functions_from) (Index.headed (word_at table.old bucket) (row + 1)) }
{
    let word = word_at(table, bucket);
    put(
        table,
        7 * bucket + FUNCTIONS_FROM,
        word % 1048576 + 1048576 * link_of(Some(row)),
    );
}
