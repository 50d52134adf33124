// Rows in the table: how one is added after the last of its kind, and whether it may be.
// Doubles are stored with one pattern for every NaN, so that operands are compared as words.
ghost use Rattle.std.specs.Prelude.{◌≡◌, ◌<◌, ◌≤◌, length};
ghost use Rattle.memory.specs.Layout.{table_words};
ghost use Rattle.complex.specs.Bits.{bits_of, double_of};
ghost use Rattle.sheet.specs.Table.{Held, canonical_words, with_number, with_variable, with_cell, with_row, Entered, variable_may, cell_may};

use super::Counts;
use super::fields::Words;
use super::index::{bucket_of, head_of, linked, put_head, word_at};
use super::search::walk;
use complex::bits::{from_bits, to_bits};
use memory::layout::{CELLS_FROM, FUNCTIONS_FROM};
use memory::{put, read};

fn canonical(word: u64) -> u64
    ensures { result ≡ bits_of (double_of word) }
{
    to_bits(from_bits(word))
}

fn put_number(table: &mut [u64], at: usize, words: Words)
    requires { at ≤ table_words }
    ensures { table.new ≡ with_number table.old at words }
{
    put(table, at, canonical(words.re));
    put(table, at + 1, canonical(words.im));
}

pub fn put_variable(table: &mut [u64], count: usize, number: u64, value: Words)
    requires { count < 256 }
    ensures { table.new ≡ with_variable table.old count number value }
{
    let at = 3 * count;
    put(table, at, number);
    put_number(table, at + 1, value);
}

// A pair of region and index as one number, so that pairs ascend as numbers do.
pub fn put_cell(table: &mut [u64], count: usize, key: u64, real: u64)
    requires { count < 1024 }
    ensures { table.new ≡ with_cell table.old count key real }
{
    let at = 2 * count + CELLS_FROM;
    put(table, at, key);
    put(table, at + 1, canonical(real));
}

// The words of a row, the first of them as it is.
fn write_row(table: &mut [u64], count: usize, word: u64, x: Words, y: Words, value: Words)
    requires { count < 256 }
    ensures { table.new ≡ with_row table.old count word x y value }
{
    let at = 7 * count + FUNCTIONS_FROM;
    put(table, at, word);
    put_number(table, at + 1, x);
    put_number(table, at + 3, y);
    put_number(table, at + 5, value);
}

fn canonical_words(words: Words) -> Words
    ensures { result ≡ canonical_words words }
{
    Words {
        re: canonical(words.re),
        im: canonical(words.im),
    }
}

// A row more. It becomes the head of its chain, unless a row with its name and operands stands: then that one counts, as the first.
pub fn put_row(table: &mut [u64], count: usize, name: u64, x: Words, y: Words, value: Words)
    requires { (count < 256) × (table_words ≤ length table.old) × (0 < name) × (name < 6) }
    ensures { Entered table.old table.new count name x y value }
{
    let first = canonical_words(x);
    let second = canonical_words(y);
    let bucket = bucket_of(name, first, second);
    let head = head_of(table, count, bucket);
    let stands = walk(table, count, head, name, first, second);
    let word = linked(word_at(table, count), name, head, bucket);
    write_row(table, count, word, x, y, value);
    if stands.is_none() {
        put_head(table, bucket, count);
    }
}

// Variables stand before all other lines, each above the last.
pub fn variable_may(table: &[u64], counts: Counts, number: u64) -> bool
    requires { Held table.now counts }
    ensures { result ≡ variable_may table.now counts number }
{
    let count = counts.variables;
    if 0 < counts.cells {
        return false;
    }
    if 0 < counts.functions {
        return false;
    }
    if count == 0 {
        return true;
    }
    read(table, 3 * (count - 1)) < number
}

// Cells stand before the function values, each pair above the last.
pub fn cell_may(table: &[u64], counts: Counts, key: u64) -> bool
    requires { Held table.now counts }
    ensures { result ≡ cell_may table.now counts key }
{
    let count = counts.cells;
    if 0 < counts.functions {
        return false;
    }
    if count == 0 {
        return true;
    }
    read(table, 2 * (count - 1) + CELLS_FROM) < key
}
