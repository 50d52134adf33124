// The value sheet: lines of variables, cells and function values, read from bytes into a lent table, and looked
// up there.

#![tactic(auto)]

ghost use Rattle.std.specs.Prelude.{◌≡◌, ◌≤◌, length};
ghost use Rattle.memory.specs.Layout.{table_words};
ghost use Rattle.sheet.specs.Rows.{value_of, cell_value, function_row, sheet};
ghost use Rattle.sheet.specs.Table.{rows_of, Held, seen, held_by, seen_found, seen_found_row, FewRows, number_at};

use complex::Complex;
use complex::bits::from_bits;
use expression::refusal::{Operation, Refusal};
use lines::take_line;
use memory::halving::search;
use memory::layout::{CELLS_FROM, FUNCTIONS_FROM};
use memory::read;
use search::{find_row, words_of};

mod fields;
mod index;
mod layout;
mod lines;
mod search;

// How many rows of each kind the table holds.
#[derive(Clone, Copy)]
pub struct Counts {
    pub variables: usize,
    pub cells: usize,
    pub functions: usize,
}

// The rows that an operation used, by their numbers: up to two.
#[derive(Clone, Copy)]
pub struct Used {
    pub first: Option<usize>,
    pub second: Option<usize>,
}

// A whole sheet, up to its first line that is refused.
pub fn read_sheet(text: &[u8], table: &mut [u64]) -> Result<Counts, Refusal>
    requires { table_words ≤ length table.old }
    ensures { (seen table.new result ≡ sheet text.now) × held_by table.new result }
{
    let mut rest = text;
    let mut counts = Counts {
        variables: 0,
        cells: 0,
        functions: 0,
    };
    while let Some((&first, after)) = rest.split_first() {
        (counts, rest) = take_line(first, after, table, counts)?;
    }
    Ok(counts)
}

// The number that is stored from a place on.
fn number_at(table: &[u64], at: usize) -> Complex
    requires { at ≤ table_words }
    ensures { result ≡ number_at table.now at }
{
    Complex {
        re: from_bits(read(table, at)),
        im: from_bits(read(table, at + 1)),
    }
}

pub fn variable(table: &[u64], counts: Counts, number: u16) -> Option<Complex>
    ensures { Held table.now counts → seen_found result ≡ value_of number (rows_of table.now counts).variables }
{
    let j = search(table, 0, 3, counts.variables, number as u64)?;
    Some(number_at(table, 3 * j + 1))
}

// A cell's value has imaginary part 0.
pub fn cell(table: &[u64], counts: Counts, region: u16, index: u32) -> Option<Complex>
    ensures { Held table.now counts → seen_found result ≡ cell_value region index (rows_of table.now counts).cells }
{
    let key = region as u64 * 4294967296 + index as u64;
    let j = search(table, CELLS_FROM, 2, counts.cells, key)?;
    Some(Complex {
        re: from_bits(read(table, 2 * j + CELLS_FROM + 1)),
        im: from_bits(0),
    })
}

// "The look-up of a function value shall hand back the row's number as well": from 0, among the t rows.
pub fn function_row(
    table: &[u64],
    counts: Counts,
    operation: Operation,
    x: Complex,
    y: Complex,
) -> Option<(usize, Complex)>
    ensures { (Held table.now counts → seen_found_row result ≡ function_row operation x y (rows_of table.now counts).functions) × FewRows result }
{
    let count = counts.functions;
    let j = find_row(table, count, u64::from(operation), words_of(x), words_of(y))?;
    Some((j, number_at(table, 7 * j + FUNCTIONS_FROM + 5)))
}
