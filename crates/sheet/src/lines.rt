// One line of the sheet: its count, then its form and order, then its row into the table.
ghost use Rattle.std.specs.Prelude.{◌≡◌, ◌≤◌, length};
ghost use Rattle.memory.specs.Layout.{table_words};
ghost use Rattle.sheet.specs.Rows.{sheet_line, variable_line, cell_line, function_line};
ghost use Rattle.sheet.specs.Table.{rows_of, line_of, Held, Takes};

use super::Counts;
use super::fields::{read_cell, read_row, read_variable};
use super::layout::{cell_may, put_cell, put_row, put_variable, variable_may};
use expression::refusal::Refusal;

// 01's counts.
const MOST_VARIABLES: usize = 256;

const MOST_CELLS: usize = 1024;

const MOST_FUNCTIONS: usize = 256;

fn line_number(counts: Counts) -> u64
    requires { line_of counts ≤ 1536 }
    ensures { result ≡ line_of counts }
{
    (counts.variables + (counts.cells + counts.functions)) as u64
}

fn take_variable<'a>(
    s: &'a [u8],
    table: &mut [u64],
    counts: Counts,
) -> Result<(Counts, &'a [u8]), Refusal>
    requires { (table_words ≤ length table.old) × Held table.old counts }
    ensures { Takes table.new counts (variable_line (rows_of table.old counts) 118 s.now) result }
{
    let count = counts.variables;
    let line = line_number(counts);
    if MOST_VARIABLES <= count {
        return Err(Refusal::LongSheet(line));
    }
    let Some((variable, rest)) = read_variable(s) else {
        return Err(Refusal::BadSheet(line));
    };
    if !variable_may(table, counts, variable.number) {
        return Err(Refusal::BadSheet(line));
    }
    put_variable(table, count, variable.number, variable.value);
    let more = Counts {
        variables: count + 1,
        cells: counts.cells,
        functions: counts.functions,
    };
    Ok((more, rest))
}

fn take_cell<'a>(
    s: &'a [u8],
    table: &mut [u64],
    counts: Counts,
) -> Result<(Counts, &'a [u8]), Refusal>
    requires { (table_words ≤ length table.old) × Held table.old counts }
    ensures { Takes table.new counts (cell_line (rows_of table.old counts) 109 s.now) result }
{
    let count = counts.cells;
    let line = line_number(counts);
    if MOST_CELLS <= count {
        return Err(Refusal::LongSheet(line));
    }
    let Some((cell, rest)) = read_cell(s) else {
        return Err(Refusal::BadSheet(line));
    };
    let key = cell.region * 4294967296 + cell.index;
    if !cell_may(table, counts, key) {
        return Err(Refusal::BadSheet(line));
    }
    put_cell(table, count, key, cell.real);
    let more = Counts {
        variables: counts.variables,
        cells: count + 1,
        functions: counts.functions,
    };
    Ok((more, rest))
}

fn take_row<'a>(
    s: &'a [u8],
    table: &mut [u64],
    counts: Counts,
) -> Result<(Counts, &'a [u8]), Refusal>
    requires { (table_words ≤ length table.old) × Held table.old counts }
    ensures { Takes table.new counts (function_line (rows_of table.old counts) 116 s.now) result }
{
    let count = counts.functions;
    let line = line_number(counts);
    if MOST_FUNCTIONS <= count {
        return Err(Refusal::LongSheet(line));
    }
    let Some((row, rest)) = read_row(s) else {
        return Err(Refusal::BadSheet(line));
    };
    put_row(table, count, row.name, row.x, row.y, row.value);
    let more = Counts {
        variables: counts.variables,
        cells: counts.cells,
        functions: count + 1,
    };
    Ok((more, rest))
}

// A line by its first byte and the bytes after that: the rows after it with the bytes after the line, or why it is refused.
pub fn take_line<'a>(
    first: u8,
    s: &'a [u8],
    table: &mut [u64],
    counts: Counts,
) -> Result<(Counts, &'a [u8]), Refusal>
    requires { (table_words ≤ length table.old) × Held table.old counts }
    ensures { Takes table.new counts (sheet_line (rows_of table.old counts) first s.now) result }
{
    if first == b'v' {
        return take_variable(s, table, counts);
    }
    if first == b'm' {
        return take_cell(s, table, counts);
    }
    if first == b't' {
        return take_row(s, table, counts);
    }
    Err(Refusal::BadSheet(line_number(counts)))
}
