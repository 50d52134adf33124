// The fields of each kind of line, after its first byte, with the bytes after them. Doubles are words as they stand in the
// text.
ghost use Rattle.std.specs.Prelude.{◌≡◌};
ghost use Rattle.sheet.specs.Rows.{complex_field, second_operand, fields_after, variable_fields, cell_fields, row_fields};
ghost use Rattle.sheet.specs.Seen.{seen_pair, seen_variable, seen_cell, seen_row, small_cell, small_row};

use spelling::first_operation;
use text::reading::{decimal_field, end_field, hex_field};

const TAB: u8 = 9;

const LF: u8 = 10;

// The number of the name pow, the one with a second operand.
const POWER: u64 = 5;

// The bits of a complex number.
#[derive(Clone, Copy)]
pub struct Words {
    pub re: u64,
    pub im: u64,
}

// Each kind's values.
#[derive(Clone, Copy)]
pub struct VariableFields {
    pub number: u64,
    pub value: Words,
}

#[derive(Clone, Copy)]
pub struct CellFields {
    pub region: u64,
    pub index: u64,
    pub real: u64,
}

#[derive(Clone, Copy)]
pub struct RowFields {
    pub name: u64,
    pub x: Words,
    pub y: Words,
    pub value: Words,
}

// A complex number and the bytes after its fields, as with the lines below.
fn pair_field(s: &[u8], stop: u8) -> Option<(Words, &[u8])>
    ensures { seen_pair result ≡ complex_field stop s.now }
{
    let (re, s) = hex_field(s, TAB)?;
    let (im, s) = hex_field(s, stop)?;
    Some((Words { re, im }, s))
}

// v: a number and its value.
pub fn read_variable(s: &[u8]) -> Option<(VariableFields, &[u8])>
    ensures { seen_variable result ≡ fields_after 118 s.now variable_fields }
{
    let (_, s) = end_field(Some((118, s)), TAB)?;
    let (number, s) = decimal_field(s, TAB, 65536)?;
    let (value, s) = pair_field(s, LF)?;
    Some((VariableFields { number, value }, s))
}

// m: region, index and a real.
pub fn read_cell(s: &[u8]) -> Option<(CellFields, &[u8])>
    ensures { (seen_cell result ≡ fields_after 109 s.now cell_fields) × small_cell result }
{
    let (_, s) = end_field(Some((109, s)), TAB)?;
    let (region, s) = decimal_field(s, TAB, 65536)?;
    let (index, s) = decimal_field(s, TAB, 4294967296)?;
    let (real, s) = hex_field(s, LF)?;
    Some((
        CellFields {
            region,
            index,
            real,
        },
        s,
    ))
}

// For all but pow two fields of zeros; the bits of -0 are none.
fn second_operand(s: &[u8], name: u64) -> Option<(Words, &[u8])>
    ensures { seen_pair result ≡ second_operand name s.now }
{
    let (re, s) = hex_field(s, TAB)?;
    let (im, s) = hex_field(s, TAB)?;
    if name == POWER {
        return Some((Words { re, im }, s));
    }
    if re != 0 {
        return None;
    }
    if im != 0 {
        return None;
    }
    Some((Words { re, im }, s))
}

// t: a name, two operands and the value.
pub fn read_row(s: &[u8]) -> Option<(RowFields, &[u8])>
    ensures { (seen_row result ≡ fields_after 116 s.now row_fields) × small_row result }
{
    let (_, s) = end_field(Some((116, s)), TAB)?;
    let (name, s) = end_field(first_operation(s), TAB)?;
    let (x, s) = pair_field(s, TAB)?;
    let (y, s) = second_operand(s, name)?;
    let (value, s) = pair_field(s, LF)?;
    Some((RowFields { name, x, y, value }, s))
}
