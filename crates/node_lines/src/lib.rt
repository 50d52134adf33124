// A node line of a listing: its fields, read from the front of a text, as a node whose operands are numbers of earlier lines; and a node with
// other operands in place of these.

#![tactic(auto)]

ghost use Rattle.std.specs.Prelude.{◌≡◌, ◌≤◌, ℕ};
ghost use Rattle.expression.specs.Nodes.{mapped};
ghost use Rattle.origins.specs.Fields.{line_end};
ghost use Rattle.node_lines.specs.NodeLines.{pi_line, number_fields, variable_fields, cell_fields, function_fields, prefix_fields, infix_fields, fields_of, node_fields};
ghost use Rattle.node_lines.specs.Seen.{Finds, FindsLeaf};

use complex::Complex;
use complex::bits::from_bits;
use expression::node::{Expression, Operands, operands_of, with_operands};
use expression::{ExpressionFunction, InfixOperator, PrefixOperator};
use origins::fields::end_line;
use spelling::{first_function, first_infix, first_prefix};
use text::reading::{decimal_field, end_field, hex_field, read_decimal, read_hex};

pub const TAB: u8 = 9;

pub const LF: u8 = 10;

// `n·re·im`, after the tab, as the others below.
fn read_number(s: &[u8]) -> Option<(Expression, &[u8])>
    ensures { FindsLeaf (number_fields line_end s.now) result }
{
    let (re, s) = hex_field(s, TAB)?;
    let (im, s) = end_line(read_hex(s))?;
    let z = Complex {
        re: from_bits(re),
        im: from_bits(im),
    };
    Some((Expression::Number(z), s))
}

fn read_variable(s: &[u8]) -> Option<(Expression, &[u8])>
    ensures { FindsLeaf (variable_fields line_end s.now) result }
{
    let (number, s) = end_line(read_decimal(s, 65536))?;
    Some((Expression::Variable(number as u16), s))
}

fn read_cell(s: &[u8]) -> Option<(Expression, &[u8])>
    ensures { FindsLeaf (cell_fields line_end s.now) result }
{
    let (region, s) = decimal_field(s, TAB, 65536)?;
    let (index, s) = end_line(read_decimal(s, 4294967296))?;
    Some((Expression::Address(region as u16, index as u32), s))
}

fn read_function(s: &[u8], lines: usize) -> Option<(Expression, &[u8])>
    requires { lines ≤ 1024 }
    ensures { Finds (λ earlier. function_fields line_end earlier s.now) lines result }
{
    let (f, s) = end_field(first_function(s), TAB)?;
    let (child, s) = end_line(read_decimal(s, lines as u64))?;
    Some((
        Expression::FunctionCall(ExpressionFunction::from_code(f), child as usize),
        s,
    ))
}

fn read_prefix(s: &[u8], lines: usize) -> Option<(Expression, &[u8])>
    requires { lines ≤ 1024 }
    ensures { Finds (λ earlier. prefix_fields line_end earlier s.now) lines result }
{
    let (o, s) = end_field(first_prefix(s), TAB)?;
    let (child, s) = end_line(read_decimal(s, lines as u64))?;
    Some((
        Expression::Prefix(PrefixOperator::from_code(o), child as usize),
        s,
    ))
}

fn read_infix(s: &[u8], lines: usize) -> Option<(Expression, &[u8])>
    requires { lines ≤ 1024 }
    ensures { Finds (λ earlier. infix_fields line_end earlier s.now) lines result }
{
    let (o, s) = end_field(first_infix(s), TAB)?;
    let (left, s) = decimal_field(s, TAB, lines as u64)?;
    let (right, s) = end_line(read_decimal(s, lines as u64))?;
    Some((
        Expression::Infix(InfixOperator::from_code(o), left as usize, right as usize),
        s,
    ))
}

// p has no fields of its own.
fn read_pi(s: &[u8]) -> Option<(Expression, &[u8])>
    ensures { FindsLeaf (pi_line line_end s.now) result }
{
    let (_, s) = end_line(Some((0, s)))?;
    Some((Expression::PiConstant, s))
}

// The fields of any line but p's, by its first byte.
fn read_fields(first: u8, s: &[u8], lines: usize) -> Option<(Expression, &[u8])>
    requires { lines ≤ 1024 }
    ensures { Finds (λ earlier. fields_of line_end earlier first s.now) lines result }
{
    if first == b'n' {
        return read_number(s);
    }
    if first == b'v' {
        return read_variable(s);
    }
    if first == b'm' {
        return read_cell(s);
    }
    if first == b'f' {
        return read_function(s, lines);
    }
    if first == b'u' {
        return read_prefix(s, lines);
    }
    if first == b'b' {
        return read_infix(s, lines);
    }
    None
}

// A node line by its first byte and the bytes after that, after `lines` others.
pub fn read_node(first: u8, s: &[u8], lines: usize) -> Option<(Expression, &[u8])>
    requires { lines ≤ 1024 }
    ensures { Finds (λ earlier. node_fields earlier first s.now) lines result }
{
    if first == b'p' {
        return read_pi(s);
    }
    let (&second, fields) = s.split_first()?;
    if second != TAB {
        return None;
    }
    read_fields(first, fields, lines)
}

// A node line's node, or a node as it is written, by what `look` gives for its operands: nodes for lines, or lines for nodes.
pub fn map_operands<F: Fn(usize) -> usize>(e: Expression, look: F) -> Expression
    requires { F.IsAlwaysCallable look }
    ensures { (given : ℕ → ℕ) → ((k r : ℕ) → F.post look k r → r ≡ given k) → result ≡ mapped given e }
{
    match operands_of(e) {
        Operands::Nothing => e,
        Operands::One(a) => with_operands(e, 0, look(a)),
        Operands::Two(a, b) => with_operands(e, look(a), look(b)),
    }
}
