// A line of a written listing: how long it is, and its bytes.
ghost use Rattle.std.specs.Prelude.{◌≡◌, [], ◌∷◌, ◌++◌, ◌+◌, ◌≤◌, length};
ghost use Rattle.expression.specs.declared.node.Expression.{Expression};
ghost use Rattle.expression.specs.declared.InfixOperator.{InfixOperator};
ghost use Rattle.expression.specs.declared.PrefixOperator.{PrefixOperator};
ghost use Rattle.expression.specs.Codes.{prefix_of, infix_of};
ghost use Rattle.store.specs.Nodes.{expression_of};
ghost use Rattle.store.specs.Memory.{memory};
ghost use Rattle.listing.specs.Tables.{moved};
ghost use Rattle.spelling.specs.Names.{function_name, prefix_name, infix_name};
ghost use Rattle.text.specs.Put.{Put};
ghost use Rattle.text.specs.Writing.{in_decimal};
ghost use Rattle.writing.specs.Ordering.{line_text};

use complex::Complex;
use complex::bits::{from_bits, to_bits};
use expression::ExpressionFunction;
use expression::node::Expression;
use node_lines::{LF, TAB};
use spelling::{function_length, infix_byte, prefix_byte, write_function};
use store::node::Fields;
use store::words::link_at;
use text::writing::{decimal_length, write_byte, write_decimal_field, write_hex_field};

// The length of a line whose operands are numbers of lines.
pub fn line_length(e: Expression) -> usize
    ensures { (result ≡ length (line_text e)) × (result ≤ 64) }
{
    match e {
        Expression::Number(_) => 36,
        Expression::PiConstant => 2,
        Expression::Variable(number) => decimal_length(number as u64) + 3,
        Expression::Address(region, index) => {
            decimal_length(region as u64) + decimal_length(index as u64) + 4
        }
        Expression::FunctionCall(f, child) => function_length(f) + decimal_length(child as u64) + 4,
        Expression::Prefix(_, child) => decimal_length(child as u64) + 5,
        Expression::Infix(_, left, right) => {
            decimal_length(left as u64) + decimal_length(right as u64) + 6
        }
    }
}

// A letter, which is the kind of a line or an operator, and its tab.
fn write_letter(out: &mut [u8], at: usize, letter: u8) -> usize
    requires { at + 2 ≤ length out.old }
    ensures { Put out.old at (letter ∷ 9 ∷ []) result out.new }
{
    let next = write_byte(out, at, letter);
    write_byte(out, next, TAB)
}

// The name of a function and its tab.
fn write_name(out: &mut [u8], at: usize, f: ExpressionFunction) -> usize
    requires { at + length (function_name f ++ (9 ∷ [])) ≤ length out.old }
    ensures { Put out.old at (function_name f ++ (9 ∷ [])) result out.new }
{
    let next = write_function(out, at, f);
    write_byte(out, next, TAB)
}

fn write_number(out: &mut [u8], at: usize, z: Complex) -> usize
    requires { at + length (line_text (Expression.Number z)) ≤ length out.old }
    ensures { Put out.old at (line_text (Expression.Number z)) result out.new }
{
    let p = write_letter(out, at, b'n');
    let q = write_hex_field(out, p, to_bits(z.re), TAB);
    write_hex_field(out, q, to_bits(z.im), LF)
}

fn write_cell(out: &mut [u8], at: usize, region: u16, index: u32) -> usize
    requires { at + length (line_text (Expression.Address region index)) ≤ length out.old }
    ensures { Put out.old at (line_text (Expression.Address region index)) result out.new }
{
    let p = write_letter(out, at, b'm');
    let q = write_decimal_field(out, p, region as u64, TAB);
    write_decimal_field(out, q, index as u64, LF)
}

fn write_call(out: &mut [u8], at: usize, f: ExpressionFunction, child: usize) -> usize
    requires { at + length (line_text (Expression.FunctionCall f child)) ≤ length out.old }
    ensures { Put out.old at (line_text (Expression.FunctionCall f child)) result out.new }
{
    let p = write_letter(out, at, b'f');
    let q = write_name(out, p, f);
    write_decimal_field(out, q, child as u64, LF)
}

// The line of whichever operator has this byte.
fn write_prefix(out: &mut [u8], at: usize, byte: u8, child: usize) -> usize
    requires { at + (length (in_decimal child) + 5) ≤ length out.old }
    ensures { (o : PrefixOperator) → prefix_name o ≡ byte ∷ [] → Put out.old at (line_text (Expression.Prefix o child)) result out.new }
{
    let p = write_letter(out, at, b'u');
    let q = write_letter(out, p, byte);
    write_decimal_field(out, q, child as u64, LF)
}

// The line of whichever operator has this byte.
fn write_infix(out: &mut [u8], at: usize, byte: u8, left: usize, right: usize) -> usize
    requires { at + (length (in_decimal left) + length (in_decimal right) + 6) ≤ length out.old }
    ensures { (o : InfixOperator) → infix_name o ≡ byte ∷ [] → Put out.old at (line_text (Expression.Infix o left right)) result out.new }
{
    let p = write_letter(out, at, b'b');
    let q = write_letter(out, p, byte);
    let r = write_decimal_field(out, q, left as u64, TAB);
    write_decimal_field(out, r, right as u64, LF)
}

fn write_variable(out: &mut [u8], at: usize, number: u16) -> usize
    requires { at + length (line_text (Expression.Variable number)) ≤ length out.old }
    ensures { Put out.old at (line_text (Expression.Variable number)) result out.new }
{
    let p = write_letter(out, at, b'v');
    write_decimal_field(out, p, number as u64, LF)
}

fn write_pi(out: &mut [u8], at: usize) -> usize
    requires { at + length (line_text Expression.PiConstant) ≤ length out.old }
    ensures { Put out.old at (line_text Expression.PiConstant) result out.new }
{
    let p = write_byte(out, at, b'p');
    write_byte(out, p, LF)
}

// A line whose operands are numbers of lines.
pub fn write_line(out: &mut [u8], at: usize, e: Expression) -> usize
    requires { at + length (line_text e) ≤ length out.old }
    ensures { Put out.old at (line_text e) result out.new }
{
    match e {
        Expression::Number(z) => write_number(out, at, z),
        Expression::PiConstant => write_pi(out, at),
        Expression::Variable(number) => write_variable(out, at, number),
        Expression::Address(region, index) => write_cell(out, at, region, index),
        Expression::FunctionCall(f, child) => write_call(out, at, f, child),
        Expression::Prefix(o, child) => write_prefix(out, at, prefix_byte(o), child),
        Expression::Infix(o, left, right) => write_infix(out, at, infix_byte(o), left, right),
    }
}

// The byte of the operator with this number: in one step, where the operator itself is not wanted.
fn prefix_byte_of(code: u64) -> u8
    ensures { prefix_name (prefix_of code) ≡ result ∷ [] }
{
    match code {
        1 => b'+',
        _ => b'-',
    }
}

fn infix_byte_of(code: u64) -> u8
    ensures { infix_name (infix_of code) ≡ result ∷ [] }
{
    match code {
        1 => b'+',
        2 => b'-',
        3 => b'*',
        4 => b'/',
        _ => b'^',
    }
}

// The line of a node, straight from its row, where there is room for the longest line: no line is longer than 64
// bytes, whatever its numbers are. The lines of its operands stand in the links of their rows.
pub fn write_row(out: &mut [u8], at: usize, store: &[[u64; 4]], f: Fields) -> usize
    requires { at + 64 ≤ length out.old }
    ensures put { Put out.old at (line_text (moved (memory store.now).link (expression_of f))) result out.new }
    ensures short { result ≤ at + 64 }
{
    let kind = f.code % 8;
    let operator = f.code / 8;
    let first = f.first;
    let second = f.second;
    let left = link_at(store, first as usize) as usize;
    let right = link_at(store, second as usize) as usize;
    match kind {
        1 => write_number(
            out,
            at,
            Complex {
                re: from_bits(first),
                im: from_bits(second),
            },
        ),
        2 => write_pi(out, at),
        3 => write_variable(out, at, (first % 65536) as u16),
        4 => write_cell(
            out,
            at,
            (first % 65536) as u16,
            (second % 4294967296) as u32,
        ),
        5 => write_call(out, at, ExpressionFunction::from_code(operator), left),
        6 => write_prefix(out, at, prefix_byte_of(operator), left),
        _ => write_infix(out, at, infix_byte_of(operator), left, right),
    }
}
