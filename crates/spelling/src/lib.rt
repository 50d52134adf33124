// The names of functions, operations and operators in the texts: read at the start of a text, which gives a name's number, and written.

#![tactic(auto)]

ghost use Rattle.std.specs.Prelude.{◌≡◌, [], ◌∷◌, ◌+◌, ◌<◌, ◌≤◌, length};
ghost use Rattle.text.specs.Reading.{name_from};
ghost use Rattle.text.specs.Seen.{seen};
ghost use Rattle.text.specs.Put.{Put};
ghost use Rattle.spelling.specs.Names.{names_with, function_names, operation_names, prefix_names, infix_names, named, function_name, operation_name, prefix_name, infix_name};

use expression::refusal::Operation;
use expression::{ExpressionFunction, InfixOperator, PrefixOperator};
use text::writing::write_bytes;

// sin, cos, exp, sqrt, and a fifth.
fn first_name<'a>(s: &'a [u8], fifth: &[u8]) -> Option<(u64, &'a [u8])>
    ensures { seen result ≡ name_from 1 (names_with fifth.now) s.now }
{
    if let Some(rest) = s.strip_prefix(b"sin") {
        return Some((1, rest));
    }
    if let Some(rest) = s.strip_prefix(b"cos") {
        return Some((2, rest));
    }
    if let Some(rest) = s.strip_prefix(b"exp") {
        return Some((3, rest));
    }
    if let Some(rest) = s.strip_prefix(b"sqrt") {
        return Some((4, rest));
    }
    let rest = s.strip_prefix(fifth)?;
    Some((5, rest))
}

pub fn first_function(s: &[u8]) -> Option<(u64, &[u8])>
    ensures { seen result ≡ name_from 1 function_names s.now }
{
    first_name(s, b"cis")
}

pub fn first_operation(s: &[u8]) -> Option<(u64, &[u8])>
    ensures { seen result ≡ name_from 1 operation_names s.now }
{
    first_name(s, b"pow")
}

pub fn first_prefix(s: &[u8]) -> Option<(u64, &[u8])>
    ensures { seen result ≡ name_from 1 prefix_names s.now }
{
    let (&b, rest) = s.split_first()?;
    match b {
        b'+' => Some((1, rest)),
        b'-' => Some((2, rest)),
        _ => None,
    }
}

pub fn first_infix(s: &[u8]) -> Option<(u64, &[u8])>
    ensures { seen result ≡ name_from 1 infix_names s.now }
{
    let (&b, rest) = s.split_first()?;
    match b {
        b'+' => Some((1, rest)),
        b'-' => Some((2, rest)),
        b'*' => Some((3, rest)),
        b'/' => Some((4, rest)),
        b'^' => Some((5, rest)),
        _ => None,
    }
}

fn write_name(out: &mut [u8], at: usize, number: u64, fifth: &[u8]) -> usize
    requires { (0 < number) × (number < 6) × (at + length (named (names_with fifth.now) number) ≤ length out.old) }
    ensures { Put out.old at (named (names_with fifth.now) number) result out.new }
{
    match number {
        1 => write_bytes(out, at, b"sin"),
        2 => write_bytes(out, at, b"cos"),
        3 => write_bytes(out, at, b"exp"),
        4 => write_bytes(out, at, b"sqrt"),
        _ => write_bytes(out, at, fifth),
    }
}

pub fn write_function(out: &mut [u8], at: usize, f: ExpressionFunction) -> usize
    requires { at + length (function_name f) ≤ length out.old }
    ensures { Put out.old at (function_name f) result out.new }
{
    write_name(out, at, u64::from(f), b"cis")
}

pub fn write_operation(out: &mut [u8], at: usize, o: Operation) -> usize
    requires { at + length (operation_name o) ≤ length out.old }
    ensures { Put out.old at (operation_name o) result out.new }
{
    write_name(out, at, u64::from(o), b"pow")
}

pub fn function_length(f: ExpressionFunction) -> usize
    ensures { (result ≡ length (function_name f)) × (result ≤ 4) }
{
    match f {
        ExpressionFunction::SquareRoot => 4,
        ExpressionFunction::Sine => 3,
        ExpressionFunction::Cosine => 3,
        ExpressionFunction::Exponent => 3,
        ExpressionFunction::Cis => 3,
    }
}

pub fn prefix_byte(o: PrefixOperator) -> u8
    ensures { prefix_name o ≡ result ∷ [] }
{
    match o {
        PrefixOperator::Plus => b'+',
        PrefixOperator::Minus => b'-',
    }
}

pub fn infix_byte(o: InfixOperator) -> u8
    ensures { infix_name o ≡ result ∷ [] }
{
    match o {
        InfixOperator::Plus => b'+',
        InfixOperator::Minus => b'-',
        InfixOperator::Star => b'*',
        InfixOperator::Slash => b'/',
        InfixOperator::Caret => b'^',
    }
}
