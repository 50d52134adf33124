// The lines of the answers: fields that are parted by tabs, written at the start of an output that has room for the
// longest of them.
ghost use Rattle.std.specs.Prelude.{[], ◌∷◌, ◌++◌, ◌+◌, ◌≤◌, length};
ghost use Rattle.io.specs.Counts.{IsPrefixLen};
ghost use Rattle.complex.specs.Bits.{bits_of};
ghost use Rattle.text.specs.Writing.{in_hex};
ghost use Rattle.text.specs.Put.{Put};
ghost use Rattle.console.specs.Answers.{value_line, real_line, refused_line, need_line, refusal_line};

use complex::Complex;
use complex::bits::to_bits;
use expression::refusal::{Operation, Refusal};
use spelling::write_operation;
use text::writing::{write_byte, write_bytes, write_decimal_field, write_hex_field};

const TAB: u8 = b'\t';

const LF: u8 = b'\n';

// The room for a line. The longest has 78 bytes.
pub const ROOM: usize = 96;

// The two parts of a number, as two fields.
fn write_parts(out: &mut [u8], at: usize, z: Complex, stop: u8) -> usize
    requires { at + 34 ≤ length out.old }
    ensures { Put out.old at ((in_hex (bits_of z.re) ++ (9 ∷ [])) ++ (in_hex (bits_of z.im) ++ (stop ∷ []))) result out.new }
{
    let next = write_hex_field(out, at, to_bits(z.re), TAB);
    write_hex_field(out, next, to_bits(z.im), stop)
}

pub fn write_value(out: &mut [u8], z: Complex) -> usize
    requires { 96 ≤ length out.old }
    ensures put { Put out.old 0 (value_line z) result out.new }
    ensures within { IsPrefixLen result out.new }
{
    let next = write_bytes(out, 0, b"value\t");
    write_parts(out, next, z, LF)
}

pub fn write_real(out: &mut [u8], x: f64) -> usize
    requires { 96 ≤ length out.old }
    ensures put { Put out.old 0 (real_line x) result out.new }
    ensures within { IsPrefixLen result out.new }
{
    let next = write_bytes(out, 0, b"real\t");
    write_hex_field(out, next, to_bits(x), LF)
}

pub fn write_refused(out: &mut [u8], number: u64, place: u64) -> usize
    requires { 96 ≤ length out.old }
    ensures put { Put out.old 0 (refused_line number place) result out.new }
    ensures within { IsPrefixLen result out.new }
{
    let p = write_bytes(out, 0, b"refused\t");
    let q = write_decimal_field(out, p, number, TAB);
    write_decimal_field(out, q, place, LF)
}

fn write_need(out: &mut [u8], operation: Operation, x: Complex, y: Complex) -> usize
    requires { 96 ≤ length out.old }
    ensures put { Put out.old 0 (need_line operation x y) result out.new }
    ensures within { IsPrefixLen result out.new }
{
    let p = write_bytes(out, 0, b"need\t");
    let q = write_operation(out, p, operation);
    let r = write_byte(out, q, TAB);
    let s = write_parts(out, r, x, TAB);
    write_parts(out, s, y, LF)
}

// The refusal's number and place; of a function value that is lacking its name and its operands.
pub fn write_refusal(out: &mut [u8], why: Refusal) -> usize
    requires { 96 ≤ length out.old }
    ensures put { Put out.old 0 (refusal_line why) result out.new }
    ensures within { IsPrefixLen result out.new }
{
    let Refusal::Need(operation, x, y) = why else {
        return write_refused(out, why.number(), why.place());
    };
    write_need(out, operation, x, y)
}
