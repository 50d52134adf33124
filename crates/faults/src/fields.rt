// A line field by field, by its form: a letter for each field, as specs/Faulting tells. The first field that does not read says
// which fault the line has.
ghost use Rattle.std.specs.Prelude.{◌≡◌, [], ◌∷◌, ◌&&◌, ◌||◌, ◌<◌, ◌≤◌, ltb, eqb, length, get_or};
ghost use Rattle.text.specs.Reading.{is_from, name_from};
ghost use Rattle.text.specs.Seen.{seen};
ghost use Rattle.faults.specs.Faulting.{words_of, read, told, base_of, no_digit, field_fault, stop_of, form_with, fault_in};

use super::Fault;
use origins::fields::read_origin;
use spelling::{first_function, first_infix, first_operation, first_prefix};
use text::reading::{digit, end_field, read_decimal, read_hex};

const TAB: u8 = 9;

const LF: u8 = 10;

const CR: u8 = 13;

// The one word that may stand here.
fn one_word<'a>(s: &'a [u8], word: &[u8]) -> Option<(u64, &'a [u8])>
    ensures { seen result ≡ name_from 1 (word.now ∷ []) s.now }
{
    let rest = s.strip_prefix(word)?;
    Some((1, rest))
}

// A field of names, or of one word.
fn read_words(s: &[u8], kind: u8) -> Option<(u64, &[u8])>
    ensures { seen result ≡ name_from 1 (words_of kind) s.now }
{
    if kind == b'F' {
        return first_function(s);
    }
    if kind == b'O' {
        return first_operation(s);
    }
    if kind == b'U' {
        return first_prefix(s);
    }
    if kind == b'B' {
        return first_infix(s);
    }
    if kind == b'Z' {
        return one_word(s, b"0000000000000000");
    }
    let own = [kind];
    one_word(s, &own)
}

// A field without the byte that ends it.
fn read_field(s: &[u8], kind: u8) -> Option<(u64, &[u8])>
    ensures { seen result ≡ read kind s.now }
{
    if kind == b'H' {
        return read_hex(s);
    }
    if kind == b'N' {
        return read_decimal(s, 65536);
    }
    if kind == b'I' {
        return read_decimal(s, 4294967296);
    }
    if kind == b'@' {
        return read_origin(s);
    }
    read_words(s, kind)
}

fn stop_of(left: usize) -> u8
    ensures { result ≡ stop_of left }
{
    if left == 0 { LF } else { TAB }
}

fn base_of(kind: u8) -> u64
    ensures { result ≡ base_of kind }
{
    if kind == b'H' {
        return 16;
    }
    if kind == b'Z' { 1 } else { 0 }
}

// The bytes from the first on that is no digit below the base.
fn no_digit(s: &[u8], base: u64) -> &[u8]
    ensures { result.now ≡ no_digit base s.now }
{
    let mut rest = s;
    while let Some((&b, after)) = rest.split_first() {
        if base <= digit(b) {
            return rest;
        }
        rest = after;
    }
    rest
}

fn is_lower_hex(b: u8, base: u64) -> bool
    ensures { result ≡ (ltb 0 base && is_from "a" "f" b) }
{
    if base == 0 {
        return false;
    }
    if b < b'a' {
        return false;
    }
    if b'f' < b {
        return false;
    }
    true
}

fn ends_early(b: u8, left: usize) -> bool
    ensures { result ≡ (ltb 0 left && (eqb b 9 || eqb b 10)) }
{
    if left == 0 {
        return false;
    }
    if b == TAB {
        return true;
    }
    if b == LF {
        return true;
    }
    false
}

// What a byte says, or the end of the text, where it is not due.
fn told(s: &[u8], base: u64, left: usize) -> Fault
    ensures { result ≡ told base left s.now }
{
    let Some((&b, _)) = s.split_first() else {
        if left == 0 {
            return Fault::NoLineFeed;
        }
        return Fault::FieldMissing;
    };
    if b == CR {
        return Fault::CarriageReturn;
    }
    if is_lower_hex(b, base) {
        return Fault::HexCase;
    }
    if ends_early(b, left) {
        return Fault::FieldMissing;
    }
    Fault::WrongByte
}

// A field that has no end.
fn field_fault(s: &[u8], kind: u8, left: usize) -> Fault
    requires { left < 18446744073709551615 }
    ensures { result ≡ field_fault kind left s.now (read kind s.now) }
{
    if let Some((_, rest)) = read_field(s, kind) {
        return told(rest, 0, left);
    }
    let base = base_of(kind);
    let stuck = no_digit(s, base);
    told(stuck, base, left + 1)
}

// How many fields there are, with that of an origin.
fn field_count(form: &[u8], origin: bool) -> usize
    requires { length form.now ≤ 8 }
    ensures { result ≡ length (form_with origin form.now) }
{
    if origin {
        return form.len() + 1;
    }
    form.len()
}

// The letter of a field; after those of the form comes an origin.
fn kind_at(form: &[u8], k: usize) -> u8
    ensures { result ≡ get_or form.now k 64 }
{
    if k < form.len() { form[k] } else { b'@' }
}

// The fields of a line, by its form, and one more where there is an origin.
pub fn fields_fault(line: &[u8], form: &[u8], origin: bool) -> Fault
    requires { length form.now ≤ 8 }
    ensures { result ≡ fault_in (form_with origin form.now) line.now }
{
    let count = field_count(form, origin);
    let mut rest = line;
    for k in 0..count {
        let kind = kind_at(form, k);
        let left = count - k - 1;
        let Some((_, after)) = end_field(read_field(rest, kind), stop_of(left)) else {
            return field_fault(rest, kind, left);
        };
        rest = after;
    }
    Fault::Order
}
