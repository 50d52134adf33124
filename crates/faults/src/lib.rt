// Which fault a refused line of a listing or of a sheet has, so that it can be said in a sentence.

#![tactic(auto)]

ghost use Rattle.std.specs.Prelude.{◌≡◌, ◌≤◌, length, drop};
ghost use Rattle.faults.specs.Faulting.{fault_in, node_form, has_at, form_with, listing_form, sheet_form, from_line, listing_fault, sheet_fault};

use fields::fields_fault;

mod fields;

const LF: u8 = 10;

// What is wrong with a line: a byte that may not stand there, a letter that begins no line, an unknown name and a number out of
// its range included; a field that is missing or cut short; a hex digit in lower case; a carriage return; nothing but its
// place among the lines; nothing but its line feed; or there is no line.
#[derive(Clone, Copy)]
pub enum Fault {
    WrongByte,
    FieldMissing,
    HexCase,
    CarriageReturn,
    Order,
    NoLineFeed,
    NoLine,
}

// The place where a line begins, or the end of the text.
pub fn line_start(text: &[u8], line: u64) -> usize
    ensures { (result ≤ length text.now) × (drop result text.now ≡ from_line line text.now) }
{
    let mut left = line;
    for (i, &byte) in text.iter().enumerate() {
        if left == 0 {
            return i;
        }
        if byte == LF {
            left -= 1;
        }
    }
    text.len()
}

// Whether `@` stands in a line, before its line feed.
fn has_at(line: &[u8]) -> bool
    ensures { result ≡ has_at line.now }
{
    for &b in line {
        if b == LF {
            return false;
        }
        if b == b'@' {
            return true;
        }
    }
    false
}

fn node_line(line: &[u8], first: u8, origin: bool) -> Fault
    ensures { result ≡ fault_in (form_with origin (node_form first)) line.now }
{
    if first == b'n' {
        return fields_fault(line, b"nHH", origin);
    }
    if first == b'p' {
        return fields_fault(line, b"p", origin);
    }
    if first == b'v' {
        return fields_fault(line, b"vN", origin);
    }
    if first == b'm' {
        return fields_fault(line, b"mNI", origin);
    }
    if first == b'f' {
        return fields_fault(line, b"fFI", origin);
    }
    if first == b'u' {
        return fields_fault(line, b"uUI", origin);
    }
    if first == b'b' {
        return fields_fault(line, b"bBII", origin);
    }
    fields_fault(line, b"n", origin)
}

// Node lines may end in an origin.
fn listing_line(line: &[u8], first: u8) -> Fault
    ensures { result ≡ fault_in (listing_form first line.now) line.now }
{
    if first == b's' {
        return fields_fault(line, b"sNI", false);
    }
    node_line(line, first, has_at(line))
}

fn sheet_line(line: &[u8], first: u8) -> Fault
    ensures { result ≡ fault_in (sheet_form first line.now) line.now }
{
    if first == b'v' {
        return fields_fault(line, b"vNHH", false);
    }
    if first == b'm' {
        return fields_fault(line, b"mNIH", false);
    }
    if line.starts_with(b"t\tpow") {
        return fields_fault(line, b"tOHHHHHH", false);
    }
    fields_fault(line, b"tOHHZZHH", false)
}

// The fault of a line of a listing that was refused as BAD_LIST at that line.
pub fn listing_fault(text: &[u8], line: u64) -> Fault
    ensures { result ≡ listing_fault text.now line }
{
    let rest = &text[line_start(text, line)..];
    let Some((&first, _)) = rest.split_first() else {
        return Fault::NoLine;
    };
    listing_line(rest, first)
}

// The fault of a line of a sheet that was refused as BAD_SHEET at that line.
pub fn sheet_fault(text: &[u8], line: u64) -> Fault
    ensures { result ≡ sheet_fault text.now line }
{
    let rest = &text[line_start(text, line)..];
    let Some((&first, _)) = rest.split_first() else {
        return Fault::NoLine;
    };
    sheet_line(rest, first)
}
