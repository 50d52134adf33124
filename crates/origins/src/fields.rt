// The field `@` and a number, or `@-`, read at the end of a node line and written there.
ghost use Rattle.std.specs.Prelude.{◌≡◌, ◌+◌, ◌≤◌, length};
ghost use Rattle.text.specs.Put.{Put};
ghost use Rattle.text.specs.Seen.{seen};
ghost use Rattle.origins.specs.Fields.{origin, after_at, line_end, origin_text};

use text::reading::{end_field, read_decimal};
use text::writing::{decimal_length, write_byte, write_decimal};

const TAB: u8 = 9;

const LF: u8 = 10;

// 0 to 1023.
const ORIGINS: u64 = 1024;

// What stands after the `@`.
fn read_after_at(s: &[u8]) -> Option<(u64, &[u8])>
    ensures { seen result ≡ after_at s.now }
{
    let (&b, rest) = s.split_first()?;
    if b == b'-' {
        return Some((0, rest));
    }
    let (line, rest) = read_decimal(s, ORIGINS)?;
    Some((line + 1, rest))
}

// The origin, without the byte that ends its field.
pub fn read_origin(s: &[u8]) -> Option<(u64, &[u8])>
    ensures { seen result ≡ origin s.now }
{
    let (&b, rest) = s.split_first()?;
    if b != b'@' {
        return None;
    }
    read_after_at(rest)
}

// The end of a node line, after its last field: the origin is accepted there, and ignored.
pub fn end_line<'a>(n: Option<(u64, &'a [u8])>) -> Option<(u64, &'a [u8])>
    ensures { seen result ≡ line_end (seen n.entry) }
{
    let (v, s) = n?;
    let (&stop, rest) = s.split_first()?;
    if stop == LF {
        return Some((v, rest));
    }
    if stop != TAB {
        return None;
    }
    let (_, end) = end_field(read_origin(rest), LF)?;
    Some((v, end))
}

pub fn origin_length(origin: u64) -> usize
    ensures { result ≡ length (origin_text origin) }
{
    if origin == 0 {
        return 2;
    }
    decimal_length(origin - 1) + 1
}

pub fn write_origin(out: &mut [u8], at: usize, origin: u64) -> usize
    requires { at + length (origin_text origin) ≤ length out.old }
    ensures { Put out.old at (origin_text origin) result out.new }
{
    let next = write_byte(out, at, b'@');
    if origin == 0 {
        return write_byte(out, next, b'-');
    }
    write_decimal(out, next, origin - 1)
}
