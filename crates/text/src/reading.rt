// Numbers and fields at the start of a text, each with the bytes after it. Past the end there is no digit and no end of a field.
ghost use Rattle.std.specs.Prelude.{◌≡◌, ◌^◌, ◌<◌, ◌≤◌, drop, slice_index};
ghost use Rattle.text.specs.Reading.{digit_of, decimal, hex, starts, ended, decimal_field, hex_field};
ghost use Rattle.text.specs.Seen.{seen, low_digit, high_digit};

use std::num::wrapping_sub_u8;

// The byte at a place, and 0 past the end.
pub fn byte_at(s: &[u8], i: usize) -> u8
    ensures { result ≡ slice_index s.now i }
{
    if i < s.len() { s[i] } else { 0 }
}

// How far a byte is above that of 0, in the circle of the 256 bytes: a digit 0-9 is below 10, any other byte is not.
fn low_digit(b: u8) -> u8
    ensures { result ≡ low_digit b }
{
    wrapping_sub_u8(b, 48)
}

// The same from A on: A-F are below 6.
fn high_digit(b: u8) -> u8
    ensures { result ≡ high_digit b }
{
    wrapping_sub_u8(b, 65)
}

// The value of a digit 0-9 or A-F, and 16 for any other byte. Both are worked out before one is chosen, so that
// nothing has to be foretold, and in bytes, so that the processor takes 16 of them at once.
fn hex_digit(b: u8) -> u8
    ensures { result ≡ digit_of b }
{
    let low = low_digit(b);
    let high = high_digit(b);
    if low < 10 {
        return low;
    }
    if high < 6 { high + 10 } else { 16 }
}

pub fn digit(b: u8) -> u64
    ensures { result ≡ digit_of b }
{
    hex_digit(b) as u64
}

fn decimal_digit(b: u8) -> u64
    ensures { result ≡ low_digit b }
{
    low_digit(b) as u64
}

// A decimal number below the limit.
pub fn read_decimal(s: &[u8], limit: u64) -> Option<(u64, &[u8])>
    requires { limit ≤ 2 ^ 33 }
    ensures { seen result ≡ decimal limit s.now }
{
    let first = decimal_digit(byte_at(s, 0));
    let mut d = first;
    let mut v: u64 = 0;
    let mut i: usize = 0;
    // No plainer over the bytes: where the digits end is answered too, and would be counted beside them.
    while d < 10 {
        v = v * 10 + d;
        if v >= limit {
            return None;
        }
        i += 1;
        d = decimal_digit(byte_at(s, i));
    }
    if i == 0 {
        return None;
    }
    if first == 0 {
        if 1 < i {
            return None;
        }
    }
    Some((v, &s[i..]))
}

// 16 hex digits: all are read before it is asked whether one of them is none.
pub fn read_hex(s: &[u8]) -> Option<(u64, &[u8])>
    ensures { seen result ≡ hex s.now }
{
    let (digits, rest) = s.split_at_checked(16)?;
    let mut v: u64 = 0;
    let mut worst: u8 = 0;
    for &b in digits {
        let d = hex_digit(b);
        v = v * 16 + (d % 16) as u64;
        worst = worst.max(d);
    }
    if 15 < worst {
        return None;
    }
    Some((v, rest))
}

// The byte that ends a field, after what stood in it.
pub fn end_field<'a>(n: Option<(u64, &'a [u8])>, stop: u8) -> Option<(u64, &'a [u8])>
    ensures { seen result ≡ ended stop (seen n.entry) }
{
    let (v, s) = n?;
    let (&b, rest) = s.split_first()?;
    if b != stop {
        return None;
    }
    Some((v, rest))
}

pub fn decimal_field(s: &[u8], stop: u8, limit: u64) -> Option<(u64, &[u8])>
    requires { limit ≤ 2 ^ 33 }
    ensures { seen result ≡ decimal_field stop limit s.now }
{
    end_field(read_decimal(s, limit), stop)
}

pub fn hex_field(s: &[u8], stop: u8) -> Option<(u64, &[u8])>
    ensures { seen result ≡ hex_field stop s.now }
{
    end_field(read_hex(s), stop)
}

// Whether a word stands at a place.
pub fn word_at(s: &[u8], at: usize, word: &[u8]) -> bool
    ensures { result ≡ starts word.now (drop at s.now) }
{
    s[at.min(s.len())..].starts_with(word)
}
