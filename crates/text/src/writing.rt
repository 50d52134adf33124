// Numbers, names and the ends of fields, written at a place of an output that has room for them. Each writer hands
// back the place after what it wrote. Nothing here or above is written by Display: `Put` says which bytes stand there, and std promises none.
ghost use Rattle.std.specs.Prelude.{◌≡◌, ◌+◌, ◌<◌, ◌≤◌, [], ◌∷◌, ◌++◌, length};
ghost use Rattle.text.specs.Writing.{byte_of, in_decimal, in_hex};
ghost use Rattle.text.specs.Put.{Put};

// The byte of a digit, from a table: a test of each digit would have to be foretold.
pub fn digit_byte(d: u64) -> u8
    requires { d < 16 }
    ensures { result ≡ byte_of d }
{
    match d {
        0 => b'0',
        1 => b'1',
        2 => b'2',
        3 => b'3',
        4 => b'4',
        5 => b'5',
        6 => b'6',
        7 => b'7',
        8 => b'8',
        9 => b'9',
        10 => b'A',
        11 => b'B',
        12 => b'C',
        13 => b'D',
        14 => b'E',
        _ => b'F',
    }
}

// How many bytes n takes in decimal.
pub fn decimal_length(n: u64) -> usize
    ensures { (result ≡ length (in_decimal n)) × (result ≤ 20) }
{
    if n < 10 {
        return 1;
    }
    if n < 100 {
        return 2;
    }
    if n < 1000 {
        return 3;
    }
    decimal_length(n / 10) + 1
}

pub fn write_byte(out: &mut [u8], at: usize, b: u8) -> usize
    requires { at < length out.old }
    ensures { Put out.old at (b ∷ []) result out.new }
{
    out[at] = b;
    at + 1
}

pub fn write_bytes(out: &mut [u8], at: usize, bytes: &[u8]) -> usize
    requires { at + length bytes.now ≤ length out.old }
    ensures { Put out.old at bytes.now result out.new }
{
    let next = at + bytes.len();
    out[at..next].copy_from_slice(bytes);
    next
}

// The usual numbers of lines, without a call for each digit.
fn write_two(out: &mut [u8], at: usize, n: u64) -> usize
    requires { (10 ≤ n) × (n < 100) × (at + 2 ≤ length out.old) }
    ensures { Put out.old at (in_decimal n) result out.new }
{
    out[at] = digit_byte(n / 10);
    out[at + 1] = digit_byte(n % 10);
    at + 2
}

fn write_three(out: &mut [u8], at: usize, n: u64) -> usize
    requires { (100 ≤ n) × (n < 1000) × (at + 3 ≤ length out.old) }
    ensures { Put out.old at (in_decimal n) result out.new }
{
    out[at] = digit_byte(n / 100);
    out[at + 1] = digit_byte(n / 10 % 10);
    out[at + 2] = digit_byte(n % 10);
    at + 3
}

// Any number, with a call for each digit.
fn write_long(out: &mut [u8], at: usize, n: u64) -> usize
    requires { at + length (in_decimal n) ≤ length out.old }
    ensures { Put out.old at (in_decimal n) result out.new }
{
    if n < 10 {
        out[at] = digit_byte(n);
        return at + 1;
    }
    let p = write_long(out, at, n / 10);
    out[p] = digit_byte(n % 10);
    p + 1
}

pub fn write_decimal(out: &mut [u8], at: usize, n: u64) -> usize
    requires { at + length (in_decimal n) ≤ length out.old }
    ensures { Put out.old at (in_decimal n) result out.new }
{
    if n < 10 {
        out[at] = digit_byte(n);
        return at + 1;
    }
    if n < 100 {
        return write_two(out, at, n);
    }
    if n < 1000 {
        return write_three(out, at, n);
    }
    write_long(out, at, n)
}

// From the last digit to the first.
pub fn write_hex(out: &mut [u8], at: usize, n: u64) -> usize
    requires { at + 16 ≤ length out.old }
    ensures { Put out.old at (in_hex n) result out.new }
{
    let mut rest = n;
    for k in (0..16).rev() {
        out[at + k] = digit_byte(rest % 16);
        rest /= 16;
    }
    at + 16
}

// A decimal number and the byte that ends its field.
pub fn write_decimal_field(out: &mut [u8], at: usize, n: u64, stop: u8) -> usize
    requires { at + length (in_decimal n ++ (stop ∷ [])) ≤ length out.old }
    ensures { Put out.old at (in_decimal n ++ (stop ∷ [])) result out.new }
{
    let next = write_decimal(out, at, n);
    write_byte(out, next, stop)
}

pub fn write_hex_field(out: &mut [u8], at: usize, n: u64, stop: u8) -> usize
    requires { at + 17 ≤ length out.old }
    ensures { Put out.old at (in_hex n ++ (stop ∷ [])) result out.new }
{
    let next = write_hex(out, at, n);
    write_byte(out, next, stop)
}
