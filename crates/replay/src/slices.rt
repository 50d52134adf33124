// Slices as the cases need them: lent in part, and compared.
ghost use Rattle.std.specs.Prelude.{◌≡◌, ◌≤◌, min, length, take, drop};
ghost use Rattle.replay.specs.Judges.{same, all_are, blank, blank_rows};

// How many elements of s are lent: n, at most all.
pub fn part<T>(s: &[T], n: usize) -> usize
    ensures upper_bound { (result ≤ length s.now) × (result ≡ length (take result s.now)) }
    ensures least { result ≡ min n (length s.now) }
{
    n.min(s.len())
}

// Whether all words are zero.
pub fn is_zero(s: &[u64]) -> bool
    ensures { result ≡ all_are 0 s.now }
{
    s.iter().all(|word| *word == 0)
}

fn is_blank(row: &[u64; 4]) -> bool
    ensures { result ≡ blank row.now }
{
    *row == [0; 4]
}

// Whether all words of the first n rows are.
pub fn is_zero_in(s: &[[u64; 4]], n: usize) -> bool
    ensures { result ≡ blank_rows n s.now }
{
    s[..part(s, n)].iter().all(|row| is_blank(row))
}

// Whether all bytes from a place on are this one.
pub fn is_all(s: &[u8], from: usize, byte: u8) -> bool
    ensures { result ≡ all_are byte (drop from s.now) }
{
    s.iter().skip(from).all(|b| *b == byte)
}

pub fn is_same(a: &[u8], b: &[u8]) -> bool
    ensures { result ≡ same a.now b.now }
{
    a == b
}
