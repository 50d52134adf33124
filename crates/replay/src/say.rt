// What is printed: words and numbers, the fields of a line, and what is wrong.
ghost use Rattle.std.specs.Prelude.{◌≤◌, ◌≡◌, cond};
ghost use Rattle.replay.specs.Judges.{same_up_to};

// What cannot be printed is left out here and below: what is printed is read, and nothing else depends on it.
pub fn word(rt: &impl Print, text: &[u8]) {
    let _ = rt.write_all(text);
}

pub fn decimal(rt: &impl Print, n: u64) {
    let _ = rt.print(n);
}

// A decimal number as a field.
pub fn count(rt: &impl Print, n: u64) {
    word(rt, b"\t");
    decimal(rt, n);
}

// All 16 hex digits of a word as a field.
pub fn bits(rt: &impl Print, n: u64) {
    word(rt, b"\t");
    let _ = print!(rt; "{n:016x}");
}

pub fn fault(rt: &impl Print, what: &[u8]) {
    word(rt, what);
    word(rt, b"\n");
}

// An answer as six words.
fn answer(rt: &impl Print, whose: &[u8], words: &[u64; 6]) {
    word(rt, whose);
    bits(rt, words[0]);
    bits(rt, words[1]);
    bits(rt, words[2]);
    bits(rt, words[3]);
    bits(rt, words[4]);
    bits(rt, words[5]);
    word(rt, b"\n");
}

fn is_same_answer(a: &[u64; 6], b: &[u64; 6]) -> bool
    ensures { result ≡ same_up_to 6 a.now b.now }
{
    a == b
}

// Whether an answer is the wanted one; prints both if it is not. `whose` is the one that it was wanted from.
pub fn is_right(rt: &impl Print, whose: &[u8], wanted: &[u64; 6], got: &[u64; 6]) -> bool
    ensures { result ≡ same_up_to 6 wanted.now got.now }
{
    if is_same_answer(wanted, got) {
        return true;
    }
    answer(rt, whose, wanted);
    answer(rt, b"the port", got);
    false
}

// Names the case if it is wrong, and answers 1 then and 0 otherwise.
pub fn count_wrong(rt: &impl Print, case: u64, is_right: bool) -> u64
    ensures upper_bound { result ≤ 1 }
    ensures wrong { result ≡ cond is_right 0 1 }
{
    if is_right {
        return 0;
    }
    word(rt, b"wrong: case ");
    decimal(rt, case);
    word(rt, b"\n");
    1
}
