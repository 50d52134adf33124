// The answer on standard output. Where a sentence on standard error cannot be written either, there is nowhere left to say so.

// The sentence on standard error for an answer that was not written, or not to its end.
pub fn say_unwritten(rt: &impl Eprint) {
    let _ = rt.eprint("The answer could not be written.\n");
}

// Writes an answer, and says so where that fails.
pub fn put(rt: &(impl Print + Eprint), answer: &[u8]) {
    if rt.write_all(answer).is_err() {
        say_unwritten(rt);
    }
}
