// The reducer's answer to a text, as the bytes that it prints.
ghost use Rattle.std.specs.Prelude.{◌≡◌, ◌≤◌, length};
ghost use Rattle.io.specs.Counts.{IsPrefixLen};
ghost use Rattle.calls.specs.Lent.{work, capacity};
ghost use Rattle.reduce.specs.Reducing.{SimplifiesText, Reduces};

use calls::Simplified;
use console::input::{listing_length, part, sheet_of};
use console::line::{write_refusal, write_refused};
use expression::refusal::Refusal;
use memory::layout::{DESK_WORDS, TABLE_WORDS};

// The longest input.
const MOST: usize = 65_536;

const LIMIT: u64 = 10;

fn simplify_text(
    text: &[u8],
    store: &mut [[u64; 4]],
    desk: &mut [u64; DESK_WORDS],
    table: &mut [u64; TABLE_WORDS],
    out: &mut [u8],
) -> Result<Simplified, Refusal>
    ensures { SimplifiesText text.now (work store.old desk.old table.old) out.old result out.new }
{
    let n = listing_length(text);
    let sheet = sheet_of(&text[n..]);
    calls::simplify(&text[..n], sheet, LIMIT, store, desk, table, out)
}

fn reduce_with(
    text: &[u8],
    store: &mut [[u64; 4]],
    desk: &mut [u64; DESK_WORDS],
    table: &mut [u64; TABLE_WORDS],
    out: &mut [u8],
) -> usize
    requires { 96 ≤ length out.old }
    ensures reduces { Reduces (capacity (work store.old desk.old table.old)) text.now out.old result out.new }
    ensures within { IsPrefixLen result out.new }
{
    if MOST < text.len() {
        return write_refused(out, 0, 0);
    }
    match simplify_text(text, store, desk, table, out) {
        Ok(made) => part(out, made.bytes),
        Err(why) => write_refusal(out, why),
    }
}

// How many bytes at the start of the output are to be printed. An output of 65,536 bytes has room for every result.
pub fn reduce(text: &[u8], out: &mut [u8]) -> usize
    requires { 96 ≤ length out.old }
    ensures reduces { Reduces 4096 text.now out.old result out.new }
    ensures within { IsPrefixLen result out.new }
{
    let mut store = [[0; 4]; 4096];
    let mut desk = [0; DESK_WORDS];
    let mut table = [0; TABLE_WORDS];
    reduce_with(text, &mut store, &mut desk, &mut table, out)
}
