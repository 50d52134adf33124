// The lines of a listing one after the other: how long they are, and their bytes, whatever stands in a line.
ghost use Rattle.std.specs.Prelude.{◌≡◌, ℕ, List, ◌+◌, ◌≤◌, length, get_or};
ghost use Rattle.store.specs.Memory.{Memory, memory, origin_at};
ghost use Rattle.text.specs.Put.{Put};
ghost use Rattle.writing.specs.Ordering.{line_at, line_text, traced_text, all_text};

use super::line::{line_length, write_line};
use super::line_at;
use super::traced::write_traced;
use memory::read;
use origins::fields::origin_length;
use store::reading::origin_at;

// What line i of the order in a table is.
pub trait Lines {
    ghost bytes: { Memory → List ℕ → ℕ → List ℕ };

    fn measure(store: &[[u64; 4]], table: &[u64], i: usize) -> usize
        ensures size { result ≡ length (bytes (memory store.now) table.now i) }
        ensures short { result ≤ 70 };

    fn write(out: &mut [u8], at: usize, store: &[[u64; 4]], table: &[u64], i: usize) -> usize
        requires { at + length (bytes (memory store.now) table.now i) ≤ length out.old }
        ensures { Put out.old at (bytes (memory store.now) table.now i) result out.new };
}

// The node alone.
pub struct Plain;

// The node, and its origin as a last field.
pub struct Traced;

impl Lines for Plain {
    ghost bytes = { λ rows table i. line_text (line_at rows table i) };

    fn measure(store: &[[u64; 4]], table: &[u64], i: usize) -> usize {
        line_length(line_at(store, table, i))
    }

    fn write(out: &mut [u8], at: usize, store: &[[u64; 4]], table: &[u64], i: usize) -> usize {
        write_line(out, at, line_at(store, table, i))
    }
}

impl Lines for Traced {
    ghost bytes = { λ rows table i. traced_text (origin_at rows (get_or table i 0)) (line_at rows table i) };

    fn measure(store: &[[u64; 4]], table: &[u64], i: usize) -> usize {
        let origin = origin_at(store, read(table, i) as usize);
        line_length(line_at(store, table, i)) + origin_length(origin) + 1
    }

    fn write(out: &mut [u8], at: usize, store: &[[u64; 4]], table: &[u64], i: usize) -> usize {
        let origin = origin_at(store, read(table, i) as usize);
        write_traced(out, at, origin, line_at(store, table, i))
    }
}

// The length of the first `count` lines.
pub fn text_length<L: Lines>(store: &[[u64; 4]], table: &[u64], count: usize) -> usize
    requires { count ≤ 1024 }
    ensures { result ≡ length (all_text (L.bytes (memory store.now) table.now) count) }
{
    let mut total: usize = 0;
    for i in 0..count {
        total += L::measure(store, table, i);
    }
    total
}

// The first `count` lines, at the start of an output that has room for them.
pub fn write_lines<L: Lines>(
    store: &[[u64; 4]],
    table: &[u64],
    count: usize,
    out: &mut [u8],
) -> usize
    requires { length (all_text (L.bytes (memory store.now) table.now) count) ≤ length out.old }
    ensures { Put out.old 0 (all_text (L.bytes (memory store.now) table.now) count) result out.new }
{
    let mut at: usize = 0;
    for i in 0..count {
        at = L::write(out, at, store, table, i);
    }
    at
}
