// Reading: a listing, its lines alone, and a sheet.
ghost use Rattle.std.specs.Prelude.{◌≡◌, ◌≤◌, length};
ghost use Rattle.memory.specs.Layout.{table_words};
ghost use Rattle.store.specs.Held.{lent};
ghost use Rattle.timed.specs.Promises.{ReadsListing, ReadsSheet};
ghost use Rattle.timed.specs.Reading.{with_fields, ReadsLines};

use super::packing::{packed_listing, packed_sheet, refused};
use expression::refusal::Refusal;
use listing::read_listing;
use memory::layout::DESK_WORDS;
use memory::put;
use node_lines::read_node;
use sheet::read_sheet;
use store::node::{Fields, fields_of};

#[unsafe(no_mangle)]
pub extern "C" fn timed_read_listing(
    text: &[u8],
    store: &mut [[u64; 4]],
    desk: &mut [u64; DESK_WORDS],
    table: &mut [u64],
) -> u64
    requires { table_words ≤ length table.old }
    ensures { ReadsListing text.now result (lent store.old desk.old) (lent store.new desk.new) table.new }
{
    let answer = read_listing(text, false, store, desk, table);
    packed_listing(desk, answer)
}

// Three words for each line.
fn put_fields(table: &mut [u64], line: usize, f: Fields)
    requires { line ≤ 1024 }
    ensures { table.new ≡ with_fields table.old line f }
{
    put(table, 3 * line, f.code);
    put(table, 3 * line + 1, f.first);
    put(table, 3 * line + 2, f.second);
}

// The lines of a listing without a store: of each the fields of a node whose operands are numbers of lines. The answer
// is how many lines there are.
#[unsafe(no_mangle)]
pub extern "C" fn timed_read_lines(text: &[u8], table: &mut [u64]) -> u64
    ensures { ReadsLines text.now table.old result table.new }
{
    let mut rest = text;
    let mut lines: usize = 0;
    while let Some((&first, after)) = rest.split_first() {
        if 1024 <= lines {
            return refused(Refusal::LongList(lines as u64));
        }
        let Some((e, next)) = read_node(first, after, lines) else {
            return refused(Refusal::BadList(lines as u64));
        };
        put_fields(table, lines, fields_of(e));
        lines += 1;
        rest = next;
    }
    lines as u64
}

#[unsafe(no_mangle)]
pub extern "C" fn timed_read_sheet(text: &[u8], table: &mut [u64]) -> u64
    requires { table_words ≤ length table.old }
    ensures { ReadsSheet text.now result table.new }
{
    packed_sheet(read_sheet(text, table))
}
