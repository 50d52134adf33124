// Writing a node as a listing.
ghost use Rattle.std.specs.Prelude.{◌≤◌, length};
ghost use Rattle.memory.specs.Layout.{table_words};
ghost use Rattle.store.specs.Memory.{memory};
ghost use Rattle.timed.specs.Promises.{WritesListing};

use super::packing::packed_written;
use writing::write_listing;

#[unsafe(no_mangle)]
pub extern "C" fn timed_write_listing(
    store: &mut [[u64; 4]],
    root: usize,
    table: &mut [u64],
    out: &mut [u8],
) -> u64
    requires { table_words ≤ length table.old }
    ensures { WritesListing (memory store.old) root result out.old out.new }
{
    packed_written(write_listing(store, root, table, out))
}
