// What nodes became, in the table's words from RESULTS_FROM on: 0 where nothing is known, else 1 and the number of a node. The nodes of a
// listing are 1024 at most, so each has its word; past the table's end nothing is remembered.
ghost use Rattle.std.specs.Prelude.{◌≡◌, ◌+◌, ◌%◌, get_or, set};
ghost use Rattle.substitution.specs.Run.{word_of, numbered, Forgets};

use memory::layout::RESULTS_FROM;
use memory::{put, read};

// The number of a node is below this.
const MOST: usize = 4096;

// What a node became is remembered below this, far above any node.
const REMEMBERED: usize = 65_536;

// The table's word for a node.
fn word_of(node: usize) -> usize
    ensures { result ≡ word_of node }
{
    RESULTS_FROM + node % MOST
}

// Nothing is known of the first `nodes` nodes, whatever the table held.
pub fn forget(table: &mut [u64], nodes: usize)
    ensures { Forgets nodes table.old table.new }
{
    for k in 0..nodes {
        put(table, word_of(k), 0);
    }
}

// The node that a node became, if it is known.
pub fn recalled(table: &[u64], node: usize) -> Option<usize>
    ensures { result ≡ numbered (get_or table.now (word_of node) 0) }
{
    let word = read(table, word_of(node)) as usize;
    word.checked_sub(1)
}

// What a node became.
pub fn remember(table: &mut [u64], node: usize, became: usize)
    ensures { table.new ≡ set table.old (word_of node) (became % 65536 + 1) }
{
    put(table, word_of(node), (became % REMEMBERED + 1) as u64);
}
