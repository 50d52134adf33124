// Answers as numbers: specs/Packed says which bits are which.
ghost use Rattle.std.specs.Prelude.{◌≡◌};
ghost use Rattle.timed.specs.Packed.{refused_of, node_of, counts_of, built_of, listing_of, sheet_of, written_of};

use expression::refusal::Refusal;
use listing::Listed;
use memory::layout::DESK_WORDS;
use sheet::Counts;
use store::desk::{Refused, calls_made, refusal_of, standing};

// 2^25: below it a node with the count of nodes, or a count of bytes; from it on counts of rows, or a number of calls.
const ABOVE: u64 = 33554432;

// 2^58, where a refusal's number begins.
const REFUSAL: u64 = 288230376151711744;

pub fn refused(why: Refusal) -> u64
    ensures { result ≡ refused_of why }
{
    REFUSAL * (why.number() % 32) + why.place() % 65536
}

fn packed_node(at: usize, nodes: usize) -> u64
    ensures { result ≡ node_of at nodes }
{
    at as u64 % 4096 + 4096 * (nodes as u64 % 8192)
}

fn packed_counts(counts: Counts) -> u64
    ensures { result ≡ counts_of counts }
{
    ABOVE * (counts.variables as u64 % 2048)
        + 2048 * ABOVE * (counts.cells as u64 % 2048)
        + 4194304 * ABOVE * (counts.functions as u64 % 2048)
}

// An answer of what builds, with the desk as it is then: a node, the count of nodes and the number of calls.
pub fn packed_built(desk: &[u64; DESK_WORDS], built: Result<usize, Refused>) -> u64
    ensures { result ≡ built_of desk.now built }
{
    match built {
        Ok(node) => packed_node(node, standing(desk)) + ABOVE * (calls_made(desk) % 4294967296),
        Err(Refused) => refused(refusal_of(desk)),
    }
}

pub fn packed_listing(desk: &[u64; DESK_WORDS], answer: Result<Listed, Refusal>) -> u64
    ensures { result ≡ listing_of desk.now answer }
{
    match answer {
        Ok(listed) => packed_node(listed.root, standing(desk)),
        Err(why) => refused(why),
    }
}

pub fn packed_sheet(answer: Result<Counts, Refusal>) -> u64
    ensures { result ≡ sheet_of answer }
{
    match answer {
        Ok(counts) => packed_counts(counts),
        Err(why) => refused(why),
    }
}

pub fn packed_written(answer: Result<usize, Refusal>) -> u64
    ensures { result ≡ written_of answer }
{
    match answer {
        Ok(bytes) => bytes as u64 % ABOVE,
        Err(why) => refused(why),
    }
}
