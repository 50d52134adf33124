// The store: expressions as numbered nodes in lent rows, each tree once, with a desk beside them. Whatever rows and desk hold,
// every function here is safe; where they hold a store (`Sound`), it does what its definition on trees says.

#![tactic(auto)]

ghost use Rattle.std.specs.Prelude.{◌≡◌, List, ℕ, ◌+◌, max, ltb};
ghost use Rattle.expression.specs.Nodes.{measure_from};
ghost use Rattle.store.specs.Memory.{memory, size_at, depth_at};
ghost use Rattle.store.specs.Tracing.{with_mark};
ghost use Rattle.expression.specs.Limits.{largest, deepest};
ghost use Rattle.store.specs.Held.{lent, Adds, judged, Judges, Keeps, Recalls, Compares, Begun};

use desk::{Refused, refuse, stand, standing};
use expression::node::{Expression, Operands, operands_of};
use expression::refusal::Refusal;
use fields::{kept_in, tag_of, with_kept};
use index::{bucket_of, enter, find, head_of, key_of};
use memory::layout::DESK_WORDS;
use node::fields_of;
use origins::words::first_kept;
use reading::{class_at, depth_at, size_at};
use room::capacity;
use words::{first_at, link_at, put_link, put_row, second_at, tag_at};

pub mod desk;
mod fields;
mod hash;
mod index;
pub mod node;
pub mod numbers;
pub mod reading;
mod room;
pub mod words;

// 01's limits of a new node.
const LARGEST: u64 = 1_000_000;

const DEEPEST: u64 = 64;

// The size of the tree of a node.
fn size_of(store: &[[u64; 4]], e: Expression) -> u64
    ensures { result ≡ measure_from ◌+◌ (size_at (memory store.now)) e }
{
    match operands_of(e) {
        Operands::Nothing => 1,
        Operands::One(a) => 1 + size_at(store, a),
        Operands::Two(a, b) => 1 + (size_at(store, a) + size_at(store, b)),
    }
}

// The depth of the tree of a node. It is no twin of the size: what their sums stay below differs, and one function would ask for both.
fn depth_of(store: &[[u64; 4]], e: Expression) -> u64
    ensures { result ≡ measure_from max (depth_at (memory store.now)) e }
{
    match operands_of(e) {
        Operands::Nothing => 1,
        Operands::One(a) => 1 + depth_at(store, a),
        Operands::Two(a, b) => 1 + depth_at(store, a).max(depth_at(store, b)),
    }
}

// The limits of a new node, in 01's order.
fn judge(desk: &mut [u64; DESK_WORDS], size: u64, depth: u64, has_room: bool) -> Result<(), Refused>
    ensures { Judges (judged (ltb largest size) (ltb deepest depth) has_room) result desk.old desk.new }
{
    if LARGEST < size {
        return Err(refuse(desk, Refusal::Big));
    }
    if DEEPEST < depth {
        return Err(refuse(desk, Refusal::Deep));
    }
    if !has_room {
        return Err(refuse(desk, Refusal::Room));
    }
    Ok(())
}

// The node of a tree: the one that stands, or a new one within the limits.
pub fn add(
    store: &mut [[u64; 4]],
    desk: &mut [u64; DESK_WORDS],
    e: Expression,
) -> Result<usize, Refused>
    ensures { Adds e result (lent store.old desk.old) (lent store.new desk.new) }
{
    let n = standing(desk);
    let f = fields_of(e);
    let most = capacity(store);
    let key = key_of(store, f);
    let bucket = bucket_of(most, key);
    let head = head_of(store, n, bucket);
    let class = match find(store, n, f, key, head) {
        Ok(node) => return Ok(node),
        Err(class) => class,
    };
    let size = size_of(store, e);
    let depth = depth_of(store, e);
    judge(desk, size, depth, n < most)?;
    let tag = tag_of(f.code, size, depth, bucket as u64);
    enter(store, n, tag, f.first, f.second, class, head, bucket);
    stand(desk, n + 1);
    Ok(n)
}

// The result of e, kept for all trees equal to that of e.
pub fn keep(store: &mut [[u64; 4]], e: usize, res: usize)
    ensures { Keeps (memory store.old) (memory store.new) e res }
{
    let class = class_at(store, e) as usize;
    let word = link_at(store, class);
    put_link(store, class, with_kept(word, res as u64));
}

// The node that is kept for the tree of e.
pub fn kept_at(store: &[[u64; 4]], e: usize) -> Option<usize>
    ensures { Recalls (memory store.now) e result }
{
    let class = class_at(store, e) as usize;
    let kept = kept_in(link_at(store, class)) as usize;
    kept.checked_sub(1)
}

// Whether two nodes have equal trees.
pub fn equal_at(store: &[[u64; 4]], a: usize, b: usize) -> bool
    ensures { Compares (memory store.now) a b result }
{
    class_at(store, a) == class_at(store, b)
}

// Node i came from this line of the listing, unless it came from an earlier one; past the end nothing does.
pub fn mark(store: &mut [[u64; 4]], i: usize, line: usize)
    ensures { memory store.new ≡ with_mark (memory store.old) i line }
{
    let tag = first_kept(tag_at(store, i), line as u64);
    let first = first_at(store, i);
    let second = second_at(store, i);
    let link = link_at(store, i);
    put_row(store, i, tag, first, second, link);
}

// A store with no node, whatever rows and desk held: the rows stay as they are.
pub fn start(desk: &mut [u64; DESK_WORDS])
    ensures { (store : List (List ℕ)) → Begun (lent store desk.old) (lent store desk.new) }
{
    *desk = [0; DESK_WORDS];
}
