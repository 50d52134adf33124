// The store's nodes: starting, adding, and the class of one.
ghost use Rattle.std.specs.Prelude.{◌≡◌, List, ℕ};
ghost use Rattle.store.specs.Nodes.{fields, expression_of};
ghost use Rattle.store.specs.Memory.{memory, class_at};
ghost use Rattle.store.specs.Held.{lent, Begun};
ghost use Rattle.timed.specs.Promises.{AddsNode};

use super::packing::packed_built;
use memory::layout::DESK_WORDS;
use store::node::{Fields, expression_of};

#[unsafe(no_mangle)]
pub extern "C" fn timed_start(desk: &mut [u64; DESK_WORDS])
    ensures { (store : List (List ℕ)) → Begun (lent store desk.old) (lent store desk.new) }
{
    store::start(desk);
}

// Adds a node by its fields: the number of its kind with eight times that of its operator, and two more.
#[unsafe(no_mangle)]
pub extern "C" fn timed_add(
    store: &mut [[u64; 4]],
    desk: &mut [u64; DESK_WORDS],
    code: u64,
    a: u64,
    b: u64,
) -> u64
    ensures { AddsNode (expression_of (fields code a b)) result (lent store.old desk.old) (lent store.new desk.new) }
{
    let e = expression_of(Fields {
        code,
        first: a,
        second: b,
    });
    let built = store::add(store, desk, e);
    packed_built(desk, built)
}

#[unsafe(no_mangle)]
pub extern "C" fn timed_class(store: &[[u64; 4]], i: usize) -> u64
    ensures { result ≡ class_at (memory store.now) i }
{
    store::reading::class_at(store, i)
}
