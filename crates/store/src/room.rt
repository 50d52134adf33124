// How many nodes the lent rows have room for.
ghost use Rattle.std.specs.Prelude.{◌≡◌};
ghost use Rattle.store.specs.Memory.{memory, room};

// "The store's capacity is the shortest work slice, at most 4096": one slice has all the rows.
const MOST: usize = 4096;

pub fn capacity(store: &[[u64; 4]]) -> usize
    ensures { result ≡ room (memory store.now) }
{
    store.len().min(MOST)
}
