// The rows of the store: a row a node, of four words: link, tag and the two fields, in the order that was fastest. A row is written whole,
// since of one that is read the logic knows no length.
ghost use Rattle.std.specs.Prelude.{◌≡◌, get_or};
ghost use Rattle.store.specs.Memory.{memory, with_row, with_link};

// A word of node i; past the end 0.
pub fn tag_at(store: &[[u64; 4]], i: usize) -> u64
    ensures { result ≡ get_or (memory store.now).tag i 0 }
{
    if i < store.len() { store[i][1] } else { 0 }
}

pub fn first_at(store: &[[u64; 4]], i: usize) -> u64
    ensures { result ≡ get_or (memory store.now).first i 0 }
{
    if i < store.len() { store[i][2] } else { 0 }
}

pub fn second_at(store: &[[u64; 4]], i: usize) -> u64
    ensures { result ≡ get_or (memory store.now).second i 0 }
{
    if i < store.len() { store[i][3] } else { 0 }
}

pub fn link_at(store: &[[u64; 4]], i: usize) -> u64
    ensures { result ≡ get_or (memory store.now).link i 0 }
{
    if i < store.len() { store[i][0] } else { 0 }
}

// Node i becomes these words; past the end nothing does.
pub fn put_row(store: &mut [[u64; 4]], i: usize, tag: u64, first: u64, second: u64, link: u64)
    ensures { memory store.new ≡ with_row (memory store.old) i tag first second link }
{
    if i < store.len() {
        store[i] = [link, tag, first, second];
    }
}

// The link of node i becomes this word; past the end nothing does.
pub fn put_link(store: &mut [[u64; 4]], i: usize, link: u64)
    ensures { memory store.new ≡ with_link (memory store.old) i link }
{
    let tag = tag_at(store, i);
    let first = first_at(store, i);
    let second = second_at(store, i);
    put_row(store, i, tag, first, second, link);
}
