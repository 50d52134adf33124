// The index: chains of nodes by a hash of the class key, newest first, in the link of each row. One walk of a chain gives
// the node of a tree and the class of its equals.
ghost use Rattle.std.specs.Prelude.{◌≡◌};
ghost use Rattle.store.specs.Memory.{memory, room, class_at};
ghost use Rattle.store.specs.Index.{word_key, key_of, bucket_of, head_for, entered};
ghost use Rattle.store.specs.Walk.{Meets, Scans, Finds};

use super::fields::{code_in, head_in, home_in, next_in, with_head, with_node};
use super::hash::hash_of;
use super::node::Fields;
use super::reading::class_at;
use super::words::{first_at, link_at, put_link, put_row, second_at, tag_at};
use complex::bits::class_of_bits;

// The kinds from which on a node's first word is an operand, and its second.
const FIRST_OPERANDS: u64 = 5;

const SECOND_OPERANDS: u64 = 7;

// So many nodes of a chain are walked; in a full store chains of more than 6 are rare.
const LONGEST: usize = 16;

// How a node meets what is sought: it is it, it has the same key, or neither.
#[derive(Clone, Copy)]
pub enum Meeting {
    Own,
    Kin,
    Stranger,
}

// What stands for a word of a node in its key, by the node's kind: the class of a double; from the kind `operands` on the class of an
// operand; else the word.
fn word_key(store: &[[u64; 4]], operands: u64, kind: u64, word: u64) -> u64
    ensures { result ≡ word_key (class_at (memory store.now)) operands kind word }
{
    if kind == 1 {
        return class_of_bits(word);
    }
    if kind < operands {
        return word;
    }
    class_at(store, word as usize)
}

// The fields with classes in place of operands and of doubles.
pub fn key_of(store: &[[u64; 4]], f: Fields) -> Fields
    ensures { result ≡ key_of (class_at (memory store.now)) f }
{
    let kind = f.code % 8;
    Fields {
        code: f.code,
        first: word_key(store, FIRST_OPERANDS, kind, f.first),
        second: word_key(store, SECOND_OPERANDS, kind, f.second),
    }
}

// The bucket of a key, of twice as many as there are places for nodes: its hash, scaled down without a division.
pub fn bucket_of(places: usize, key: Fields) -> usize
    ensures { result ≡ bucket_of places key }
{
    (hash_of(key) * (places as u64 % 65536) / 2147483648) as usize
}

// How a node meets fields that are sought with their key. Most nodes that are met are the one that is sought; of a stranger the
// first word tells, before anything is read of its operands.
fn meet(store: &[[u64; 4]], k: usize, f: Fields, key: Fields) -> Meeting
    ensures { key ≡ key_of (class_at (memory store.now)) f → Meets (memory store.now) k f key result }
{
    if code_in(tag_at(store, k)) != f.code {
        return Meeting::Stranger;
    }
    let kind = f.code % 8;
    let first = first_at(store, k);
    let second = second_at(store, k);
    if first == f.first {
        if second == f.second {
            return Meeting::Own;
        }
    }
    if word_key(store, FIRST_OPERANDS, kind, first) != key.first {
        return Meeting::Stranger;
    }
    if word_key(store, SECOND_OPERANDS, kind, second) == key.second {
        return Meeting::Kin;
    }
    Meeting::Stranger
}

// The same where most nodes that are met are strangers, as far down a long chain: by the key first, which tells of these alone.
fn meet_far(store: &[[u64; 4]], k: usize, f: Fields, key: Fields) -> Meeting
    ensures { key ≡ key_of (class_at (memory store.now)) f → Meets (memory store.now) k f key result }
{
    if code_in(tag_at(store, k)) != f.code {
        return Meeting::Stranger;
    }
    let kind = f.code % 8;
    let first = first_at(store, k);
    let second = second_at(store, k);
    if word_key(store, FIRST_OPERANDS, kind, first) != key.first {
        return Meeting::Stranger;
    }
    if word_key(store, SECOND_OPERANDS, kind, second) != key.second {
        return Meeting::Stranger;
    }
    if first != f.first {
        return Meeting::Kin;
    }
    if second != f.second {
        return Meeting::Kin;
    }
    Meeting::Own
}

// The head of a bucket, of n nodes, as a number plus one or 0, which `find` begins with and `enter` writes. Where no node was entered the word may
// hold anything: a number counts if it is a node's whose home is this bucket. So nothing is cleared before the first node.
pub fn head_of(store: &[[u64; 4]], n: usize, bucket: usize) -> usize
    ensures { result ≡ head_for (memory store.now) n bucket }
{
    let head = head_in(bucket, link_at(store, bucket / 2)) as usize;
    if head == 0 {
        return 0;
    }
    if n < head {
        return 0;
    }
    if home_in(tag_at(store, head - 1)) == bucket as u64 {
        head
    } else {
        0
    }
}

// What is left of a long chain: all nodes below `at`, row by row. No row has to wait for the one before, as in a chain, so that
// numbers that were searched until they fell in one bucket cost little more than others. A function of its own in the archive: within `add`
// too few registers are left for its loop, which took twice the time there.
#[inline(never)]
fn scan(
    store: &[[u64; 4]],
    n: usize,
    f: Fields,
    key: Fields,
    at: usize,
    class: usize,
) -> Result<usize, usize>
    ensures { Scans (memory store.now) n f key at class result }
{
    let mut kin = class;
    for node in (0..at).rev() {
        match meet_far(store, node, f, key) {
            Meeting::Own => return Ok(node),
            Meeting::Kin => kin = class_at(store, node) as usize,
            Meeting::Stranger => (),
        }
    }
    Err(kin)
}

// The node that is sought, or, where there is none, the class of its equals, or n: by a walk from the head of a chain. Each next is an older
// node; `min` makes that so in any memory. `at` is a number plus one, as the links have it: an Option would take 1 off at each step, and
// `scan` add it again.
pub fn find(
    store: &[[u64; 4]],
    n: usize,
    f: Fields,
    key: Fields,
    head: usize,
) -> Result<usize, usize>
    ensures { Finds (memory store.now) n f key head result }
{
    let mut at = head;
    let mut class = n;
    let mut left = LONGEST;
    while at != 0 {
        if left == 0 {
            return scan(store, n, f, key, at, class);
        }
        let k = at - 1;
        match meet(store, k, f, key) {
            Meeting::Own => return Ok(k),
            Meeting::Kin => class = class_at(store, k) as usize,
            Meeting::Stranger => (),
        }
        at = (next_in(link_at(store, k)) as usize).min(k);
        left -= 1;
    }
    Err(class)
}

// Node n is written, joins its class, with nothing kept, and becomes the head of its chain, before `head`.
pub fn enter(
    store: &mut [[u64; 4]],
    n: usize,
    tag: u64,
    first: u64,
    second: u64,
    class: usize,
    head: usize,
    bucket: usize,
)
    ensures { memory store.new ≡ entered (memory store.old) n tag first second class head bucket }
{
    let own = with_node(link_at(store, n), class as u64, head as u64);
    put_row(store, n, tag, first, second, own);
    let word = link_at(store, bucket / 2);
    put_link(store, bucket / 2, with_head(bucket, word, n as u64));
}
