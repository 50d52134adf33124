// The fields of the two packed words of a node. `tag` has the code, size and depth, and the bucket that is the node's home; above
// them, from the 46th bit on, the node's origin, which `origins::words` has; its upper 7 bits are free.
// `link` has the heads of the two buckets 2k and 2k + 1, for node k, and the node's class, kept result and next
// in its bucket. Heads, results and nexts are numbers of nodes plus one, so that 0 says none.
ghost use Rattle.std.specs.Prelude.{◌≡◌};
ghost use Rattle.store.specs.Words.{code_in, size_in, depth_in, home_in, head_in, class_in, kept_in, next_in};
ghost use Rattle.store.specs.Words as Words;

// The kind by the tape's opcodes, and eight times the operator's or function's number.
pub fn code_of(kind: u64, operator: u64) -> u64
    ensures { result ≡ Words.code_of kind operator }
{
    kind % 8 + 8 * (operator % 8)
}

pub fn code_in(tag: u64) -> u64
    ensures { result ≡ code_in tag }
{
    tag % 64
}

pub fn size_in(tag: u64) -> u64
    ensures { result ≡ size_in tag }
{
    tag / 64 % 1048576
}

pub fn depth_in(tag: u64) -> u64
    ensures { result ≡ depth_in tag }
{
    tag / 67108864 % 128
}

pub fn home_in(tag: u64) -> u64
    ensures { result ≡ home_in tag }
{
    tag / 8589934592 % 8192
}

pub fn tag_of(code: u64, size: u64, depth: u64, home: u64) -> u64
    ensures { result ≡ Words.tag_of code size depth home }
{
    code % 64 + 64 * (size % 1048576) + 67108864 * (depth % 128) + 8589934592 * (home % 8192)
}

// The head of a bucket, from the word that has it: two buckets share a word.
pub fn head_in(bucket: usize, link: u64) -> u64
    ensures { result ≡ head_in bucket link }
{
    if bucket % 2 == 0 {
        link % 8192
    } else {
        link / 8192 % 8192
    }
}

pub fn class_in(link: u64) -> u64
    ensures { result ≡ class_in link }
{
    link / 67108864 % 4096
}

pub fn kept_in(link: u64) -> u64
    ensures { result ≡ kept_in link }
{
    link / 274877906944 % 8192
}

pub fn next_in(link: u64) -> u64
    ensures { result ≡ next_in link }
{
    link / 2251799813685248
}

// A new node's class and next, with nothing kept; the heads stay.
pub fn with_node(link: u64, class: u64, next: u64) -> u64
    ensures { result ≡ Words.with_node link class next }
{
    link % 67108864 + 67108864 * (class % 4096) + 2251799813685248 * (next % 8192)
}

// Node `head` as the head of the bucket; all else stays.
pub fn with_head(bucket: usize, link: u64, head: u64) -> u64
    ensures { result ≡ Words.with_head bucket link head }
{
    let next = head % 4096 + 1;
    if bucket % 2 == 0 {
        next + 8192 * (link / 8192)
    } else {
        link % 8192 + 8192 * next + 67108864 * (link / 67108864)
    }
}

// Node `kept` as the kept result; all else stays.
pub fn with_kept(link: u64, kept: u64) -> u64
    ensures { result ≡ Words.with_kept link kept }
{
    link % 274877906944
        + 274877906944 * (kept % 4096 + 1)
        + 2251799813685248 * (link / 2251799813685248)
}
