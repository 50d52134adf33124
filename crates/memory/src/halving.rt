// Where a key stands among ascending keys of rows in a lent table: at its distance from the lowest, if no key is left out, else by
// halving.
ghost use Rattle.std.specs.Prelude.{◌<◌, ◌≤◌, IfSome};
ghost use Rattle.memory.specs.Keys.{key_at, Ascends, FirstOf, holds};

use super::read;

// No kind has more rows than this.
const MOST: usize = 1024;

// The number of the row with this key, if there is one; rows of `step` words stand from `from` on, the key first. So a key is no element
// of a slice, which the library's search wants: this one halves by hand.
pub fn search(table: &[u64], from: usize, step: usize, count: usize, key: u64) -> Option<usize>
    requires { (from ≤ 8192) × (step ≤ 7) }
    ensures within { IfSome result (λ j. (j < count) × (j < 1024)) }
    ensures first { count ≤ 1024 → Ascends (key_at table.now from step) count → FirstOf (holds (key_at table.now from step) key) count result }
{
    if MOST < count {
        return None;
    }
    let lowest = read(table, from);
    if key < lowest {
        return None;
    }
    let distance = key - lowest;
    if distance < count as u64 {
        let guess = distance as usize;
        if read(table, step * guess + from) == key {
            return Some(guess);
        }
    }
    let mut low: usize = 0;
    let mut high = count;
    while low < high {
        let middle = low + (high - low) / 2;
        let stands = read(table, step * middle + from);
        if stands == key {
            return Some(middle);
        }
        if stands < key {
            low = middle + 1;
        } else {
            high = middle;
        }
    }
    None
}
