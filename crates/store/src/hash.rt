// The hash of a key. Any function of the key would do, so nothing is known of this one but that it is below 2^32. It mixes: each word goes
// through two products whose factors both hang on the key, so that keys with one hash can be searched for, and not computed.
ghost use Rattle.std.specs.Prelude.{◌≡◌};
ghost use Rattle.store.specs.Hash.{hash};
ghost use Rattle.store.specs.Hash as Hash;

use super::node::Fields;

// A product that no word makes vanish: its factors are at least 1 and 2^31.
fn product(x: u64, y: u64) -> u64
    ensures { result ≡ Hash.product x y }
{
    (x % 4294967296 + 1) * (y % 2147483648 + 2147483648)
}

// First a product of the halves of each word, then one of both products and the halves again; of that the halves, added up.
pub fn hash_of(key: Fields) -> u64
    ensures { result ≡ hash key }
{
    let low = key.first % 4294967296;
    let high = key.first / 4294967296;
    let p = product(low + 1013904223, high + key.code % 64 * 640531527);
    let low2 = key.second % 4294967296;
    let high2 = key.second / 4294967296;
    let q = product(low2 + 747796405, high2 + 829304459);
    let x = (p / 4294967296 + q % 4294967296) % 4294967296 + (low + high) % 4294967296;
    let y = (p % 4294967296 + q / 4294967296) % 4294967296 + (low2 + high2) % 4294967296;
    let r = product(x, y);
    (r / 4294967296 + r % 4294967296) % 4294967296
}
