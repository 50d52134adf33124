// Nodes that are numbers: whether a node is one, which, and a node that becomes one. So what is worked out of a node is kept in
// its own row, and a node that many share is visited once.
ghost use Rattle.std.specs.Prelude.{◌≡◌};
ghost use Rattle.complex.specs.Bits.{Fitting};
ghost use Rattle.store.specs.Memory.{memory};
ghost use Rattle.store.specs.Numbers.{Tells, IsNumber, number_at, with_number};

use super::words::{first_at, put_row, second_at, tag_at};
use complex::Complex;
use complex::bits::{from_bits, to_bits};

// By the kind in the tag: no expression is made of the node.
pub fn is_number(store: &[[u64; 4]], i: usize) -> bool
    ensures { Tells result (IsNumber (memory store.now) i) }
{
    tag_at(store, i) % 8 == 1
}

// The number that node i is, if it is one.
pub fn number_at(store: &[[u64; 4]], i: usize) -> Complex
    ensures { result ≡ number_at (memory store.now) i }
{
    Complex {
        re: from_bits(first_at(store, i)),
        im: from_bits(second_at(store, i)),
    }
}

// Node i becomes the number z; past the end nothing does. The rows are a store no longer: size, class and index are gone.
pub fn put_number(store: &mut [[u64; 4]], i: usize, z: Complex)
    ensures store_after { memory store.new ≡ with_number (memory store.old) i z }
    ensures fitting { Fitting z }
{
    put_row(store, i, 1, to_bits(z.re), to_bits(z.im), 0);
}
