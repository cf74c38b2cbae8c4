#![tactic(auto)]
// The check of stored places (refusal 13 of the coefficient call).
ghost use Rattle.std.specs.Prelude.{◌≡◌, length};
ghost use Rattle.order_store.specs.Store.{inside_all, places_fit};
ghost use Rattle.order_places.specs.laws.Powers.{Power};
ghost use Rattle.order_places.specs.laws.Ors.{or_each};

use order_sizes::{OrderSize, block_size};
use order_store::NUMBERS;

// Whether each x, y of a few is inside a size whose sides are powers of two: all x are below a power of two just if the or of all
// is, and all y likewise.
fn few_inside(list: &[u16], size: OrderSize) -> bool
    requires { Power size.width × Power size.height }
    ensures { result ≡ inside_all size.width size.height list.now }
{
    let mut xs: u16 = 0;
    let mut ys: u16 = 0;
    for i in 0..list.len() / 2 {
        xs |= list[2 * i];
        ys |= list[2 * i + 1];
    }
    usize::from(xs) < size.width && usize::from(ys) < size.height
}

// Number by number the or with a part of 64.
fn or_into(ors: &mut [u16; 64], part: &[u16; 64])
    requires { (length ors.old ≡ 64) × (length part.now ≡ 64) }
    ensures { ors.new ≡ or_each ors.old part.now }
{
    for j in 0..64 {
        ors[j] |= part[j];
    }
}

// Whether each x, y is inside a size, 32 places at a time.
fn all_inside(list: &[u16], size: OrderSize) -> bool
    requires { Power size.width × Power size.height }
    ensures { result ≡ inside_all size.width size.height list.now }
{
    let mut ors = [0u16; 64];
    let (parts, rest) = list.as_chunks::<64>();
    for part in parts {
        or_into(&mut ors, part);
    }
    few_inside(&ors, size) && few_inside(rest, size)
}

// Whether a store is whole and every place of its 39 lists inside its order's size.
pub fn places_fit(store: &[u16]) -> bool
    ensures { result ≡ places_fit store.now }
{
    if store.len() != NUMBERS {
        return false;
    }
    let mut first = 0;
    for i in 0..39 {
        let size = block_size(i / 3);
        let e = first + 2 * (size.width * size.height);
        if !all_inside(&store[first..e], size) {
            return false;
        }
        first = e;
    }
    true
}
