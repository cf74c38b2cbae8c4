#![tactic(auto)]
// The store of the orders, and a list looked up in it (`hf_pass.rs`).
ghost use Rattle.std.specs.Prelude.{◌≡◌, ◌+◌, ◌*◌, ◌<◌};
ghost use Rattle.order_sizes.specs.BlockSizes.{width_of, height_of};
ghost use Rattle.order_store.specs.Store.{stretch, first_of};
ghost use Rattle.order_store.specs.LookedUp.{stretch_at};

// The numbers of a whole store: two for each of 393,984 places.
pub const NUMBERS: usize = 787968;

// Where the three lists of an order begin. A `match`, since a constant array is laid out anew wherever it is named.
#[tactic(auto, using(crate::specs::laws::Offsets::first_at))]
fn first_of(order: usize) -> usize
    requires { order < 13 }
    ensures { result ≡ first_of (3 * order) }
{
    match order {
        0 => 0,
        1 => 384,
        2 => 768,
        3 => 2304,
        4 => 8448,
        5 => 9216,
        6 => 10752,
        7 => 13824,
        8 => 38400,
        9 => 50688,
        10 => 148992,
        11 => 198144,
        _ => 591360,
    }
}

// The numbers of one list of an order.
#[tactic(auto, using(crate::specs::laws::Offsets::count_at))]
fn numbers_of(order: usize) -> usize
    requires { order < 13 }
    ensures { result ≡ 2 * (width_of order * height_of order) }
{
    match order {
        0 => 128,
        1 => 128,
        2 => 512,
        3 => 2048,
        4 => 256,
        5 => 512,
        6 => 1024,
        7 => 8192,
        8 => 4096,
        9 => 32768,
        10 => 16384,
        11 => 131072,
        _ => 65536,
    }
}

// A part of the store: its first number, and how many.
#[derive(Clone, Copy)]
pub struct Stretch {
    pub first: usize,
    pub len: usize,
}

// Where a list lies in a store of so many numbers; nowhere, 0 of 0, if there is none, as `stretch_at` and the C interface have it.
pub fn stretch_of(numbers: usize, order: usize, channel: usize) -> Stretch
    ensures { result ≡ stretch_at numbers order channel }
{
    if 13 <= order {
        return Stretch { first: 0, len: 0 };
    }
    if 3 <= channel {
        return Stretch { first: 0, len: 0 };
    }
    if numbers != NUMBERS {
        return Stretch { first: 0, len: 0 };
    }
    let n = numbers_of(order);
    let first = first_of(order) + channel * n;
    Stretch { first, len: n }
}

// The list of an order and a channel, x, y by x, y; empty where there is none.
pub fn order(store: &[u16], order: usize, channel: usize) -> &[u16]
    ensures { result.now ≡ stretch store.now order channel }
{
    let s = stretch_of(store.len(), order, channel);
    &store[s.first..s.first + s.len]
}
