#![tactic(auto)]
// Natural orders for a whole store (`hf_pass.rs`).
ghost use Rattle.std.specs.Prelude.{◌≡◌, ◌*◌, ◌<◌, length};
ghost use Rattle.order_sizes.specs.BlockSizes.{width_of, height_of};
ghost use Rattle.order_natural.specs.laws.Filling.{three_of};
ghost use Rattle.order_naturals.specs.laws.Naturals.{whole_store, natural_store};

use order_natural::fill_natural_order;
use order_sizes::block_size;
use order_small::fill_small_order;
use order_store::NUMBERS;

// The natural order of a size, for channels 0, 1, 2: orders 0 to 6 from the table, the others walked.
fn fill_order(lists: &mut [u16], order: usize)
    requires { (order < 13) × (length lists.old ≡ 3 * (2 * (width_of order * height_of order))) }
    ensures { lists.new ≡ three_of order }
{
    if order < 7 {
        fill_small_order(lists, order);
        return;
    }
    fill_natural_order(lists, order);
}

// The natural order of each size, for all three channels; false, and nothing written, if the store has another length:
// a test's answer, as `whole_store` is one.
pub fn fill_natural_orders(store: &mut [u16]) -> bool
    ensures { (result ≡ whole_store store.old) × (store.new ≡ natural_store store.old) }
{
    if store.len() != NUMBERS {
        return false;
    }
    let mut first = 0;
    for k in 0..13 {
        let size = block_size(k);
        let width = size.width;
        let height = size.height;
        let e = first + 3 * (2 * (width * height));
        fill_order(&mut store[first..e], k);
        first = e;
    }
    true
}
