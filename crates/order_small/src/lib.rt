#![tactic(auto)]
// Natural orders 0 to 6 from a constant table (document 02, No. 3).
use crate::table::{ORDER_0, ORDER_1, ORDER_2, ORDER_3, ORDER_4, ORDER_5, ORDER_6};
use order_copies::copy_twice;
use order_sizes::block_size;

pub mod table;

ghost use Rattle.std.specs.Prelude.{◌≡◌, map, ◌*◌, ◌<◌, length};
ghost use Rattle.order_sizes.specs.BlockSizes.{width_of, height_of};
ghost use Rattle.order_natural.specs.Places.{flat, paired};
ghost use Rattle.order_natural.specs.Natural.{natural};
ghost use Rattle.order_natural.specs.Order.{Facts};
ghost use Rattle.order_small.specs.laws.Coordinates.{coordinate_of};
ghost use Rattle.order_small.specs.laws.Small.{small_room, small_filled};

// What a digit to the base 32 stands for: 0 to 9, then a to v.
#[tactic(auto, unfolding(crate::specs::laws::Coordinates::coordinate_of))]
fn coordinate(c: u8) -> u8
    ensures { result ≡ coordinate_of c }
{
    if c < 64 { c % 16 } else { c % 32 + 9 }
}

// A stretch of the table, as numbers.
fn put_stretch(list: &mut [u16], stretch: &[u8])
    requires { length list.old ≡ length stretch.now }
    ensures { list.new ≡ map coordinate_of stretch.now }
{
    for (j, &c) in stretch.iter().enumerate() {
        list[j] = u16::from(coordinate(c));
    }
}

// An order below 7 as the table has it: the natural order, which has each cell once.
fn put_small(list: &mut [u16], order: usize)
    requires { (order < 7) × (length list.old ≡ 2 * (width_of order * height_of order)) }
    ensures { (list.new ≡ flat (natural (width_of order) (height_of order))) × (Facts (width_of order) (height_of order) (paired list.new)) }
{
    match order {
        0 => put_stretch(list, &ORDER_0),
        1 => put_stretch(list, &ORDER_1),
        2 => put_stretch(list, &ORDER_2),
        3 => put_stretch(list, &ORDER_3),
        4 => put_stretch(list, &ORDER_4),
        5 => put_stretch(list, &ORDER_5),
        _ => put_stretch(list, &ORDER_6),
    }
}

// The natural order of one of orders 0 to 6, in each of three lists; false, and nothing written, if it is another order or the
// lists are not as long: a test's answer, as `small_room` is one. It and `fill_natural_order` differ in more than the limit, as
// `small_filled` and `filled` say.
pub fn fill_small_order(lists: &mut [u16], order: usize) -> bool
    ensures { (result ≡ small_room lists.old order) × (lists.new ≡ small_filled lists.old order) }
{
    if 7 <= order {
        return false;
    }
    let size = block_size(order);
    let width = size.width;
    let height = size.height;
    let n = 2 * (width * height);
    if lists.len() != 3 * n {
        return false;
    }
    put_small(&mut lists[0..n], order);
    copy_twice(lists);
    true
}
