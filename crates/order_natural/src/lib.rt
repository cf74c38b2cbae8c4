#![tactic(auto)]
// The natural order of a block size, walked (`hf_pass.rs`). A diagonal is laid by eights: up to seven cells, 14 numbers, behind
// its end are written too, and laid over next. So there is that much room behind what is laid.
ghost use Rattle.std.specs.Prelude.{◌≡◌, ℕ, ◌+◌, ◌-◌, ◌*◌, ◌/◌, ◌<◌, ◌≤◌, length};
ghost use Rattle.order_natural.specs.Places.{flat};
ghost use Rattle.order_natural.specs.Natural.{rows, diagonal, square, keep, natural};
ghost use Rattle.order_natural.specs.Order.{Size};
ghost use Rattle.order_natural.specs.laws.Filling.{room_for, filled};
ghost use Rattle.laws.specs.laws.Laid.{Laid};
ghost use Rattle.order_natural.specs.laws.Turns.{rest_of_row};
ghost use Rattle.order_natural.specs.laws.Slants.{multiples, ups, downs, near};

use order_copies::copy_twice;
use order_sizes::{OrderSize, block_size};

// y / s; the constants spare a division for the ratios that orders 7 to 12 have.
fn quotient(y: usize, s: usize) -> usize
    requires { 0 < s }
    ensures { result ≡ y / s }
{
    if s == 1 {
        return y;
    }
    if s == 2 {
        return y / 2;
    }
    y / s
}

// How many multiples of s are below u.
fn multiples_below(u: usize, s: usize) -> usize
    requires { (0 < s) × (s ≤ 256) × (u < 512) }
    ensures { result ≡ multiples s u }
{
    quotient(u + (s - 1), s)
}

// Of the diagonal x + y = t the cells in n rows q * s, q upwards from `first`, and others behind them, whose x may wrap. The place
// runs along, and `m` is a product by 8: with `start + 2 * j` or `next_multiple_of` there is a slower loop for what is left of an eight.
fn put_up(list: &mut [u16], start: usize, t: u16, s: u16, first: u16, n: usize) -> usize
    requires { (start + 2 * n + 14 ≤ length list.old) × (first + n ≤ 1024) × ((q : ℕ) → q < first + n → q * s ≤ t) }
    ensures { Laid list.old list.new start (flat (ups t s n first)) result }
{
    if n == 0 {
        return start;
    }
    let m = n.div_ceil(8) * 8;
    let mut at = start;
    let mut q = first;
    let mut x = t - first * s;
    for _j in 0..m {
        list[at] = x;
        list[at + 1] = q;
        at += 2;
        q += 1;
        x = x.wrapping_sub(s);
    }
    start + 2 * n
}

// The same downwards from below `end`. A function of its own: one for both ways would have rows that wrap in its contract.
fn put_down(list: &mut [u16], start: usize, t: u16, s: u16, end: u16, n: usize) -> usize
    requires { (start + 2 * n + 14 ≤ length list.old) × (n ≤ end) × (end ≤ 1024) × ((q : ℕ) → q < end → q * s ≤ t) }
    ensures { Laid list.old list.new start (flat (downs t s n end)) result }
{
    if n == 0 {
        return start;
    }
    let m = n.div_ceil(8) * 8;
    let mut at = start;
    let mut row = end - 1;
    let mut x = t - row * s;
    for _j in 0..m {
        list[at] = x;
        list[at + 1] = row;
        at += 2;
        row = row.wrapping_sub(1);
        x = x.wrapping_add(s);
    }
    start + 2 * n
}

// A square that is walked by its diagonals: the corner that was laid before is left out, and of the rows only each `step`-th is
// laid. Sides in cells.
#[derive(Clone, Copy)]
struct Walk {
    side: usize,
    corner: usize,
    step: usize,
    ghost in_range: { (0 < step) × (step ≤ 256) × (0 < corner) × (2 * corner ≤ side) × (side ≤ 256) },
}

// A diagonal that crosses the corner: the rows on both sides of it.
fn put_near(list: &mut [u16], start: usize, walk: Walk, dist: usize) -> usize
    requires { (0 < dist) × (walk.corner ≤ dist) × (dist < 512) × (start + length (flat (near walk.corner walk.step dist)) + 14 ≤ length list.old) }
    ensures { Laid list.old list.new start (flat (near walk.corner walk.step dist)) result }
{
    let w = walk.corner;
    let s = walk.step;
    let rest = multiples_below(dist - w, s);
    let lowest = multiples_below(w, s);
    let highest = multiples_below(dist, s);
    let t = (dist - 1) as u16;
    let k = s as u16;
    let n = highest - lowest;
    if dist % 2 == 1 {
        let at = put_down(list, start, t, k, highest as u16, n);
        return put_down(list, at, t, k, rest as u16, rest);
    }
    let at = put_up(list, start, t, k, 0, rest);
    put_up(list, at, t, k, lowest as u16, n)
}

// A diagonal that passes the corner: all its rows.
fn put_far(list: &mut [u16], start: usize, walk: Walk, dist: usize) -> usize
    requires { (2 * walk.corner ≤ dist) × (0 < dist) × (dist < 512) × (dist ≤ 2 * walk.side) × (start + length (flat (keep walk.corner walk.step (diagonal walk.side dist))) + 14 ≤ length list.old) }
    ensures { Laid list.old list.new start (flat (keep walk.corner walk.step (diagonal walk.side dist))) result }
{
    let s = walk.step;
    let m = dist.saturating_sub(walk.side);
    let lowest = multiples_below(m, s);
    let highest = multiples_below(dist - m, s);
    let t = (dist - 1) as u16;
    let n = highest - lowest;
    if dist % 2 == 0 {
        return put_up(list, start, t, s as u16, lowest as u16, n);
    }
    put_down(list, start, t, s as u16, highest as u16, n)
}

// A diagonal: in the corner there is nothing to write, and outside there is a place for each row divisible by s.
fn put_diagonal(list: &mut [u16], start: usize, walk: Walk, dist: usize) -> usize
    requires { (0 < dist) × (dist < 512) × (dist ≤ 2 * walk.side) × (start + length (flat (keep walk.corner walk.step (diagonal walk.side dist))) + 14 ≤ length list.old) }
    ensures { Laid list.old list.new start (flat (keep walk.corner walk.step (diagonal walk.side dist))) result }
{
    let w = walk.corner;
    if dist <= w {
        return start;
    }
    if dist < 2 * w {
        return put_near(list, start, walk, dist);
    }
    put_far(list, start, walk, dist)
}

fn put_square(list: &mut [u16], start: usize, walk: Walk) -> usize
    requires { start + length (flat (keep walk.corner walk.step (square walk.side))) + 14 ≤ length list.old }
    ensures { Laid list.old list.new start (flat (keep walk.corner walk.step (square walk.side))) result }
{
    let mut at = start;
    for dist in 1..2 * walk.side {
        at = put_diagonal(list, at, walk, dist);
    }
    at
}

fn put_row(list: &mut [u16], start: usize, w: usize, y: usize) -> usize
    requires { (w < 512) × (y < 512) × (start + length (rest_of_row w y 0) ≤ length list.old) }
    ensures { Laid list.old list.new start (rest_of_row w y 0) result }
{
    let mut at = start;
    for x in 0..w {
        list[at] = x as u16;
        list[at + 1] = y as u16;
        at += 2;
    }
    at
}

fn put_corner(list: &mut [u16], start: usize, w: usize, h: usize) -> usize
    requires { (w < 512) × (h < 512) × (start + length (flat (rows w h)) ≤ length list.old) }
    ensures { Laid list.old list.new start (flat (rows w h)) result }
{
    let mut at = start;
    for y in 0..h {
        at = put_row(list, at, w, y);
    }
    at
}

fn put_natural(list: &mut [u16], size: OrderSize)
    requires { (Size size.width size.height) × (size.width ≤ 256) × (2 * (size.width * size.height) + 14 ≤ length list.old) }
    ensures { Laid list.old list.new 0 (flat (natural size.width size.height)) (2 * (size.width * size.height)) }
{
    let walk = Walk {
        side: size.width,
        corner: size.width / 8,
        step: size.width / size.height,
    };
    let at = put_corner(list, 0, walk.corner, size.height / 8);
    put_square(list, at, walk);
}

// The natural order of one of the 13 sizes, in each of three lists; false, and nothing written, if there is no such order or
// the lists are not as long: a test's answer, as `room_for` is one.
pub fn fill_natural_order(lists: &mut [u16], order: usize) -> bool
    ensures { (result ≡ room_for lists.old order) × (lists.new ≡ filled lists.old order) }
{
    if 13 <= order {
        return false;
    }
    let size = block_size(order);
    if lists.len() != 3 * (2 * (size.width * size.height)) {
        return false;
    }
    put_natural(lists, size);
    copy_twice(lists);
    true
}
