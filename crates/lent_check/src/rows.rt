// A row of a lent layout: corners of more than one block are placed, then each x is seen to be covered just once. Of each
// x its depth is kept, in a byte: how many rows are covered, from the row on that is looked at.
ghost use Rattle.std.specs.Prelude.{◌≡◌, cond, ◌+◌, ◌-◌, ◌*◌, ◌≤◌, ◌<◌, max, ltb, length, get_or};
ghost use Rattle.layout.specs.Kinds.{wide_of, high_of};
ghost use Rattle.layout.specs.RowByRow.{along_row};
ghost use Rattle.layout.specs.Grid.{block_at};
ghost use Rattle.layout.specs.Check.{Fault, Until, fitting};
ghost use Rattle.lent_check.specs.laws.Steps.{place_cell, place, close};
ghost use Rattle.lent_check.specs.laws.Listing.{Flags, Flagged, looked, Listed};
ghost use Rattle.lent_check.specs.laws.Claims.{claimed};

use lent_cells::{gap, larger};
use lent_sides::sizes::{HIGH, WIDE, size_of};
use std::hint::select_unpredictable;

// The first four of n numbers from x on, which must be clear, now have depth v. No branch hangs on how many there are, which
// cannot be guessed; most corners have no more than four. Three numbers beyond the last are there to be looked at with it.
fn claim_four(depth: &mut [u8; 259], x: usize, n: usize, v: u8) -> bool
    requires { x < 256 }
    ensures { cond result (claimed depth.new (x + 4) (n - 4) v) Fault ≡ claimed depth.old x n v }
{
    let mut found = 0;
    for i in 0..4 {
        let old = depth[x + i];
        found = found.max(select_unpredictable(i < n, old, 0));
        depth[x + i] = select_unpredictable(i < n, v, old);
    }
    found == 0
}

// The n numbers from x on, which must be clear, now have depth v.
fn claim(depth: &mut [u8; 259], x: usize, n: usize, v: u8) -> bool
    requires { (x < 256) × (x + n ≤ 256) }
    ensures { cond result (Until depth.new) Fault ≡ claimed depth.old x n v }
{
    if !claim_four(depth, x, n, v) {
        return false;
    }
    for i in x + 4..x + n {
        if 0 < depth[i] {
            return false;
        }
        depth[i] = v;
    }
    true
}

// A corner of this kind, w x h blocks, may stand at (x, y).
#[tactic(auto, using(layout::proofs::laws::Kinds::wide_sized, layout::proofs::laws::Kinds::high_sized), unfolding(layout::specs::Check::fitting))]
fn fits(bw: usize, bh: usize, kind: u8, w: usize, h: usize, x: usize, y: usize) -> bool
    requires { (x < 256) × (y < 256) × (2 ≤ kind) × (w ≡ wide_of kind) × (h ≡ high_of kind) }
    ensures { result ≡ fitting bw bh x y kind 1 }
{
    kind <= 28 && x + w <= bw && y + h <= bh && x % 32 + w <= 32 && y % 32 + h <= 32
}

// A corner of more than one block, at (x, y), on clear x's; any other cell is passed.
fn place_cell(depth: &mut [u8; 259], bw: usize, bh: usize, kind: u8, x: usize, y: usize) -> bool
    requires { (x < bw) × (bw ≤ 256) × (y < bh) × (bh ≤ 256) }
    ensures { cond result (Until depth.new) Fault ≡ place_cell bw bh kind x y depth.old }
{
    if larger(kind) == 0 {
        return true;
    }
    if kind < 2 {
        return false;
    }
    let size = size_of(&WIDE, &HIGH, kind);
    let w = size.wide;
    let h = size.high;
    if !fits(bw, bh, kind, w, h, x, y) {
        return false;
    }
    claim(depth, x, w, h as u8)
}

// Which x's of row y are looked at: 1 for each of them, many at a time.
fn flag_row(flags: &mut [u8; 256], bw: usize, kinds: &[u8], y: usize)
    requires { (bw ≤ 256) × (y < 256) × ((y + 1) * bw ≤ length kinds.now) × (length flags.old ≡ 256) }
    ensures { Flagged (block_at kinds.now bw) y bw flags.new }
{
    let start = y * bw;
    for x in 0..bw {
        flags[x] = larger(kinds[start + x]);
    }
}

// The x's that are flagged, from the first: how many, and as many elements of the list. No branch hangs on a flag, which
// cannot be guessed.
fn list_row(list: &mut [u8; 256], flags: &[u8; 256], bw: usize) -> usize
    requires { (bw ≤ 256) × (length list.old ≡ 256) × Flags bw flags.now }
    ensures { Listed (looked (λ x. get_or flags.now x 0) bw 0) result list.new }
{
    let mut n = 0;
    for x in 0..bw {
        list[n] = x as u8;
        n += usize::from(flags[x]);
    }
    n
}

// The corners of more than one block in row y.
pub(crate) fn place_row(depth: &mut [u8; 259], bw: usize, bh: usize, kinds: &[u8], y: usize) -> bool
    requires { (bw ≤ 256) × (y < bh) × (bh ≤ 256) × (length kinds.now ≡ bh * bw) }
    ensures { cond result (Until depth.new) Fault ≡ along_row (place bw bh (block_at kinds.now bw)) bw 0 y (Until depth.old) }
{
    let start = y * bw;
    let mut list = [0u8; 256];
    let mut flags = [0u8; 256];
    flag_row(&mut flags, bw, kinds, y);
    let n = list_row(&mut list, &flags, bw);
    for &listed in &list[..n] {
        let x = usize::from(listed);
        let kind = kinds[start + x];
        if !place_cell(depth, bw, bh, kind, x, y) {
            return false;
        }
    }
    true
}

// Row y has no gap; depths count from the next row on then. The loop has no early exit, and all in it is bytes, so that 16
// x's are taken at a time.
pub(crate) fn close_row(depth: &mut [u8; 259], bw: usize, kinds: &[u8], y: usize) -> bool
    requires { (bw ≤ 256) × (y < 256) × ((y + 1) * bw ≤ length kinds.now) }
    ensures { cond result (Until depth.new) Fault ≡ along_row (close (block_at kinds.now bw)) bw 0 y (Until depth.old) }
{
    let start = y * bw;
    let mut gaps = 0;
    for x in 0..bw {
        let v = depth[x];
        gaps = gaps.max(gap(kinds[start + x], v));
        depth[x] = v.saturating_sub(1);
    }
    gaps == 0
}
