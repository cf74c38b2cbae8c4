// The cut of a lent layout into pass groups, counted row by row from 0.
ghost use Rattle.std.specs.Prelude.{◌≡◌, true, ◌+◌, ◌*◌, ◌≤◌, ◌<◌, length};
ghost use Rattle.layout.specs.Grid.{block_at, grid_of};
ghost use Rattle.layout.specs.Cut.{groups, group_x, group_y, has_group, side, bw_of_group, bh_of_group};
ghost use Rattle.refusal.specs.Answer.{gives, answered};
ghost use Rattle.lent_sides.specs.Limits.{in_limits};
ghost use Rattle.lent_check.specs.GroupSides.{group_sides};
ghost use Rattle.lent_cut.specs.Calls.{outcome, cut_check, cut_of};
ghost use Rattle.lent_cut.specs.laws.CutSteps.{Passed, cut_done};

use lent_check::GroupSides;
use lent_check::check::is_lent_layout;
use lent_sides::limits::{in_limits, lengths_fit};
use refusal::Refusal;

// Groups along a side of n blocks.
fn groups_along(n: usize) -> usize
    requires { n ≤ 256 }
    ensures { result ≡ groups n }
{
    n.div_ceil(32)
}

// The layout has a group of this index.
fn has_group(bw: usize, bh: usize, index: usize) -> bool
    requires { (bw ≤ 256) × (bh ≤ 256) }
    ensures { result ≡ has_group bw bh index }
{
    let down = groups_along(bh);
    let across = groups_along(bw);
    index < down * across
}

// x among the groups, of a group that the layout has: so there is a group across, and it can be divided by their number.
#[tactic(auto, using(layout::proofs::laws::CutLaws::group_x_is))]
fn group_x(bw: usize, index: usize) -> usize
    requires { (1 ≤ bw) × (bw ≤ 256) }
    ensures { result ≡ group_x bw index }
{
    let across = groups_along(bw);
    index % across
}

// y among the groups, likewise.
#[tactic(auto, using(layout::proofs::laws::CutLaws::group_y_is))]
fn group_y(bw: usize, index: usize) -> usize
    requires { (1 ≤ bw) × (bw ≤ 256) }
    ensures { result ≡ group_y bw index }
{
    let across = groups_along(bw);
    index / across
}

// Blocks of the q-th group along a side of n blocks.
fn blocks_along(n: usize, q: usize) -> usize
    requires { (32 * q ≤ n) × (n ≤ 256) }
    ensures { result ≡ side n q }
{
    (n - 32 * q).min(32)
}

// The sides of a group that the layout has.
#[tactic(auto, using(layout::proofs::laws::CutLaws::starts_x, layout::proofs::laws::CutLaws::starts_y), unfolding(lent_sides::specs::Limits::in_limits))]
fn sides_of(bw: usize, bh: usize, index: usize) -> GroupSides
    requires { (in_limits 256 bw bh ≡ true) × (has_group bw bh index ≡ true) }
    ensures { result ≡ group_sides (bw_of_group bw index) (bh_of_group bw bh index) }
{
    let gx = group_x(bw, index);
    let gy = group_y(bw, index);
    let group_bw = blocks_along(bw, gx);
    let group_bh = blocks_along(bh, gy);
    GroupSides {
        bw: group_bw,
        bh: group_bh,
    }
}

// What comes before the cut: sides and index (2), lengths (1), 18.
#[tactic(auto, unfolding(crate::specs::Calls::cut_check, lent_check::specs::laws::Laws::is_lent_layout, lent_sides::specs::Limits::in_limits))]
fn cut_check(
    bw: usize,
    bh: usize,
    kinds: &[u8],
    hf_mul: &[u32],
    index: usize,
    out_kinds: usize,
    out_hf_mul: usize,
) -> Result<(), Refusal>
    ensures { answered result ≡ cut_check bw bh kinds.now hf_mul.now index out_kinds out_hf_mul }
{
    if !in_limits(256, bw, bh) {
        return Err(Refusal::Size);
    }
    if !has_group(bw, bh, index) {
        return Err(Refusal::Size);
    }
    if !lengths_fit(bw, bh, kinds.len(), hf_mul.len()) {
        return Err(Refusal::Length);
    }
    let group = sides_of(bw, bh, index);
    if !lengths_fit(group.bw, group.bh, out_kinds, out_hf_mul) {
        return Err(Refusal::Length);
    }
    if !is_lent_layout(bw, bh, kinds, hf_mul) {
        return Err(Refusal::Layout);
    }
    Ok(())
}

// The cells of a group whose first block is (first_x, first_y).
fn copy_cells(
    bw: usize,
    kinds: &[u8],
    hf_mul: &[u32],
    first_x: usize,
    first_y: usize,
    group_bw: usize,
    group_bh: usize,
    out_kinds: &mut [u8],
    out_hf_mul: &mut [u32],
)
    requires { (first_x + group_bw ≤ bw) × (first_y + group_bh ≤ 256) × ((first_y + group_bh) * bw ≤ length kinds.now) × (length hf_mul.now ≡ length kinds.now) × (length out_kinds.old ≡ group_bh * group_bw) × (length out_hf_mul.old ≡ group_bh * group_bw) }
    ensures { (out_kinds.new ≡ grid_of (λ x y. block_at kinds.now bw (first_x + x) (first_y + y)) group_bw group_bh) × (out_hf_mul.new ≡ grid_of (λ x y. block_at hf_mul.now bw (first_x + x) (first_y + y)) group_bw group_bh) }
{
    for y in 0..group_bh {
        for x in 0..group_bw {
            let i = (first_y + y) * bw + (first_x + x);
            let j = y * group_bw + x;
            out_kinds[j] = kinds[i];
            out_hf_mul[j] = hf_mul[i];
        }
    }
}

// The sides of a group that has passed the checks. Its cells are copied.
fn copy_group(
    bw: usize,
    bh: usize,
    kinds: &[u8],
    hf_mul: &[u32],
    index: usize,
    out_kinds: &mut [u8],
    out_hf_mul: &mut [u32],
) -> GroupSides
    requires { Passed bw bh kinds.now hf_mul.now index (length out_kinds.old) (length out_hf_mul.old) }
    ensures { outcome (gives result) out_kinds.new out_hf_mul.new ≡ cut_done bw bh kinds.now hf_mul.now index }
{
    let gx = group_x(bw, index);
    let gy = group_y(bw, index);
    let group = sides_of(bw, bh, index);
    let group_bw = group.bw;
    let group_bh = group.bh;
    copy_cells(
        bw,
        kinds,
        hf_mul,
        32 * gx,
        32 * gy,
        group_bw,
        group_bh,
        out_kinds,
        out_hf_mul,
    );
    group
}

// Group `index` of a lent layout: its sides, its kinds and hf_mul into buffers of exactly its blocks. A refusal writes nothing.
#[tactic(auto, using(crate::proofs::laws::CutSteps::passed, crate::proofs::laws::CutSteps::cut_refused, crate::proofs::laws::CutSteps::cut_done_lem))]
pub fn cut(
    bw: usize,
    bh: usize,
    kinds: &[u8],
    hf_mul: &[u32],
    index: usize,
    out_kinds: &mut [u8],
    out_hf_mul: &mut [u32],
) -> Result<GroupSides, Refusal>
    ensures { outcome (answered result) out_kinds.new out_hf_mul.new ≡ cut_of bw bh kinds.now hf_mul.now index out_kinds.old out_hf_mul.old }
{
    cut_check(
        bw,
        bh,
        kinds,
        hf_mul,
        index,
        out_kinds.len(),
        out_hf_mul.len(),
    )?;
    Ok(copy_group(bw, bh, kinds, hf_mul, index, out_kinds, out_hf_mul))
}
