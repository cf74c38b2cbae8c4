// The check of a lent layout or group: each cell by itself, then row by row.
ghost use Rattle.std.specs.Prelude.{◌≡◌, ◌*◌, ◌≤◌, length};
ghost use Rattle.layout.specs.Check.{is_layout};
ghost use Rattle.refusal.specs.Answer.{answered};
ghost use Rattle.lent_check.specs.Calls.{check_of};
ghost use Rattle.lent_check.specs.laws.Laws.{is_lent_layout};

use crate::GroupSides;
use crate::cells::cells_sound;
use crate::rows::{close_row, place_row};
use lent_sides::limits::{in_limits, lengths_fit};
use refusal::Refusal;

// The bw x bh cells are a layout.
fn is_layout(bw: usize, bh: usize, kinds: &[u8], hf_mul: &[u32]) -> bool
    requires { (bw ≤ 256) × (bh ≤ 256) × (length kinds.now ≡ bh * bw) × (length hf_mul.now ≡ bh * bw) }
    ensures { result ≡ is_layout bw bh kinds.now hf_mul.now }
{
    if !cells_sound(kinds, hf_mul) {
        return false;
    }
    let mut depth = [0u8; 259];
    for y in 0..bh {
        if !place_row(&mut depth, bw, bh, kinds, y) {
            return false;
        }
        if !close_row(&mut depth, bw, kinds, y) {
            return false;
        }
    }
    true
}

// Sides of at most 256, lengths of as many cells, and the cells are a layout.
#[tactic(auto, unfolding(crate::specs::laws::Laws::is_lent_layout, lent_sides::specs::Limits::in_limits, lent_sides::specs::Limits::lengths_fit))]
pub fn is_lent_layout(bw: usize, bh: usize, kinds: &[u8], hf_mul: &[u32]) -> bool
    ensures { result ≡ is_lent_layout bw bh kinds.now hf_mul.now }
{
    in_limits(256, bw, bh)
        && lengths_fit(bw, bh, kinds.len(), hf_mul.len())
        && is_layout(bw, bh, kinds, hf_mul)
}

// A lent group: sides of at most 32 (2), lengths (1), 18.
#[tactic(auto, unfolding(crate::specs::Calls::check_of, lent_sides::specs::Limits::in_limits, lent_sides::specs::Limits::lengths_fit))]
pub fn check_group(group: GroupSides, kinds: &[u8], hf_mul: &[u32]) -> Result<(), Refusal>
    ensures { answered result ≡ check_of 32 group.bw group.bh kinds.now hf_mul.now }
{
    let bw = group.bw;
    let bh = group.bh;
    if !in_limits(32, bw, bh) {
        return Err(Refusal::Size);
    }
    if !lengths_fit(bw, bh, kinds.len(), hf_mul.len()) {
        return Err(Refusal::Length);
    }
    if !is_layout(bw, bh, kinds, hf_mul) {
        return Err(Refusal::Layout);
    }
    Ok(())
}
