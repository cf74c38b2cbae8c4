#![tactic(auto)]
// Likeness of two lent layouts: the same varblocks, transform numbers and hf_mul included, and the same sigma.
ghost use Rattle.std.specs.Prelude.{◌≡◌};
ghost use Rattle.layout.specs.Empty.{is_empty};
ghost use Rattle.refusal.specs.Answer.{answered};
ghost use Rattle.lent_likeness.specs.Like.{filtered};
ghost use Rattle.lent_likeness.specs.Calls.{sided, strengths_finite, all_lengths_fit, sides_alike, alike, like_of};
ghost use Rattle.lent_likeness.specs.laws.LikeSteps.{is_lent, of_filtered};

use lent_check::check::is_lent_layout;
use lent_lists::finite::all_finite;
use lent_lists::same::same;
use lent_sides::limits::{in_limits, lengths_fit};
use refusal::Refusal;

// A layout as it is lent with its filter strengths, sigma as bit patterns of f32.
#[derive(Drop)]
struct Filtered<'a> {
    bw: usize,
    bh: usize,
    kinds: &'a [u8],
    hf_mul: &'a [u32],
    sigma: &'a [u32],
}

impl<'a> Filtered<'a> {
    // Sides within the limits.
    fn is_sided(&self) -> bool
        ensures { result ≡ sided (of_filtered self.now) }
    {
        in_limits(256, self.bw, self.bh)
    }

    // Every sigma is finite, whatever the lengths.
    fn is_finite(&self) -> bool
        ensures { result ≡ strengths_finite (of_filtered self.now) }
    {
        all_finite(self.sigma)
    }

    // As many kinds, hf_mul and sigma as bw x bh cells.
    #[tactic(auto, using(crate::proofs::laws::LikeSteps::sigma_length))]
    fn all_lengths_fit(&self) -> bool
        ensures { result ≡ all_lengths_fit (of_filtered self.now) }
    {
        let kinds = self.kinds.len();
        lengths_fit(self.bw, self.bh, kinds, self.hf_mul.len()) && self.sigma.len() == kinds
    }

    // What 18 lets pass.
    fn is_layout(&self) -> bool
        ensures { result ≡ is_lent (of_filtered self.now) }
    {
        is_lent_layout(self.bw, self.bh, self.kinds, self.hf_mul)
    }

    // No blocks: width or height zero.
    fn is_empty(&self) -> bool
        ensures { result ≡ is_empty self.now.bw self.now.bh }
    {
        self.bw == 0 || self.bh == 0
    }

    // No blocks in either, or the same sides.
    fn sides_alike(&self, other: &Filtered<'a>) -> bool
        ensures { result ≡ sides_alike self.now.bw self.now.bh other.now.bw other.now.bh }
    {
        self.is_empty() && other.is_empty() || self.bw == other.bw && self.bh == other.bh
    }

    // So the sides, and the same kinds, hf_mul and sigma.
    #[tactic(auto, unfolding(crate::specs::Calls::alike))]
    fn is_like(&self, other: &Filtered<'a>) -> bool
        ensures { result ≡ alike (of_filtered self.now) (of_filtered other.now) }
    {
        self.sides_alike(other)
            && same(self.kinds, other.kinds)
            && same(self.hf_mul, other.hf_mul)
            && same(self.sigma, other.sigma)
    }
}

// Whether two lent layouts are alike; sigma as bit patterns of f32. Each refusal is tried over both before the next: sides (2), a
// sigma that is not finite (11), lengths (1), 18.
#[tactic(auto, unfolding(crate::specs::Calls::like_of, lent_check::specs::laws::Laws::is_lent_layout))]
pub fn alike(
    bw: usize,
    bh: usize,
    kinds: &[u8],
    hf_mul: &[u32],
    sigma: &[u32],
    bw2: usize,
    bh2: usize,
    kinds2: &[u8],
    hf_mul2: &[u32],
    sigma2: &[u32],
) -> Result<bool, Refusal>
    ensures { answered result ≡ like_of (filtered bw bh kinds.now hf_mul.now sigma.now) (filtered bw2 bh2 kinds2.now hf_mul2.now sigma2.now) }
{
    let one = Filtered {
        bw,
        bh,
        kinds,
        hf_mul,
        sigma,
    };
    let two = Filtered {
        bw: bw2,
        bh: bh2,
        kinds: kinds2,
        hf_mul: hf_mul2,
        sigma: sigma2,
    };
    if !(one.is_sided() && two.is_sided()) {
        return Err(Refusal::Size);
    }
    if !(one.is_finite() && two.is_finite()) {
        return Err(Refusal::Parameter);
    }
    if !(one.all_lengths_fit() && two.all_lengths_fit()) {
        return Err(Refusal::Length);
    }
    if !(one.is_layout() && two.is_layout()) {
        return Err(Refusal::Layout);
    }
    Ok(one.is_like(&two))
}
