// Sides and lengths of a record.
ghost use Rattle.std.specs.Prelude.{◌≡◌};
ghost use Rattle.lent_sides.specs.Limits.{in_limits, lengths_fit};

// Neither side is above the limit.
#[tactic(auto, unfolding(crate::specs::Limits::in_limits))]
pub fn in_limits(limit: usize, bw: usize, bh: usize) -> bool
    ensures { result ≡ in_limits limit bw bh }
{
    bw <= limit && bh <= limit
}

// As many kinds and as many hf_mul as bw x bh cells, a product that may be too large for a number here.
#[tactic(auto, unfolding(crate::specs::Limits::lengths_fit))]
pub fn lengths_fit(bw: usize, bh: usize, kinds: usize, hf_mul: usize) -> bool
    ensures { result ≡ lengths_fit bw bh kinds hf_mul }
{
    kinds == hf_mul && bh.checked_mul(bw) == Some(kinds)
}
