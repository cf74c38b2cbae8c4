#![tactic(auto)]
// Filter strength: the sigma of a block (document 01, Layout and filter strength).
ghost use Rattle.std.specs.Prelude.{◌≡◌, pos, Some};
ghost use Rattle.std.specs.Float.{binary32};
ghost use Rattle.std.specs.Float.Ieee.{of_int};
ghost use Rattle.layout_filter.specs.Strength.{scaled_by, divided_by};
ghost use Rattle.layout_filter.specs.Limits.{in_limits, filter_fits, lookups_fit, params_fit};

// The filter is off, or carries its multiplier: an enum of its own, since the scope names this form.
#[derive(Clone, Copy)]
pub enum Filter {
    Off,
    On(f32),
}

// What the filter of a layout carries: multiplier × 65536 / scale.
#[derive(Clone, Copy)]
pub struct ScaledMultiplier(pub f32);

// What the filter of a varblock carries: multiplier × 65536 / scale / hf_mul.
#[derive(Clone, Copy)]
pub struct DividedMultiplier(pub f32);

// The nearest f32, ties to even, in the form that the scope names. Both halves and the upper half times 65536 are exact, so only the
// sum is rounded.
fn nearest(n: u32) -> f32
    ensures { result ≡ of_int binary32 (pos n) }
{
    ((n >> 16) as f32) * 65536.0 + ((n & 0xffff) as f32)
}

impl Filter {
    // With its multiplier × 65536 / scale.
    #[tactic(auto, using(std::proofs::num::Nearest::two_to_16), unfolding(crate::specs::Strength::scaled_by))]
    pub fn scaled_by(self, scale: u32) -> Option<ScaledMultiplier>
        ensures { result ≡ scaled_by self scale }
    {
        match self {
            Filter::Off => None,
            Filter::On(multiplier) => {
                let m = multiplier * 65536.0;
                Some(ScaledMultiplier(m / nearest(scale)))
            }
        }
    }

    fn fits(self) -> bool
        ensures { result ≡ filter_fits self }
    {
        match self {
            Filter::Off => true,
            Filter::On(multiplier) => in_limits(multiplier),
        }
    }
}

impl ScaledMultiplier {
    // / hf_mul
    #[tactic(auto, unfolding(crate::specs::Strength::divided_by))]
    pub fn divided_by(self, hf_mul: u32) -> DividedMultiplier
        ensures { Some result ≡ divided_by (Some self) hf_mul }
    {
        DividedMultiplier(self.0 / nearest(hf_mul))
    }
}

// From −65,504 to 65,504.
#[tactic(auto, using(crate::proofs::laws::Limits::limit_bits, crate::proofs::laws::Limits::minus_limit_bits), unfolding(crate::specs::Limits::in_limits))]
fn in_limits(x: f32) -> bool
    ensures { result ≡ in_limits x }
{
    -65504.0 <= x && x <= 65504.0
}

fn lookups_fit(lookups: [f32; 8]) -> bool
    ensures { result ≡ lookups_fit lookups }
{
    lookups.iter().all(|&x| in_limits(x))
}

// Global scale, multiplier and look-up numbers within their limits.
pub fn params_fit(filter: Filter, lookups: [f32; 8], scale: u32) -> bool
    ensures { result ≡ params_fit filter lookups scale }
{
    1 <= scale && scale <= 73728 && filter.fits() && lookups_fit(lookups)
}
