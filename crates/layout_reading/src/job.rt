// What is read of a layout.
ghost use Rattle.std.specs.Prelude.{◌≡◌, ◌*◌, ◌≤◌, length};
ghost use Rattle.layout_filter.specs.laws.Finite.{ScaledBounded};
ghost use Rattle.layout_filter.proofs.laws.Finite.{scaled_bounded_prop};

use layout_filter::ScaledMultiplier;

// A grid of bw x bh blocks, columns (type, mul), a sharpness number for each block, the filter with its scaled
// multiplier, and the look-up numbers.
#[derive(Clone, Copy)]
pub(crate) struct Job<'a> {
    pub(crate) bw: usize,
    pub(crate) bh: usize,
    pub(crate) types: &'a [u32],
    pub(crate) muls: &'a [u32],
    pub(crate) sharpness: &'a [u32],
    pub(crate) filter: Option<ScaledMultiplier>,
    pub(crate) lookups: &'a [f32; 8],
    ghost wide: { bw ≤ 256 },
    ghost high: { bh ≤ 256 },
    ghost muls_are: { length muls.now ≡ length types.now },
    ghost sharpness_are: { length sharpness.now ≡ bh * bw },
    ghost bounded: { ScaledBounded filter lookups.now } by { scaled_bounded_prop filter lookups.now },
}
