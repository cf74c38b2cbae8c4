#![tactic(auto)]
// The layout of an LF group and its filter strengths (`hf_metadata.rs`).
ghost use Rattle.std.specs.Prelude.{◌≡◌};
ghost use Rattle.layout_call.specs.Call.{inputs, leaves, layout_of};

use layout_filter::Filter;
use layout_reading::reading::read;
use layout_sizes::{blocks_of, modes_fit, size_fits};
use refusal::Refusal;

// Places the columns (type, mul) on the blocks of an LF group of width x height pixels. sigma takes bit patterns of f32.
// Accepted with the number of columns used.
pub fn layout(
    width: u32,
    height: u32,
    modes: [u32; 3],
    types: &[u32],
    muls: &[u32],
    sharpness: &[u32],
    filter: Filter,
    lookups: [f32; 8],
    scale: u32,
    kinds: &mut [u8],
    hf_mul: &mut [u32],
    sigma: &mut [u32],
) -> Result<usize, Refusal>
    ensures { leaves result kinds.new hf_mul.new sigma.new ≡ layout_of (inputs width height modes types.now muls.now sharpness.now filter lookups scale) kinds.old hf_mul.old sigma.old }
{
    if !size_fits(width, height) {
        return Err(Refusal::Size);
    }
    if !modes_fit(modes) {
        return Err(Refusal::Parameter);
    }
    let blocks = blocks_of(width, height, modes);
    read(
        kinds, hf_mul, sigma, types, muls, sharpness, filter, lookups, scale, blocks.bw, blocks.bh,
    )
    .map_err(|stop| stop.why)
}
