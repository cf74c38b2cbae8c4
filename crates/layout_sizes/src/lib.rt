#![tactic(auto)]
// An LF group: its size in pixels and in blocks, and the lengths lent for its layout (document 01, Layout and filter strength).
ghost use Rattle.std.specs.Prelude.{◌≡◌};
ghost use Rattle.layout_sizes.specs.Blocks.{size_fits, modes_fit, any_either, blocks, even_if, counts_fit};
ghost use Rattle.layout_sizes.specs.laws.Bounds.{blocks_of};

// Width and height in blocks.
#[derive(Clone, Copy)]
pub struct Blocks {
    pub bw: usize,
    pub bh: usize,
}

// At most 2,048 pixels each way.
pub fn size_fits(width: u32, height: u32) -> bool
    ensures { result ≡ size_fits width height }
{
    width <= 2048 && height <= 2048
}

// Three upsampling modes 0 to 3.
pub fn modes_fit(modes: [u32; 3]) -> bool
    ensures { result ≡ modes_fit modes }
{
    modes.iter().all(|&mode| mode <= 3)
}

// Whether one of the modes is a or b.
fn any_either(modes: [u32; 3], a: u32, b: u32) -> bool
    ensures { result ≡ any_either modes a b }
{
    modes.iter().any(|&mode| mode == a || mode == b)
}

// Pixels divided by 8, rounded up; made even if asked for.
fn side(pixels: u32, even: bool) -> usize
    ensures { result ≡ even_if even (blocks pixels) }
{
    let n = (pixels as usize).div_ceil(8);
    if even { n.div_ceil(2) * 2 } else { n }
}

// The grid of blocks: bw is made even if a mode is 1 or 2, bh if one is 1 or 3.
#[tactic(auto, unfolding(crate::specs::Blocks::bw_in, crate::specs::Blocks::bh_in))]
pub fn blocks_of(width: u32, height: u32, modes: [u32; 3]) -> Blocks
    ensures { result ≡ blocks_of width height modes }
{
    Blocks {
        bw: side(width, any_either(modes, 1, 2)),
        bh: side(height, any_either(modes, 1, 3)),
    }
}

// The lengths lent for a layout of n blocks: as many muls as types, and n of each of the others.
pub fn counts_fit(
    types: usize,
    muls: usize,
    sharpness: usize,
    kinds: usize,
    hf_mul: usize,
    sigma: usize,
    n: usize,
) -> bool
    ensures { result ≡ counts_fit types muls sharpness kinds hf_mul sigma n }
{
    muls == types && sharpness == n && kinds == n && hf_mul == n && sigma == n
}
