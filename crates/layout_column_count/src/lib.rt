#![tactic(auto)]
// How many columns an LF group's layout has (`HfMetadata::parse`, `nb_blocks`).
ghost use Rattle.std.specs.Prelude.{◌≡◌};
ghost use Rattle.layout_column_count.specs.Count.{counted, count_of};

use bits::BitPlace;
use refusal::Refusal;

// The column count and the bits read: 1 plus as many bits as the exponent of the least power of two
// not below bw × bh, from the first bit on.
#[tactic(auto, using(crate::proofs::laws::CountSteps::count_size, crate::proofs::laws::CountSteps::count_modes, crate::proofs::laws::CountSteps::most_blocks, crate::proofs::laws::CountSteps::count_small, crate::proofs::laws::CountSteps::count_value, crate::proofs::laws::CountSteps::count_end))]
pub fn column_count(
    width: u32,
    height: u32,
    modes: [u32; 3],
    bytes: &[u8],
) -> Result<(u32, usize), Refusal>
    ensures { counted result ≡ count_of width height modes bytes.now }
{
    if !layout_sizes::size_fits(width, height) {
        return Err(Refusal::Size);
    }
    if !layout_sizes::modes_fit(modes) {
        return Err(Refusal::Parameter);
    }
    let blocks = layout_sizes::blocks_of(width, height, modes);
    let n = coded_numbers::exponent((blocks.bh * blocks.bw) as u32);
    let Ok((v, _)) = bits::read_bits(bytes, BitPlace::start(), n) else {
        return Err(Refusal::BitsEnd(0));
    };
    Ok((1 + v, n as usize))
}
