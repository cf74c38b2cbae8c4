#![tactic(auto)]
// How many places of a record are in use. A length above 15 counts as 15.
ghost use Rattle.std.specs.Prelude.{◌≡◌, min, ◌+◌, ◌*◌, ◌≤◌, get_or};
ghost use Rattle.context_sizes.specs.laws.Sizes.{capped_bsize};

// Places in use of 15.
pub fn capped(n: u32) -> usize
    ensures { result ≡ min n 15 }
{
    n.min(15) as usize
}

// The number of LF indices.
#[tactic(auto, using(crate::specs::laws::Sizes::sizes_le, crate::specs::laws::Sizes::sizes_pos))]
pub fn lf_size(lengths: [u32; 4]) -> usize
    ensures { (result ≡ (min (get_or lengths 0 0) 15 + 1) * (min (get_or lengths 1 0) 15 + 1) * (min (get_or lengths 2 0) 15 + 1)) × (1 ≤ result) × (result ≤ 4096) }
{
    let size0 = capped(lengths[0]) + 1;
    let size1 = capped(lengths[1]) + 1;
    let size2 = capped(lengths[2]) + 1;
    size0 * size1 * size2
}

// The product of the four (length + 1), a length above 15 counting as 15.
#[tactic(auto, unfolding(crate::specs::laws::Sizes::capped_bsize))]
pub fn bsize(lengths: [u32; 4]) -> usize
    ensures { result ≡ capped_bsize lengths }
{
    let qfs = capped(lengths[3]) + 1;
    lf_size(lengths) * qfs
}
