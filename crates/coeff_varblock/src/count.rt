// Counts of coefficients that are not 0: prediction, context, and what they come to over blocks (`hf_coeff.rs`).
ghost use Rattle.std.specs.Prelude.{◌≡◌, ◌+◌, ◌*◌, ◌^◌, ◌≤◌, ◌<◌, leb, get_or};
ghost use Rattle.coeff_walk.specs.Item.{predicted, count_index, count_over};

// The count that a row predicts at block x, y.
fn predict(row: &[u32; 32], x: usize, y: usize) -> usize
    requires { x < 32 }
    ensures { (result ≡ predicted row.now x y) × (result ≤ 4294967295) }
{
    if y == 0 {
        if x == 0 {
            return 32;
        }
        return row[x - 1] as usize;
    }
    if x == 0 {
        return row[0] as usize;
    }
    (row[x] as usize + row[x - 1] as usize + 1) / 2
}

fn count_index(p: usize) -> usize
    ensures { result ≡ count_index p }
{
    if 8 <= p {
        return 4 + p / 2;
    }
    p
}

// A count of at most four for each of 2 to the power `exponent` blocks.
#[tactic(auto, using(coeff_walk::proofs::laws::Counts::shifted_left))]
pub(crate) fn first_prev(n: usize, exponent: usize) -> bool
    requires { exponent ≤ 10 }
    ensures { result ≡ leb n (4 * 2 ^ exponent) }
{
    n <= 4 << exponent
}

// A count over 2 to the power `exponent` blocks, rounded up.
#[tactic(auto, using(coeff_walk::proofs::laws::Counts::shifted_left, coeff_walk::proofs::laws::Counts::power_le, coeff_walk::proofs::laws::Counts::count_over_lem))]
pub(crate) fn count_over(n: usize, exponent: usize) -> u32
    requires { (exponent ≤ 10) × (n ≤ 63 * 2 ^ exponent) }
    ensures { result ≡ count_over n (2 ^ exponent) }
{
    let blocks = 1 << exponent;
    ((n + blocks - 1) >> exponent) as u32
}

// The cluster of a count, from the preset's part of the cluster map.
pub(crate) fn count_cluster(
    preset_map: &[u8],
    row: &[u32; 32],
    x: usize,
    y: usize,
    block_context: usize,
    clusters: usize,
) -> u8
    requires { (x < 32) × (block_context < clusters) × (clusters ≤ 16) }
    ensures { result ≡ get_or preset_map.now (block_context + count_index (predicted row.now x y) * clusters) 0 }
{
    let predicted = predict(row, x, y);
    let entry = block_context + count_index(predicted) * clusters;
    preset_map.get(entry).copied().unwrap_or(0)
}
