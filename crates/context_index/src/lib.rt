#![tactic(auto)]
// The block contexts of a varblock (`write_hf_coeff` of `hf_coeff.rs`).
ghost use Rattle.std.specs.Prelude.{◌≡◌, ◌+◌, ◌*◌, ◌<◌, ◌≤◌, cond, length, take, slice_index, slice_index_or};
ghost use Rattle.context_index.specs.Contexts.{above, greater, lf_index_in, entry_of};
ghost use Rattle.context_index.specs.laws.Contexts.{block_contexts};
ghost use Rattle.context_index.specs.Lists.{lf_list, contexts_by};

use context_sizes::{capped, lf_size};

// a > b as signed numbers.
fn greater(a: u32, b: u32) -> bool
    ensures { result ≡ greater a b }
{
    b.wrapping_add(0x8000_0000) < a.wrapping_add(0x8000_0000)
}

// How many of the first n of the 15 places of a list q is greater than.
fn count_above(places: &[u32], n: u32, q: u32) -> usize
    requires { length places.now ≡ 15 }
    ensures { (result ≡ above (take n places.now) q) × (result ≤ 15) }
{
    let thresholds = &places[..capped(n)];
    thresholds
        .iter()
        .filter(|threshold| greater(q, **threshold))
        .count()
}

// From the LF numbers of channels 0, 1, 2; channels in the order 0, 2, 1.
#[tactic(auto, using(crate::proofs::laws::Laws::digits_le))]
fn lf_index(lf_thresholds: &[u32; 45], lengths: [u32; 4], q0: u32, q1: u32, q2: u32) -> usize
    ensures { (result ≡ lf_index_in (lf_list lf_thresholds.now 0 (slice_index lengths 0)) (lf_list lf_thresholds.now 1 (slice_index lengths 1)) (lf_list lf_thresholds.now 2 (slice_index lengths 2)) q0 q1 q2) × (result ≤ 4095) }
{
    let i0 = count_above(&lf_thresholds[..15], lengths[0], q0);
    let i2 = count_above(&lf_thresholds[30..45], lengths[2], q2);
    let i1 = count_above(&lf_thresholds[15..30], lengths[1], q1);
    let size2 = capped(lengths[2]) + 1;
    let size1 = capped(lengths[1]) + 1;
    (i0 * size2 + i2) * size1 + i1
}

// The block context of the n-th channel walked, 0 outside the map.
#[tactic(auto, using(crate::proofs::laws::Laws::entry_le, crate::proofs::laws::Laws::entry_ge), unfolding(crate::specs::Contexts::entry_of))]
fn block_context_at(
    block_ctx_map: &[u8; 2496],
    qf_size: usize,
    lf_size: usize,
    n: usize,
    order: usize,
    qf: usize,
    lf: usize,
) -> usize
    requires { (1 ≤ qf_size) × (qf_size ≤ 16) × (1 ≤ lf_size) × (lf_size ≤ 4096) × (n < 3) × (qf ≤ 15) × (lf ≤ 4095) }
    ensures { result ≡ slice_index_or block_ctx_map.now (entry_of qf_size lf_size n order qf lf) 0 }
{
    // The entry's number is not below the order's, and does not wrap where that is below the length.
    if block_ctx_map.len() <= order {
        return 0;
    }
    let entry = ((n * 13 + order) * qf_size + qf) * lf_size + lf;
    block_ctx_map
        .get(entry)
        .map_or(0, |context| usize::from(*context))
}

// LF index, 0 without LF grids.
fn lf_index_of(
    lf_thresholds: &[u32; 45],
    lengths: [u32; 4],
    lf_there: bool,
    q0: u32,
    q1: u32,
    q2: u32,
) -> usize
    ensures { (result ≡ cond lf_there (lf_index_in (lf_list lf_thresholds.now 0 (slice_index lengths 0)) (lf_list lf_thresholds.now 1 (slice_index lengths 1)) (lf_list lf_thresholds.now 2 (slice_index lengths 2)) q0 q1 q2) 0) × (result ≤ 4095) }
{
    if lf_there {
        lf_index(lf_thresholds, lengths, q0, q1, q2)
    } else {
        0
    }
}

// The block contexts of a varblock for the channels as they are walked: 1, 0, 2. Without LF grids
// q0, q1, q2 are not looked at.
pub fn block_contexts<'a>(
    lengths: [u32; 4],
    lf_thresholds: &'a [u32; 45],
    qf_thresholds: &'a [u32; 15],
    block_ctx_map: &'a [u8; 2496],
    order: usize,
    hf_mul: u32,
    lf_there: bool,
    q0: u32,
    q1: u32,
    q2: u32,
) -> [usize; 3]
    ensures { result ≡ block_contexts (contexts_by lengths lf_thresholds.now qf_thresholds.now block_ctx_map.now) order hf_mul lf_there q0 q1 q2 }
{
    let qf = count_above(&qf_thresholds[..], lengths[3], hf_mul);
    let lf = lf_index_of(lf_thresholds, lengths, lf_there, q0, q1, q2);
    let qfs = capped(lengths[3]) + 1;
    let lfs = lf_size(lengths);
    let y = block_context_at(block_ctx_map, qfs, lfs, 0, order, qf, lf);
    let x = block_context_at(block_ctx_map, qfs, lfs, 1, order, qf, lf);
    let b = block_context_at(block_ctx_map, qfs, lfs, 2, order, qf, lf);
    [y, x, b]
}
