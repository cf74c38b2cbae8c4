// What the context call answers, once the bits are read, and what it then writes.
ghost use Rattle.std.specs.Prelude.{◌≡◌, List, ℕ, ◌≤◌, Ok, get_or};
ghost use Rattle.refusal.specs.Answer.{answered};
ghost use Rattle.context_thresholds.specs.Thresholds.{pad};
ghost use Rattle.context_record.specs.Record.{record_of};
ghost use Rattle.context_call.specs.Call.{judged, judged_as, accepted, contexts_of, no_lists, DEFAULT_MAP};
ghost use Rattle.context_call.specs.Parts.{with_lists, or_kept};

use super::ContextParts;
use super::map::DEFAULT_MAP;
use bytes_below::all_below;
use context_places::fill;
use context_sizes::bsize;
use refusal::Refusal;

pub(crate) fn default_contexts(
    at: usize,
    lf: &mut [u32; 45],
    qf: &mut [u32; 15],
    out: &mut [u8; 2496],
) -> ContextParts
    ensures { with_lists (Ok result) lf.new qf.new out.new ≡ accepted at (contexts_of 15 no_lists DEFAULT_MAP) }
{
    *lf = [0u32; 45];
    *qf = [0u32; 15];
    let map = DEFAULT_MAP;
    fill(&map[..], out);
    ContextParts {
        bits_read: at,
        num_block_clusters: 15,
        lengths: [0u32; 4],
    }
}

// All bits are read: bsize, the map's length, the count, the map's bytes.
#[tactic(auto, using(context_record::specs::laws::Laws::capped, crate::specs::laws::CallLaws::judged_size, crate::specs::laws::CallLaws::judged_length, crate::specs::laws::CallLaws::judged_none, crate::specs::laws::CallLaws::judged_many, crate::specs::laws::CallLaws::judged_bytes, crate::specs::laws::CallLaws::judged_fit))]
fn check(num_clusters: u32, map: &[u8], lengths: [u32; 4]) -> Result<(), Refusal>
    requires { (get_or lengths 0 0 ≤ 15) × (get_or lengths 1 0 ≤ 15) × (get_or lengths 2 0 ≤ 15) × (get_or lengths 3 0 ≤ 15) }
    ensures { answered result ≡ judged num_clusters map.now lengths }
{
    let size = bsize(lengths);
    if 64 < size {
        return Err(Refusal::Context);
    }
    if map.len() != 39 * size {
        return Err(Refusal::Length);
    }
    if num_clusters < 1 || 16 < num_clusters || !all_below(map, num_clusters) {
        return Err(Refusal::Context);
    }
    Ok(())
}

// Lists and map are written where all checks pass. Inline, so that the lists come from its caller's memory and the host is asked for
// memcpy alone.
#[inline(always)]
pub(crate) fn judge(
    num_clusters: u32,
    map: &[u8],
    lengths: [u32; 4],
    lf_thresholds: [u32; 45],
    qf_thresholds: [u32; 15],
    at: usize,
    lf: &mut [u32; 45],
    qf: &mut [u32; 15],
    out: &mut [u8; 2496],
) -> Result<ContextParts, Refusal>
    requires { (get_or lengths 0 0 ≤ 15) × (get_or lengths 1 0 ≤ 15) × (get_or lengths 2 0 ≤ 15) × (get_or lengths 3 0 ≤ 15) }
    ensures { with_lists result lf.new qf.new out.new
        ≡ or_kept (judged_as num_clusters map.now lengths (record_of num_clusters lengths lf_thresholds qf_thresholds (pad 2496 map.now)) at) lf.old qf.old out.old }
{
    check(num_clusters, map, lengths)?;
    *lf = lf_thresholds;
    *qf = qf_thresholds;
    fill(map, out);
    Ok(ContextParts {
        bits_read: at,
        num_block_clusters: num_clusters,
        lengths,
    })
}
