#![tactic(auto)]
// The context call (`HfBlockContext::parse` of `lf.rs`).
mod judge;
mod map;

ghost use Rattle.std.specs.Prelude.{◌≡◌, ◌≤◌};
ghost use Rattle.bits.specs.Reads.{bits_before};
ghost use Rattle.context_thresholds.specs.Thresholds.{read_list, read_lists};
ghost use Rattle.context_call.specs.Call.{leaves, judged_lists, or_ended, parsed};
ghost use Rattle.context_call.specs.Parts.{with_lists, or_kept};
ghost use Rattle.context_call.specs.laws.CallLaws.{list_of};

use bits::BitPlace;
use context_places::joined;
use context_record::HfBlockContext;
use context_thresholds::{Lf, Qf, Threshold, Thresholds, read_list};
use judge::{default_contexts, judge};
use refusal::Refusal;

// The bits read, or a refusal. The record stands beside both, since `parse` promises one that is all zero beside a
// refusal (`refused`).
#[derive(Drop)]
pub struct ContextResult {
    pub answer: Result<usize, Refusal>,
    pub contexts: HfBlockContext,
}

// The bits read, and the record but for the lists and the map, which are lent in fixed places, without a heap; the lists' lengths
// stand here.
#[derive(Clone, Copy)]
pub struct ContextParts {
    pub bits_read: usize,
    pub num_block_clusters: u32,
    pub lengths: [u32; 4],
}

// A list behind p, or the bits that end in it.
fn list_behind<T: Threshold>(bytes: &[u8], p: BitPlace) -> Result<Thresholds, Refusal>
    requires { bits_before p ≤ 1558 }
    ensures { result ≡ list_of (read_list bytes.now (T.reading bytes.now) (bits_before p)) }
{
    match read_list::<T>(bytes, p) {
        Ok(list) => Ok(list),
        Err(end) => Err(Refusal::BitsEnd(p.bits_read() + end.taken as usize)),
    }
}

// First bit 0: three LF lists, then one qf list, then the tests. The three lent places stay apart: in a struct of
// references clauses could name them by number alone.
fn by_lists<'a>(
    bytes: &'a [u8],
    p: BitPlace,
    num_clusters: u32,
    map: &'a [u8],
    lf_thresholds: &mut [u32; 45],
    qf_thresholds: &mut [u32; 15],
    block_ctx_map: &mut [u8; 2496],
) -> Result<ContextParts, Refusal>
    requires { bits_before p ≤ 16 }
    ensures { with_lists result lf_thresholds.new qf_thresholds.new block_ctx_map.new
        ≡ or_kept (or_ended (read_lists bytes.now (bits_before p)) (judged_lists num_clusters map.now)) lf_thresholds.old qf_thresholds.old block_ctx_map.old }
{
    let lf0 = list_behind::<Lf>(bytes, p)?;
    let lf1 = list_behind::<Lf>(bytes, lf0.next)?;
    let lf2 = list_behind::<Lf>(bytes, lf1.next)?;
    let qf = list_behind::<Qf>(bytes, lf2.next)?;
    judge(
        num_clusters,
        map,
        [lf0.count, lf1.count, lf2.count, qf.count],
        joined(&lf0.values, &lf1.values, &lf2.values),
        qf.values,
        qf.next.bits_read(),
        lf_thresholds,
        qf_thresholds,
        block_ctx_map,
    )
}

// The call, with lists and map in lent memory: written where it accepts, else as they were. First bit 1: the lent
// count and map are not looked at.
pub fn parse_into<'a>(
    bytes: &'a [u8],
    num_clusters: u32,
    map: &'a [u8],
    lf_thresholds: &mut [u32; 45],
    qf_thresholds: &mut [u32; 15],
    block_ctx_map: &mut [u8; 2496],
) -> Result<ContextParts, Refusal>
    ensures { with_lists result lf_thresholds.new qf_thresholds.new block_ctx_map.new
        ≡ or_kept (parsed bytes.now num_clusters map.now) lf_thresholds.old qf_thresholds.old block_ctx_map.old }
{
    let (bit, next) = bits::read_bits(bytes, BitPlace::start(), 1).map_err(|end| Refusal::BitsEnd(
        end.taken as usize,
    ))?;
    if bit == 1 {
        return Ok(default_contexts(
            next.bits_read(),
            lf_thresholds,
            qf_thresholds,
            block_ctx_map,
        ));
    }
    by_lists(
        bytes,
        next,
        num_clusters,
        map,
        lf_thresholds,
        qf_thresholds,
        block_ctx_map,
    )
}

// The call, with everything handed back by value.
pub fn parse<'a>(bytes: &'a [u8], num_clusters: u32, map: &'a [u8]) -> ContextResult
    ensures { leaves result ≡ parsed bytes.now num_clusters map.now }
{
    let mut lf_thresholds = [0u32; 45];
    let mut qf_thresholds = [0u32; 15];
    let mut block_ctx_map = [0u8; 2496];
    let parts = parse_into(
        bytes,
        num_clusters,
        map,
        &mut lf_thresholds,
        &mut qf_thresholds,
        &mut block_ctx_map,
    );
    match parts {
        Ok(parts) => {
            let lengths = parts.lengths;
            let contexts = HfBlockContext {
                num_block_clusters: parts.num_block_clusters,
                lengths,
                lf_thresholds,
                qf_thresholds,
                block_ctx_map,
            };
            ContextResult {
                answer: Ok(parts.bits_read),
                contexts,
            }
        }
        Err(why) => {
            let contexts = HfBlockContext {
                num_block_clusters: 0,
                lengths: [0u32; 4],
                lf_thresholds,
                qf_thresholds,
                block_ctx_map,
            };
            ContextResult {
                answer: Err(why),
                contexts,
            }
        }
    }
}
