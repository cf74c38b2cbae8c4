// The varblocks of a group in turn: corners row by row.
ghost use Rattle.std.specs.Prelude.{[], ◌∷◌, length};
ghost use Rattle.coeff_walk.specs.laws.Outcome.{AllUseUp};
ghost use Rattle.coeff_group.specs.PassGroup.{pass_group, group_items};
ghost use Rattle.coeff_group.specs.laws.Due.{GroupReady, GroupShown, whole_of};

use crate::plan::plan_of;
use crate::varblock::read_varblock;
use context_record::HfBlockContext;
use lent_check::GroupSides;
use refusal::Refusal;

// Holds the rows of counts. `preset_map` is the preset's part of the cluster map.
pub(crate) fn read_group<'a>(
    group: GroupSides,
    kinds: &'a [u8],
    hf_mul: &'a [u32],
    contexts: HfBlockContext,
    lf_there: bool,
    lf0: &'a [u32],
    lf1: &'a [u32],
    lf2: &'a [u32],
    store: &'a [u16],
    preset_map: &'a [u8],
    shift: u32,
    symbols: &'a [u32],
    log: &mut [u8],
    g0: &mut [u32],
    g1: &mut [u32],
    g2: &mut [u32],
) -> Result<usize, Refusal>
    requires { GroupReady (pass_group group kinds.now hf_mul.now contexts lf_there lf0.now lf1.now lf2.now store.now) contexts.num_block_clusters (length preset_map.now) shift (length log.old) }
    ensures { GroupShown result log.new (g0.new ∷ g1.new ∷ g2.new ∷ []) (whole_of shift contexts.num_block_clusters preset_map.now (pass_group group kinds.now hf_mul.now contexts lf_there lf0.now lf1.now lf2.now store.now) symbols.now log.old (g0.old ∷ g1.old ∷ g2.old ∷ [])) × AllUseUp (group_items (pass_group group kinds.now hf_mul.now contexts lf_there lf0.now lf1.now lf2.now store.now)) symbols.now 0 result }
{
    let bw = group.bw;
    let bh = group.bh;
    let clusters = contexts.num_block_clusters as usize;
    let lengths = contexts.lengths;
    let mut rows = [[0u32; 32]; 3];
    let mut at = 0;
    for y in 0..bh {
        for x in 0..bw {
            let i = y * bw + x;
            let kind = kinds[i];
            if kind < 2 {
                continue;
            }
            let plan = plan_of(
                x,
                y,
                group,
                kind,
                hf_mul[i],
                lengths,
                &contexts.lf_thresholds,
                &contexts.qf_thresholds,
                &contexts.block_ctx_map,
                lf_there,
                lf0,
                lf1,
                lf2,
            );
            at = read_varblock(
                plan, group, clusters, preset_map, store, symbols, at, shift, &mut rows, log, g0,
                g1, g2,
            )?;
        }
    }
    Ok(at)
}
