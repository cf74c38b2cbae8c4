#![tactic(auto)]
// What the coefficient call looks at before work: sides, parameters, contexts, lengths, layout and stored places.
use crate::checks::{layout_fits, other_lengths_fit, parameters_fit, read_fits};
use context_record::HfBlockContext;
use context_record::fit::is_fit;
use lent_check::GroupSides;
use lent_sides::limits::in_limits;
use order_places::places_fit;
use refusal::Refusal;

pub mod checks;

ghost use Rattle.std.specs.Prelude.{◌≡◌};
ghost use Rattle.refusal.specs.Answer.{answered};
ghost use Rattle.coeff_group.specs.PassGroup.{pass_group};
ghost use Rattle.coeff_checks.specs.Checks.{before_work};

// All checks before work: 2, 11, 12, 1, 18, stored places (13). Of the cluster map, the log and the grids they look at the
// lengths alone.
#[tactic(auto, unfolding(crate::specs::Checks::before_work))]
pub fn before_work<'a>(
    group: GroupSides,
    kinds: &'a [u8],
    hf_mul: &'a [u32],
    contexts: HfBlockContext,
    lf_there: bool,
    lf0: &'a [u32],
    lf1: &'a [u32],
    lf2: &'a [u32],
    store: &'a [u16],
    presets: u32,
    shift: u32,
    cluster_map_length: usize,
    log_length: usize,
    g0_length: usize,
    g1_length: usize,
    g2_length: usize,
) -> Result<(), Refusal>
    ensures { answered result ≡ before_work (pass_group group kinds.now hf_mul.now contexts lf_there lf0.now lf1.now lf2.now store.now) presets shift cluster_map_length log_length g0_length g1_length g2_length }
{
    let bw = group.bw;
    let bh = group.bh;
    if !in_limits(32, bw, bh) {
        return Err(Refusal::Size);
    }
    if !parameters_fit(shift, presets) {
        return Err(Refusal::Parameter);
    }
    if !is_fit(contexts) {
        return Err(Refusal::Context);
    }
    let n = bh * bw;
    let clusters = contexts.num_block_clusters as usize;
    let read = read_fits(
        kinds.len(),
        hf_mul.len(),
        lf_there,
        lf0.len(),
        lf1.len(),
        lf2.len(),
        store.len(),
        n,
    );
    if !other_lengths_fit(
        clusters,
        presets as usize,
        cluster_map_length,
        g0_length,
        g1_length,
        g2_length,
        log_length,
        n,
        read,
    ) {
        return Err(Refusal::Length);
    }
    if !layout_fits(group, kinds, hf_mul) {
        return Err(Refusal::Layout);
    }
    if !places_fit(store) {
        return Err(Refusal::StoredPlace);
    }
    Ok(())
}
