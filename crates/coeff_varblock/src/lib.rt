#![tactic(auto)]
// One varblock: the counts and coefficients of its three channels (`hf_coeff.rs`).
use crate::channel::read_in_grid;
use crate::count::count_over;
use coeff_group::plan::Plan;
use lent_check::GroupSides;
use order_store::{Stretch, stretch_of};
use refusal::Refusal;

pub mod channel;
pub mod count;

ghost use Rattle.std.specs.Prelude.{◌≡◌, [], ◌∷◌, ◌+◌, ◌*◌, ◌^◌, ◌<◌, ◌≤◌, length, take, drop};
ghost use Rattle.order_store.specs.LookedUp.{stretch_at};
ghost use Rattle.coeff_group.specs.Group.{going, read_items};
ghost use Rattle.coeff_group.specs.laws.Rewritten.{three, VarblockShown};
ghost use Rattle.coeff_group.specs.laws.Plans.{channel_walked, items_by, Planned};
ghost use Rattle.coeff_group.specs.laws.Channel.{ChannelShown};
ghost use Rattle.coeff_group.specs.laws.Lent.{varblock_small, varblock_fits, planned_read};

// The channel that is walked n-th. A `match`, since a constant array is laid out anew wherever it is named.
fn channel_walked(n: usize) -> usize
    requires { n < 3 }
    ensures { (result < 3) × (result ≡ channel_walked n) }
{
    match n {
        0 => 1,
        1 => 0,
        _ => 2,
    }
}

// The list of channel c, where `lists` is that of channel 0: the three stand one behind the other.
#[tactic(auto, using(coeff_group::proofs::laws::Stored::of_three))]
fn list_of(store: &[u16], lists: Stretch, c: usize) -> &[u16]
    requires { (c < 3) × (lists.first + 3 * lists.len ≤ length store.now) }
    ensures { result.now ≡ take lists.len (drop (lists.first + c * lists.len) store.now) }
{
    let n = lists.len;
    let a = lists.first + c * n;
    let e = a + n;
    &store[a..e]
}

// The channel that is walked n-th, of what fits: the symbols read, and what its count comes to over the varblock's blocks.
// `lists` is where the order's list of channel 0 lies.
fn read_channel<'a>(
    n: usize,
    lists: Stretch,
    plan: Plan,
    group: GroupSides,
    clusters: usize,
    preset_map: &'a [u8],
    store: &'a [u16],
    symbols: &'a [u32],
    at: usize,
    shift: u32,
    rows: &'a [[u32; 32]; 3],
    log: &mut [u8],
    g0: &mut [u32],
    g1: &mut [u32],
    g2: &mut [u32],
) -> Result<(usize, u32), Refusal>
    requires { (n < 3) × (lists ≡ stretch_at (length store.now) plan.order 0) × Planned plan group clusters preset_map.now store.now shift × (at + 64 * 2 ^ plan.shape.exponent ≤ length log.old) }
    ensures { ChannelShown plan group clusters preset_map.now store.now symbols.now at shift rows.now log.old (g0.old ∷ g1.old ∷ g2.old ∷ []) n result log.new (g0.new ∷ g1.new ∷ g2.new ∷ []) }
{
    let c = channel_walked(n);
    let next = read_in_grid(
        c,
        plan.shape,
        group.bw,
        plan.block_contexts[n],
        clusters,
        preset_map,
        list_of(store, lists, c),
        &rows[c],
        symbols,
        at,
        shift,
        log,
        g0,
        g1,
        g2,
    )?;
    let count_over = count_over(symbols[at] as usize, plan.shape.exponent);
    Ok((next, count_over))
}

// The three channels in turn, of what fits: the symbols read, and what the counts of channels 0, 1, 2 come to over the
// varblock's blocks. `lists` is where the order's list of channel 0 lies.
fn read_channels<'a>(
    lists: Stretch,
    plan: Plan,
    group: GroupSides,
    clusters: usize,
    preset_map: &'a [u8],
    store: &'a [u16],
    symbols: &'a [u32],
    at: usize,
    shift: u32,
    rows: &'a [[u32; 32]; 3],
    log: &mut [u8],
    g0: &mut [u32],
    g1: &mut [u32],
    g2: &mut [u32],
) -> Result<(usize, [u32; 3]), Refusal>
    requires { (lists ≡ stretch_at (length store.now) plan.order 0) × Planned plan group clusters preset_map.now store.now shift × (at + 192 * 2 ^ plan.shape.exponent ≤ length log.old) }
    ensures { VarblockShown plan (items_by plan group store.now) symbols.now at result rows.now log.new (g0.new ∷ g1.new ∷ g2.new ∷ []) (read_items shift clusters preset_map.now (items_by plan group store.now) (going (drop at symbols.now) at log.old (g0.old ∷ g1.old ∷ g2.old ∷ []) (three rows.now))) }
{
    let mut counts_over = [0u32; 3];
    let mut at = at;
    for n in 0..3 {
        let (next, count_over) = read_channel(
            n, lists, plan, group, clusters, preset_map, store, symbols, at, shift, rows, log, g0,
            g1, g2,
        )?;
        counts_over[channel_walked(n)] = count_over;
        at = next;
    }
    Ok((at, counts_over))
}

// A varblock's limits hold.
fn varblock_small(plan: Plan, group: GroupSides, clusters: usize, shift: u32) -> bool
    ensures { result ≡ varblock_small plan group clusters shift }
{
    (plan.shape.x < 32)
        & (plan.shape.y < 32)
        & (1 <= plan.shape.wide)
        & (plan.shape.exponent <= 10)
        & (group.bw <= 32)
        & (plan.block_contexts[0] < clusters)
        & (plan.block_contexts[1] < clusters)
        & (plan.block_contexts[2] < clusters)
        & (clusters <= 16)
        & (shift <= 3)
}

// What is lent for a varblock fits: lengths and limits, with `list_length` the numbers in each list of its order.
#[tactic(auto, using(coeff_walk::proofs::laws::Counts::shifted_left), unfolding(coeff_group::specs::laws::Lent::varblock_fits))]
fn varblock_fits(
    plan: Plan,
    group: GroupSides,
    clusters: usize,
    preset_map_length: usize,
    list_length: usize,
    at: usize,
    shift: u32,
    log_length: usize,
) -> bool
    ensures { result ≡ varblock_fits plan group clusters preset_map_length list_length at shift log_length }
{
    varblock_small(plan, group, clusters, shift)
        && at <= log_length
        && preset_map_length == 495 * clusters
        && list_length == 128 << plan.shape.exponent
        && 192 << plan.shape.exponent <= log_length - at
}

// The three channels of a varblock, 1, 0, 2 in turn: refused where what is lent does not fit. No channel looks at another's
// row, so the rows are lent for reading alone: whoever holds them rewrites them by the counts over blocks, which stand behind
// the symbols read, those of channels 0, 1, 2. `at` is how many symbols are read.
pub fn read_planned<'a>(
    plan: Plan,
    group: GroupSides,
    clusters: usize,
    preset_map: &'a [u8],
    store: &'a [u16],
    symbols: &'a [u32],
    at: usize,
    shift: u32,
    rows: &'a [[u32; 32]; 3],
    log: &mut [u8],
    g0: &mut [u32],
    g1: &mut [u32],
    g2: &mut [u32],
) -> Result<(usize, [u32; 3]), Refusal>
    ensures { VarblockShown plan (items_by plan group store.now) symbols.now at result rows.now log.new (g0.new ∷ g1.new ∷ g2.new ∷ []) (planned_read plan group clusters preset_map.now store.now rows.now symbols.now at shift log.old (g0.old ∷ g1.old ∷ g2.old ∷ [])) }
{
    let lists = stretch_of(store.len(), plan.order, 0);
    if !varblock_fits(
        plan,
        group,
        clusters,
        preset_map.len(),
        lists.len,
        at,
        shift,
        log.len(),
    ) {
        return Err(Refusal::Length);
    }
    read_channels(
        lists, plan, group, clusters, preset_map, store, symbols, at, shift, rows, log, g0, g1, g2,
    )
}
