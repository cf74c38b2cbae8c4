#![tactic(auto)]
// The coefficients of a pass group (`hf_coeff.rs`).
use crate::group::read_group;
use coeff_checks::before_work;
use coeff_preset::read_preset;
use context_record::HfBlockContext;
use lent_check::GroupSides;
use refusal::Refusal;

pub mod group;
pub mod plan;
pub mod rows;
pub mod varblock;

ghost use Rattle.std.specs.Prelude.{◌≡◌, ◌+◌, ◌*◌, ◌≤◌, ◌<◌, length, take, drop};
ghost use Rattle.coeff_group.specs.PassGroup.{pass_group};
ghost use Rattle.coeff_call.specs.Call.{lent, leaves, call};

// The part of a preset in the cluster map.
fn preset_map_of(cluster_map: &[u8], clusters: u32, preset: u32) -> &[u8]
    requires { (clusters ≤ 16) × (preset < 256) × (495 * clusters * preset + 495 * clusters ≤ length cluster_map.now) }
    ensures { result.now ≡ take (495 * clusters) (drop (495 * clusters * preset) cluster_map.now) }
{
    let size = 495 * clusters as usize;
    let a = size * preset as usize;
    let e = a + size;
    &cluster_map[a..e]
}

// Reads the coefficients of a group: the preset number from `bytes`, then counts and coefficients from `symbols`. Adds them to
// the grids of channels 0, 1, 2, logs the cluster of each symbol, and tells how many symbols are read.
pub fn write_hf_coeff<'a>(
    group: GroupSides,
    kinds: &'a [u8],
    hf_mul: &'a [u32],
    contexts: HfBlockContext,
    lf_there: bool,
    lf0: &'a [u32],
    lf1: &'a [u32],
    lf2: &'a [u32],
    store: &'a [u16],
    presets: u32,
    cluster_map: &'a [u8],
    shift: u32,
    bytes: &'a [u8],
    symbols: &'a [u32],
    log: &mut [u8],
    g0: &mut [u32],
    g1: &mut [u32],
    g2: &mut [u32],
) -> Result<usize, Refusal>
    ensures { leaves result log.new g0.new g1.new g2.new ≡ call (lent (pass_group group kinds.now hf_mul.now contexts lf_there lf0.now lf1.now lf2.now store.now) presets cluster_map.now shift bytes.now symbols.now log.old g0.old g1.old g2.old) }
{
    before_work(
        group,
        kinds,
        hf_mul,
        contexts,
        lf_there,
        lf0,
        lf1,
        lf2,
        store,
        presets,
        shift,
        cluster_map.len(),
        log.len(),
        g0.len(),
        g1.len(),
        g2.len(),
    )?;
    let preset = read_preset(bytes, presets)?;
    read_group(
        group,
        kinds,
        hf_mul,
        contexts,
        lf_there,
        lf0,
        lf1,
        lf2,
        store,
        preset_map_of(cluster_map, contexts.num_block_clusters, preset),
        shift,
        symbols,
        log,
        g0,
        g1,
        g2,
    )
}
