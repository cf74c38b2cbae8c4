// One channel of a varblock: its count, then its coefficients (`hf_coeff.rs`).
ghost use Rattle.std.specs.Prelude.{◌≡◌, [], ◌∷◌, ◌<◌, ◌≤◌, length, drop};
ghost use Rattle.coeff_walk.specs.Item.{counted};
ghost use Rattle.coeff_walk.specs.laws.Outcome.{WalkShown, AllUseUp};
ghost use Rattle.coeff_walk.specs.laws.Items.{ItemReady, item_at, spot_of};
ghost use Rattle.coeff_group.specs.laws.Steps.{InGrid};

use crate::count::{count_cluster, first_prev};
use coeff_places::read_places;
use coeff_walk::shape::Shape;
use coeff_walk::spot::Spot;
use refusal::Refusal;

// The first cell of a varblock, in a grid of a group `bw` blocks wide.
fn spot_of(v: Shape, bw: usize) -> Spot
    requires { (v.x < 32) × (v.y < 32) × (bw ≤ 32) }
    ensures { result ≡ spot_of v bw }
{
    Spot {
        width: 8 * bw,
        x: 8 * v.x,
        y: 8 * v.y,
        exponent: v.exponent,
        turn: v.turn,
    }
}

// A count, then coefficients, in a group `bw` blocks wide. `list` is the order's list of this channel, `row` its row of counts,
// `at` the symbols read.
fn read_counted<'a>(
    v: Shape,
    bw: usize,
    block_context: usize,
    clusters: usize,
    preset_map: &'a [u8],
    list: &'a [u16],
    row: &'a [u32; 32],
    symbols: &'a [u32],
    at: usize,
    shift: u32,
    log: &mut [u8],
    grid: &mut [u32],
) -> Result<usize, Refusal>
    requires { ItemReady v bw block_context clusters (length preset_map.now) (length list.now) at shift (length log.old) }
    ensures { WalkShown result log.new grid.new (counted shift clusters preset_map.now (item_at v bw block_context list.now) row.now (drop at symbols.now) at log.old grid.old) × AllUseUp (item_at v bw block_context list.now ∷ []) symbols.now at result }
{
    if symbols.len() <= at {
        return Err(Refusal::SymbolsEnd(at));
    }
    let n = symbols[at] as usize;
    log[at] = count_cluster(preset_map, row, v.x, v.y, block_context, clusters);
    let next = at + 1;
    if n == 0 {
        return Ok(next);
    }
    let spot = spot_of(v, bw);
    let prev = first_prev(n, v.exponent);
    let low = 2 << v.exponent;
    let begin = block_context * 458 + 37 * clusters;
    let end = begin + 458;
    read_places(
        &list[low..],
        spot,
        symbols,
        next,
        n,
        prev,
        &preset_map[begin..end],
        shift,
        log,
        grid,
    )
}

// Channel c, in its grid. A call for each: the C interface lends three grids, and a choice among three that are lent, before one
// call, loses what each of them ends as.
pub(crate) fn read_in_grid<'a>(
    c: usize,
    v: Shape,
    bw: usize,
    block_context: usize,
    clusters: usize,
    preset_map: &'a [u8],
    list: &'a [u16],
    row: &'a [u32; 32],
    symbols: &'a [u32],
    at: usize,
    shift: u32,
    log: &mut [u8],
    g0: &mut [u32],
    g1: &mut [u32],
    g2: &mut [u32],
) -> Result<usize, Refusal>
    requires { (c < 3) × ItemReady v bw block_context clusters (length preset_map.now) (length list.now) at shift (length log.old) }
    ensures { InGrid c (g0.old ∷ g1.old ∷ g2.old ∷ []) result log.new (g0.new ∷ g1.new ∷ g2.new ∷ []) (λ g. counted shift clusters preset_map.now (item_at v bw block_context list.now) row.now (drop at symbols.now) at log.old g) × AllUseUp (item_at v bw block_context list.now ∷ []) symbols.now at result }
{
    if c == 0 {
        return read_counted(
            v,
            bw,
            block_context,
            clusters,
            preset_map,
            list,
            row,
            symbols,
            at,
            shift,
            log,
            g0,
        );
    }
    if c == 1 {
        return read_counted(
            v,
            bw,
            block_context,
            clusters,
            preset_map,
            list,
            row,
            symbols,
            at,
            shift,
            log,
            g1,
        );
    }
    read_counted(
        v,
        bw,
        block_context,
        clusters,
        preset_map,
        list,
        row,
        symbols,
        at,
        shift,
        log,
        g2,
    )
}
