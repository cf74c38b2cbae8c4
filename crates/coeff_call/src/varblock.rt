// One varblock of a group: read, and its counts over blocks put into the rows.
ghost use Rattle.std.specs.Prelude.{◌≡◌, [], ◌∷◌, ◌+◌, ◌*◌, ◌^◌, ◌≤◌, length, drop};
ghost use Rattle.coeff_walk.specs.laws.Outcome.{AllUseUp};
ghost use Rattle.coeff_group.specs.Group.{going, read_items};
ghost use Rattle.coeff_group.specs.laws.Steps.{Shown};
ghost use Rattle.coeff_group.specs.laws.Plans.{items_by, Planned};

use crate::rows::rewrite;
use coeff_group::plan::Plan;
use coeff_varblock::read_planned;
use lent_check::GroupSides;
use refusal::Refusal;

// Reads a planned varblock and rewrites the rows by its counts. `at` is how many symbols are read.
pub(crate) fn read_varblock<'a>(
    plan: Plan,
    group: GroupSides,
    clusters: usize,
    preset_map: &'a [u8],
    store: &'a [u16],
    symbols: &'a [u32],
    at: usize,
    shift: u32,
    rows: &mut [[u32; 32]; 3],
    log: &mut [u8],
    g0: &mut [u32],
    g1: &mut [u32],
    g2: &mut [u32],
) -> Result<usize, Refusal>
    requires { Planned plan group clusters preset_map.now store.now shift × (at + 192 * 2 ^ plan.shape.exponent ≤ length log.old) × (plan.shape.x + plan.shape.wide ≤ 32) × (length rows.old ≡ 3) }
    ensures { (length rows.new ≡ 3) × Shown symbols.now (at + 192 * 2 ^ plan.shape.exponent) result rows.new log.new (g0.new ∷ g1.new ∷ g2.new ∷ []) (read_items shift clusters preset_map.now (items_by plan group store.now) (going (drop at symbols.now) at log.old (g0.old ∷ g1.old ∷ g2.old ∷ []) rows.old)) × AllUseUp (items_by plan group store.now) symbols.now at result }
{
    let (next, counts_over) = read_planned(
        plan, group, clusters, preset_map, store, symbols, at, shift, rows, log, g0, g1, g2,
    )?;
    // What each channel's count comes to goes into its row, in the order of the walk.
    rewrite(&mut rows[1], plan.shape.x, plan.shape.wide, counts_over[1]);
    rewrite(&mut rows[0], plan.shape.x, plan.shape.wide, counts_over[0]);
    rewrite(&mut rows[2], plan.shape.x, plan.shape.wide, counts_over[2]);
    Ok(next)
}
