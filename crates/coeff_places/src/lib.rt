#![tactic(auto)]
// The places of one channel of a varblock: the coefficients behind its count (`hf_coeff.rs`).
use crate::walk::walk_places;
use coeff_walk::spot::Spot;
use refusal::Refusal;

pub mod context;
pub mod place;
pub mod walk;

ghost use Rattle.std.specs.Prelude.{◌≡◌, ◌≤◌};
ghost use Rattle.coeff_walk.specs.laws.Outcome.{WalkShown, UsesUp};
ghost use Rattle.coeff_walk.specs.laws.Lent.{spot_small, lent_fits, places_read};

// The limits hold.
fn spot_small(spot: Spot, shift: u32) -> bool
    ensures { result ≡ spot_small spot shift }
{
    (spot.width <= 256) & (spot.x <= 256) & (spot.y <= 256) & (spot.exponent <= 10) & (shift <= 3)
}

// What is lent fits: lengths and limits.
#[tactic(auto, using(coeff_walk::proofs::laws::Counts::shifted_left), unfolding(coeff_walk::specs::laws::Lent::lent_fits))]
fn lent_fits(
    spot: Spot,
    list_length: usize,
    at: usize,
    coeff_map_length: usize,
    shift: u32,
    log_length: usize,
) -> bool
    ensures { result ≡ lent_fits spot list_length at coeff_map_length shift log_length }
{
    spot_small(spot, shift)
        && at <= log_length
        && list_length / 2 <= 63 << spot.exponent
        && coeff_map_length == 458
        && list_length / 2 <= log_length - at
}

// The coefficients behind a count of `count`: refused where what is lent does not fit. `list` is the channel's without its
// first places, which are the low-frequency cells, `at` the symbols read, `first_prev` whether the count is at most four
// for each block, `coeff_map` the 458 entries of the cluster map. Done only with the count used up.
pub fn read_places(
    list: &[u16],
    spot: Spot,
    symbols: &[u32],
    at: usize,
    count: usize,
    first_prev: bool,
    coeff_map: &[u8],
    shift: u32,
    log: &mut [u8],
    grid: &mut [u32],
) -> Result<usize, Refusal>
    ensures { WalkShown result log.new grid.new (places_read spot list.now symbols.now at count first_prev coeff_map.now shift log.old grid.old) × UsesUp count symbols.now at result }
{
    if !lent_fits(spot, list.len(), at, coeff_map.len(), shift, log.len()) {
        return Err(Refusal::Length);
    }
    if 63 << spot.exponent < count {
        return Err(Refusal::Count(at));
    }
    walk_places(
        list,
        spot,
        symbols,
        at,
        count,
        usize::from(first_prev),
        coeff_map,
        shift,
        log,
        grid,
    )
}
