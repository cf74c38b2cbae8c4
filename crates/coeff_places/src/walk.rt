// The walk over the places of one channel of a varblock (`hf_coeff.rs`).
ghost use Rattle.std.specs.Prelude.{◌≡◌, ◌+◌, ◌-◌, ◌*◌, ◌/◌, ◌%◌, ◌^◌, ◌<◌, ◌≤◌, length, drop, slice_index};
ghost use Rattle.coeff_walk.specs.Walk.{flag, gain, walk};
ghost use Rattle.coeff_walk.specs.laws.Outcome.{WalkReady, WalkShown, spot_cells, UsesUp};
ghost use Rattle.coeff_walk.specs.laws.Runs.{ZerosReady, Zeros};

use crate::context::{coeff_context, frequency_at, nonzeros_at};
use crate::place::cell_of;
use coded_numbers::unpack_signed;
use coeff_walk::spot::Spot;
use refusal::Refusal;

// a + b, losing the top bit. A function of its own: its parameters are known to be below 2^32, what is read from a grid that
// is lent to be written is not.
fn sum(a: u32, b: u32) -> u32
    ensures { (result ≡ (a + b) % 2 ^ 32) × (b ≡ 0 → result ≡ a) }
{
    a.wrapping_add(b)
}

// The cell of place k gains what symbol u says, shifted, if the grid has that cell. A symbol 0 adds 0: there is no test of
// it, so that a walk over many that are not 0 has nothing to guess.
fn gain_at(list: &[u16], k: usize, spot: Spot, u: u32, shift: u32, grid: &mut [u32])
    requires { (k < length list.now / 2) × (spot.width ≤ 256) × (spot.x ≤ 256) × (spot.y ≤ 256) × (shift ≤ 3) }
    ensures { grid.new ≡ gain shift grid.old (slice_index (spot_cells spot list.now) k) u }
{
    let p = cell_of(list, k, spot);
    if p < grid.len() {
        grid[p] = sum(grid[p], unpack_signed(u) << shift);
    }
}

// The coefficients of a list's places, until `count` of them were not 0; stopped where the places end before. Each place is
// done in the same way, whatever its symbol.
fn walk_dense(
    list: &[u16],
    spot: Spot,
    symbols: &[u32],
    at: usize,
    count: usize,
    first_prev: usize,
    coeff_map: &[u8],
    shift: u32,
    log: &mut [u8],
    grid: &mut [u32],
) -> Result<usize, Refusal>
    requires { WalkReady spot list.now at count first_prev (length coeff_map.now) shift (length log.old) }
    ensures { WalkShown result log.new grid.new (walk shift (2 ^ spot.exponent) coeff_map.now (spot_cells spot list.now) 0 first_prev count (drop at symbols.now) at log.old grid.old) }
{
    let mut left = count;
    let mut prev = first_prev;
    let end = list.len() / 2;
    for k in 0..end {
        let i = at + k;
        if left == 0 {
            return Ok(i);
        }
        let context = coeff_context(spot.exponent, left - 1, k, prev);
        if 458 <= context {
            return Err(Refusal::TooManyZeros(i));
        }
        if symbols.len() <= i {
            return Err(Refusal::SymbolsEnd(i));
        }
        let u = symbols[i];
        log[i] = coeff_map[context];
        gain_at(list, k, spot, u, shift, grid);
        prev = usize::from(u != 0);
        left -= prev;
    }
    if left == 0 {
        return Ok(at + end);
    }
    Err(Refusal::CountRemaining(at + end))
}

// Skips the zeros from place `from` on, below place `stop`: logs each, and tells the place behind them. A 0 leaves the
// count as it is, so `map_from`, the coefficient map from the count's entry on, serves them all; 2 to the power
// `exponent` blocks.
fn skip_zeros(
    exponent: usize,
    symbols: &[u32],
    at: usize,
    from: usize,
    stop: usize,
    map_from: &[u8],
    log: &mut [u8],
) -> usize
    requires { ZerosReady exponent (length symbols.now) at from stop (length map_from.now) (length log.old) }
    ensures { Zeros exponent map_from.now symbols.now at from stop log.old result log.new }
{
    for k in from..stop {
        let i = at + k;
        if symbols[i] != 0 {
            return k;
        }
        let y = frequency_at(exponent, k);
        log[i] = map_from[y * 2];
    }
    stop
}

// The same; for one block, which most varblocks are, in a loop of its own with no shift.
fn zeros_from(
    exponent: usize,
    symbols: &[u32],
    at: usize,
    from: usize,
    stop: usize,
    map_from: &[u8],
    log: &mut [u8],
) -> usize
    requires { ZerosReady exponent (length symbols.now) at from stop (length map_from.now) (length log.old) }
    ensures { Zeros exponent map_from.now symbols.now at from stop log.old result log.new }
{
    if exponent == 0 {
        return skip_zeros(0, symbols, at, from, stop, map_from, log);
    }
    skip_zeros(exponent, symbols, at, from, stop, map_from, log)
}

// The same, for a count of at most 32 for each block, with which no context is too large. Zeros are skipped in a loop of their
// own.
fn walk_sparse(
    list: &[u16],
    spot: Spot,
    symbols: &[u32],
    at: usize,
    count: usize,
    first_prev: usize,
    coeff_map: &[u8],
    shift: u32,
    log: &mut [u8],
    grid: &mut [u32],
) -> Result<usize, Refusal>
    requires { WalkReady spot list.now at count first_prev (length coeff_map.now) shift (length log.old) × (count ≤ 32 * 2 ^ spot.exponent) }
    ensures { WalkShown result log.new grid.new (walk shift (2 ^ spot.exponent) coeff_map.now (spot_cells spot list.now) 0 first_prev count (drop at symbols.now) at log.old grid.old) }
{
    let mut left = count;
    let mut prev = first_prev;
    let mut k = 0;
    let end = list.len() / 2;
    let stop = end.min(symbols.len().saturating_sub(at));
    // A step is one place, or a run of zeros: no `for`.
    while k < stop {
        if left == 0 {
            return Ok(at + k);
        }
        let i = at + k;
        let context = coeff_context(spot.exponent, left - 1, k, prev);
        let u = symbols[i];
        log[i] = coeff_map[context];
        if u == 0 {
            let entry = 2 * nonzeros_at(spot.exponent, left - 1);
            k = zeros_from(
                spot.exponent,
                symbols,
                at,
                k + 1,
                stop,
                &coeff_map[entry..],
                log,
            );
            prev = 0;
            continue;
        }
        gain_at(list, k, spot, u, shift, grid);
        left -= 1;
        prev = 1;
        k += 1;
    }
    if left == 0 {
        return Ok(at + k);
    }
    if end <= k {
        return Err(Refusal::CountRemaining(at + k));
    }
    Err(Refusal::SymbolsEnd(at + k))
}

// The same, by the way that suits the count: sparse, that is at most a quarter of the places, or dense. A list has two numbers
// for each place. A walk that is done has used its count up.
pub(crate) fn walk_places(
    list: &[u16],
    spot: Spot,
    symbols: &[u32],
    at: usize,
    count: usize,
    first_prev: usize,
    coeff_map: &[u8],
    shift: u32,
    log: &mut [u8],
    grid: &mut [u32],
) -> Result<usize, Refusal>
    requires { WalkReady spot list.now at count first_prev (length coeff_map.now) shift (length log.old) }
    ensures { WalkShown result log.new grid.new (walk shift (2 ^ spot.exponent) coeff_map.now (spot_cells spot list.now) 0 first_prev count (drop at symbols.now) at log.old grid.old) × UsesUp count symbols.now at result }
{
    if list.len() / 8 < count {
        return walk_dense(
            list, spot, symbols, at, count, first_prev, coeff_map, shift, log, grid,
        );
    }
    walk_sparse(
        list, spot, symbols, at, count, first_prev, coeff_map, shift, log, grid,
    )
}
