// The checks before work.
ghost use Rattle.std.specs.Prelude.{◌≡◌};
ghost use Rattle.coeff_checks.specs.Checks.{parameters_fit, three_fit};
ghost use Rattle.coeff_checks.specs.laws.Tests.{lf_lengths_fit, read_lengths_fit, other_lengths_fit, group_passes};

use lent_check::GroupSides;
use lent_check::check::check_group;
use order_store::NUMBERS;

pub(crate) fn parameters_fit(shift: u32, presets: u32) -> bool
    ensures { result ≡ parameters_fit shift presets }
{
    (shift <= 3) & (presets <= 256)
}

// All three are n.
fn three_fit(a: usize, b: usize, c: usize, n: usize) -> bool
    ensures { result ≡ three_fit a b c n }
{
    (a == n) & (b == n) & (c == n)
}

// LF grids are asked for their lengths only if there are any.
fn lf_fits(there: bool, lf0_length: usize, lf1_length: usize, lf2_length: usize, n: usize) -> bool
    ensures { result ≡ lf_lengths_fit there lf0_length lf1_length lf2_length n }
{
    !there || three_fit(lf0_length, lf1_length, lf2_length, n)
}

// Lengths of what is lent to be read, for n blocks.
#[tactic(auto, unfolding(order_store::specs::Store::PLACES))]
pub(crate) fn read_fits(
    kinds_length: usize,
    hf_mul_length: usize,
    there: bool,
    lf0_length: usize,
    lf1_length: usize,
    lf2_length: usize,
    store_length: usize,
    n: usize,
) -> bool
    ensures { result ≡ read_lengths_fit kinds_length hf_mul_length there lf0_length lf1_length lf2_length store_length n }
{
    (kinds_length == n)
        & (hf_mul_length == n)
        & lf_fits(there, lf0_length, lf1_length, lf2_length, n)
        & (store_length == NUMBERS)
}

// The other lengths: of the cluster map, the three grids and the log, once limits and `read_fits` hold.
pub(crate) fn other_lengths_fit(
    clusters: usize,
    presets: usize,
    cluster_map_length: usize,
    g0_length: usize,
    g1_length: usize,
    g2_length: usize,
    log_length: usize,
    n: usize,
    read_fits: bool,
) -> bool
    ensures { result ≡ other_lengths_fit clusters presets cluster_map_length g0_length g1_length g2_length log_length n read_fits }
{
    clusters <= 16
        && presets <= 256
        && n <= 1024
        && read_fits
        && cluster_map_length == 495 * clusters * presets
        && three_fit(g0_length, g1_length, g2_length, 64 * n)
        && 192 * n <= log_length
}

// The check of a group lets it pass.
pub(crate) fn layout_fits(group: GroupSides, kinds: &[u8], hf_mul: &[u32]) -> bool
    ensures { result ≡ group_passes group.bw group.bh kinds.now hf_mul.now }
{
    check_group(group, kinds, hf_mul).is_ok()
}
