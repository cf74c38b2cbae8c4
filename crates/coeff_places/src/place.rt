// The cells of a list's places (`hf_coeff.rs`).
ghost use Rattle.std.specs.Prelude.{◌≡◌, ◌/◌, ◌<◌, ◌≤◌, length, slice_index};
ghost use Rattle.coeff_walk.specs.laws.Outcome.{spot_cells};

use coeff_walk::spot::Spot;

// The cell of place k.
pub(crate) fn cell_of(list: &[u16], k: usize, spot: Spot) -> usize
    requires { (k < length list.now / 2) × (spot.width ≤ 256) × (spot.x ≤ 256) × (spot.y ≤ 256) }
    ensures { result ≡ slice_index (spot_cells spot list.now) k }
{
    let a = list[2 * k] as usize;
    let b = list[2 * k + 1] as usize;
    if spot.turn {
        return (spot.y + a) * spot.width + (spot.x + b);
    }
    (spot.y + b) * spot.width + (spot.x + a)
}
