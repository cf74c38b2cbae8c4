// Each cell of a lent layout by itself.
ghost use Rattle.std.specs.Prelude.{◌≡◌, ◌≤◌, length};
ghost use Rattle.lent_check.specs.laws.Flaws.{is_sound};

use bytes_below::all_below;
use lent_cells::flaw;

// Every kind is known, and no cell has a flaw. The loop has no early exit, so that many cells are taken at a time.
pub(crate) fn cells_sound(kinds: &[u8], hf_mul: &[u32]) -> bool
    requires { (length kinds.now ≤ 65536) × (length hf_mul.now ≡ length kinds.now) }
    ensures { result ≡ is_sound kinds.now hf_mul.now }
{
    if !all_below(kinds, 29) {
        return false;
    }
    let mut flaws = 0;
    for (i, &kind) in kinds.iter().enumerate() {
        flaws += flaw(kind, hf_mul[i]);
    }
    flaws == 0
}
