#![tactic(auto)]
// A cell of a lent layout by itself: what is wrong with its kind and hf_mul, and of how many blocks it is the corner. Every answer
// is a number, so that a loop takes many cells at a time.
ghost use Rattle.std.specs.Prelude.{◌≡◌, ◌≤◌};
ghost use Rattle.lent_cells.specs.laws.Cells.{flaw_of, within_of, larger_of, gap_of};

// An occupied block has hf_mul 0, any other has not, and none is negative: 0 if so.
#[tactic(auto, unfolding(crate::specs::laws::Cells::flaw_of))]
pub fn flaw(kind: u8, hf_mul: u32) -> u32
    ensures { (result ≡ flaw_of kind hf_mul) × (result ≤ 2) }
{
    let unlike = (kind == 1) != (hf_mul == 0);
    let negative = 2147483647 < hf_mul;
    unlike as u32 + negative as u32
}

// 1 for a kind within bounds, else 0.
#[tactic(auto, unfolding(crate::specs::laws::Cells::within_of))]
fn within(kind: u8, first: u8, last: u8) -> u8
    ensures { (result ≡ within_of kind first last) × (result ≤ 1) }
{
    (first..=last).contains(&kind) as u8
}

// 0 for an occupied block and for a corner of one block, 1 for a free block and for a corner of more than one.
#[tactic(auto, unfolding(crate::specs::laws::Cells::larger_of))]
pub fn larger(kind: u8) -> u8
    ensures { result ≡ larger_of kind }
{
    (within(kind, 1, 5) + within(kind, 14, 19) == 0) as u8
}

// 0 for a corner of one block on a clear x, and for any other cell on a covered one, else 1.
#[tactic(auto, unfolding(crate::specs::laws::Cells::gap_of, crate::specs::laws::Cells::one_block))]
pub fn gap(kind: u8, v: u8) -> u8
    ensures { result ≡ gap_of kind v }
{
    let one = within(kind, 2, 5) + within(kind, 14, 19);
    ((0 < v) as u8 == one) as u8
}
