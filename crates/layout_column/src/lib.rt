#![tactic(auto)]
// A column of a layout by itself (`hf_metadata.rs`).
ghost use Rattle.std.specs.Prelude.{◌≡◌};
ghost use Rattle.layout_column.specs.Columns.{hf_mul_of};
ghost use Rattle.layout_column.specs.laws.Judged.{judged_of};
ghost use Rattle.refusal.specs.Answer.{answered};

use dct_select::TransformType;
use refusal::Refusal;

// What a column asks for: the kind of its varblock's corner, hf_mul, and the blocks across and down.
#[derive(Clone, Copy)]
pub struct JudgedColumn {
    pub kind: u8,
    pub hf_mul: u32,
    pub wide: usize,
    pub high: usize,
}

// A column by itself at a block asks for a varblock inside a square of 32 x 32 blocks, or is refused: the type as a whole
// number, hf_mul = mul + 1, and the borders, in turn.
pub fn judge(transform: u32, mul: u32, x: usize, y: usize) -> Result<JudgedColumn, Refusal>
    ensures { answered result ≡ judged_of transform (hf_mul_of mul) x y }
{
    let known = TransformType::try_from(transform).map_err(|_| Refusal::UnknownTransform(x, y))?;
    let hf_mul = mul.wrapping_add(1);
    if !(1..0x8000_0000).contains(&hf_mul) {
        return Err(Refusal::HfMul(x, y));
    }
    let sides = known.dct_select_size();
    if 32 < x % 32 + sides.wide || 32 < y % 32 + sides.high {
        return Err(Refusal::Border(x, y));
    }
    Ok(JudgedColumn {
        kind: (2 + transform) as u8,
        hf_mul,
        wide: sides.wide,
        high: sides.high,
    })
}
