// Blocks across and down of the varblock of each kind.
ghost use Rattle.std.specs.Prelude.{◌≡◌};
ghost use Rattle.lent_sides.specs.laws.Sizes.{size_by};

use dct_select::{Sides, TransformType};

// Blocks across and down of each transform, in two tables, as `size_by` takes them. Static: a constant is laid out anew wherever it
// is named.
pub static WIDE: [usize; 27] = [
    1, 1, 1, 1, 2, 4, 1, 2, 1, 4, 2, 4, 1, 1, 1, 1, 1, 1, 8, 4, 8, 16, 8, 16, 32, 16, 32,
];

pub static HIGH: [usize; 27] = [
    1, 1, 1, 1, 2, 4, 2, 1, 4, 1, 4, 2, 1, 1, 1, 1, 1, 1, 8, 8, 4, 16, 16, 8, 32, 32, 16,
];

// Blocks across and down of a corner's varblock from the two tables, 0 and 0 for any other kind.
pub fn size_of(wides: &[usize; 27], highs: &[usize; 27], kind: u8) -> Sides
    ensures { result ≡ size_by wides.now highs.now kind }
{
    if kind < 2 {
        return Sides { wide: 0, high: 0 };
    }
    let t = (kind - 2) as usize;
    if t < TransformType::COUNT {
        return Sides {
            wide: wides[t],
            high: highs[t],
        };
    }
    Sides { wide: 0, high: 0 }
}
