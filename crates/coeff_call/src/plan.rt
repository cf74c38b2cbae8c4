// What of a varblock no symbol decides.
ghost use Rattle.std.specs.Prelude.{◌≡◌, ◌-◌, ◌≤◌, ◌<◌, get_or};
ghost use Rattle.dct_select.specs.Transforms.{order_of};
ghost use Rattle.dct_select.specs.laws.Exponents.{exponent_of};
ghost use Rattle.coeff_group.specs.laws.Plans.{shape_of, plan_by};

use coeff_group::plan::Plan;
use coeff_walk::shape::Shape;
use context_index::block_contexts;
use dct_select::TransformType;
use lent_check::GroupSides;

// The exponent of each transform's number of blocks.
const EXPONENTS: [u8; 27] = [
    0, 0, 0, 0, 2, 4, 1, 1, 2, 2, 3, 3, 0, 0, 0, 0, 0, 0, 6, 5, 5, 8, 7, 7, 10, 9, 9,
];

// The exponent of the number of blocks of a corner's kind.
fn exponent_of(kind: u8) -> usize
    requires { 2 ≤ kind }
    ensures { result ≡ exponent_of (kind - 2) }
{
    let t = (kind - 2) as usize;
    if 27 <= t {
        return 0;
    }
    EXPONENTS[t] as usize
}

// The corner, size and turn of a corner's kind.
pub(crate) fn shape_of(x: usize, y: usize, kind: u8) -> Shape
    requires { 2 ≤ kind }
    ensures { result ≡ shape_of x y (kind - 2) }
{
    match TransformType::try_from(u32::from(kind - 2)) {
        Ok(t) => {
            let size = t.dct_select_size();
            let turn = t.need_transpose();
            let exponent = exponent_of(kind);
            Shape {
                x,
                y,
                wide: size.wide,
                exponent,
                turn,
            }
        }
        Err(_) => Shape {
            x,
            y,
            wide: 0,
            exponent: 0,
            turn: true,
        },
    }
}

// The order of a corner's kind.
pub(crate) fn order_of(kind: u8) -> usize
    requires { 2 ≤ kind }
    ensures { result ≡ order_of (kind - 2) }
{
    match TransformType::try_from(u32::from(kind - 2)) {
        Ok(t) => t.order_id(),
        Err(_) => 0,
    }
}

// A number of an LF grid, 0 outside it.
pub(crate) fn number_at(grid: &[u32], i: usize) -> u32
    ensures { result ≡ get_or grid.now i 0 }
{
    grid.get(i).copied().unwrap_or(0)
}

// The varblock of a corner's kind and hf_mul at block x, y.
pub(crate) fn plan_of<'a>(
    x: usize,
    y: usize,
    group: GroupSides,
    kind: u8,
    hf_mul: u32,
    lengths: [u32; 4],
    lf_thresholds: &'a [u32; 45],
    qf_thresholds: &'a [u32; 15],
    block_ctx_map: &'a [u8; 2496],
    lf_there: bool,
    lf0: &'a [u32],
    lf1: &'a [u32],
    lf2: &'a [u32],
) -> Plan
    requires { (2 ≤ kind) × (x < 32) × (y < 32) × (group.bw ≤ 32) }
    ensures { result ≡ plan_by x y group (kind - 2) hf_mul lengths lf_thresholds.now qf_thresholds.now block_ctx_map.now lf_there lf0.now lf1.now lf2.now }
{
    let i = y * group.bw + x;
    let order = order_of(kind);
    let shape = shape_of(x, y, kind);
    let block_contexts = block_contexts(
        lengths,
        lf_thresholds,
        qf_thresholds,
        block_ctx_map,
        order,
        hf_mul,
        lf_there,
        number_at(lf0, i),
        number_at(lf1, i),
        number_at(lf2, i),
    );
    Plan {
        shape,
        order,
        block_contexts,
    }
}
