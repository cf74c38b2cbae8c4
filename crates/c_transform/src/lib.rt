#![tactic(auto)]
// C interface: the transform look-up.
ghost use Rattle.std.specs.Prelude.{◌≡◌};
ghost use Rattle.refusal.specs.Said.{said_at};
ghost use Rattle.refusal.specs.Handed.{with, handed};
ghost use Rattle.dct_select.specs.LookUp.{look_up};
ghost use Rattle.c_transform.specs.Transform.{results, answered};

use dct_select::TransformType;

// Beside a refusal the four results stay as they were.
#[unsafe(no_mangle)]
pub extern "C" fn netbuff_transform(
    number: u32,
    wide: &mut usize,
    high: &mut usize,
    order: &mut usize,
    turn: &mut bool,
    x: &mut usize,
    y: &mut usize,
) -> u32
    ensures { with (said_at result x.new y.new) (results wide.new high.new order.new turn.new)
        ≡ handed (answered (look_up number)) (results wide.old high.old order.old turn.old) }
{
    match TransformType::try_from(number) {
        Ok(t) => {
            let size = t.dct_select_size();
            *wide = size.wide;
            *high = size.high;
            *order = t.order_id();
            *turn = t.need_transpose();
            *x = 0;
            *y = 0;
            0
        }
        Err(refusal) => {
            let said = refusal.numbers();
            *x = said.x;
            *y = said.y;
            said.number
        }
    }
}
