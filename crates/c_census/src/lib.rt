#![tactic(auto)]
// C interface: the context of a coefficient.
ghost use Rattle.std.specs.Prelude.{◌≡◌};
ghost use Rattle.refusal.specs.Said.{said_at};
ghost use Rattle.refusal.specs.Handed.{with, handed};
ghost use Rattle.coeff_context.specs.Census.{situation, census_of};

// Beside a refusal the context stays as it was.
#[unsafe(no_mangle)]
pub extern "C" fn netbuff_coefficient_context(
    blocks: u32,
    count: u32,
    place: u32,
    prev: u32,
    context: &mut u32,
    x: &mut usize,
    y: &mut usize,
) -> u32
    ensures { with (said_at result x.new y.new) context.new ≡ handed (census_of (situation blocks count place prev)) context.old }
{
    match coeff_context::coefficient_context(blocks, count, place, prev) {
        Ok(number) => {
            *context = number;
            *x = 0;
            *y = 0;
            0
        }
        Err(refusal) => {
            let said = refusal.numbers();
            *x = said.x;
            *y = said.y;
            said.number
        }
    }
}
