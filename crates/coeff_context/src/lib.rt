#![tactic(auto)]
// The context of a coefficient (`hf_coeff.rs`), and the call that tells it of a situation (document 02, No. 9).
use crate::tables::{COEFF_FREQ_CONTEXT, COEFF_NUM_NONZERO_CONTEXT};
use refusal::Refusal;

pub mod tables;

ghost use Rattle.std.specs.Prelude.{◌≡◌};
ghost use Rattle.refusal.specs.Answer.{answered};
ghost use Rattle.coeff_context.specs.Census.{is_power, situation, InCensus, context_of, speaks_of, census_of};

// A power of two up to 1,024.
fn is_power(blocks: u32) -> bool
    ensures { result ≡ is_power blocks }
{
    matches!(
        blocks,
        1 | 2 | 4 | 8 | 16 | 32 | 64 | 128 | 256 | 512 | 1024
    )
}

// Whether the census speaks of a situation.
#[tactic(auto, unfolding(crate::specs::Census::speaks_of))]
fn speaks_of(blocks: u32, count: u32, place: u32, prev: u32) -> bool
    ensures { result ≡ speaks_of (situation blocks count place prev) }
{
    is_power(blocks)
        & (1 <= count)
        & (u64::from(count) + u64::from(place) <= 63 * u64::from(blocks))
        & (prev <= 1)
}

// The context of a situation that the census speaks of.
#[tactic(auto, using(crate::proofs::laws::Census::quotients_small), unfolding(crate::specs::Context::coeff_context, crate::specs::Context::NUM_NONZERO, crate::specs::Context::FREQ))]
fn context_of(blocks: u32, count: u32, place: u32, prev: u32) -> u32
    requires { InCensus (situation blocks count place prev) }
    ensures { result ≡ context_of (situation blocks count place prev) }
{
    let a = ((count - 1) / blocks) as usize;
    let c = (place / blocks) as usize;
    (COEFF_NUM_NONZERO_CONTEXT[a] as u32 + COEFF_FREQ_CONTEXT[c] as u32) * 2 + prev
}

// The context of a coefficient in a varblock of so many blocks, with `count` that are not 0 still due at `place`; prev is 1
// if the symbol before was not 0. Refused where the census does not speak of that.
#[tactic(auto, unfolding(crate::specs::Census::census_of))]
pub fn coefficient_context(blocks: u32, count: u32, place: u32, prev: u32) -> Result<u32, Refusal>
    ensures { answered result ≡ census_of (situation blocks count place prev) }
{
    if !speaks_of(blocks, count, place, prev) {
        return Err(Refusal::Parameter);
    }
    Ok(context_of(blocks, count, place, prev))
}
