// The contexts of coefficients (`hf_coeff.rs`).
ghost use Rattle.std.specs.Prelude.{◌≡◌, ◌*◌, ◌/◌, ◌^◌, ◌<◌, ◌≤◌, slice_index};
ghost use Rattle.coeff_context.specs.Context.{FREQ, NUM_NONZERO, coeff_context};

use coeff_context::tables::{COEFF_FREQ_CONTEXT, COEFF_NUM_NONZERO_CONTEXT};

// The entry by the count, when n more are not 0 after this one; 2 to the power `exponent` blocks.
#[tactic(auto, unfolding(coeff_context::specs::Context::NUM_NONZERO))]
pub(crate) fn nonzeros_at(exponent: usize, n: usize) -> usize
    requires { (exponent ≤ 10) × (n < 63 * 2 ^ exponent) }
    ensures { (result ≡ slice_index NUM_NONZERO (n / 2 ^ exponent)) × (result ≤ 255) }
{
    COEFF_NUM_NONZERO_CONTEXT[n >> exponent] as usize
}

// The entry by place i.
#[tactic(auto, unfolding(coeff_context::specs::Context::FREQ))]
pub(crate) fn frequency_at(exponent: usize, i: usize) -> usize
    requires { (exponent ≤ 10) × (i < 63 * 2 ^ exponent) }
    ensures { (result ≡ slice_index FREQ (i / 2 ^ exponent)) × (result ≤ 255) }
{
    COEFF_FREQ_CONTEXT[i >> exponent] as usize
}

// The context at place i when n more are not 0 after this one; 2 to the power `exponent` blocks.
pub(crate) fn coeff_context(exponent: usize, n: usize, i: usize, prev: usize) -> usize
    requires { (exponent ≤ 10) × (n < 63 * 2 ^ exponent) × (i < 63 * 2 ^ exponent) × (prev ≤ 1) }
    ensures { result ≡ coeff_context (2 ^ exponent) n i prev }
{
    let x = nonzeros_at(exponent, n);
    let y = frequency_at(exponent, i);
    (x + y) * 2 + prev
}
