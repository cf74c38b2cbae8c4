// Bit patterns of f32.
ghost use Rattle.std.specs.Prelude.{◌≡◌};
ghost use Rattle.lent_lists.specs.Finite.{finite_pattern, all_finite};

// Neither infinite nor NaN: without its sign a pattern is below that of infinity.
#[tactic(auto, using(crate::proofs::laws::Finite::finite_below))]
fn is_finite(pattern: u32) -> bool
    ensures { result ≡ finite_pattern pattern }
{
    pattern % 2147483648 < 2139095040
}

// Every pattern, however many there are. The loop has no early exit, so that many are taken at a time.
pub fn all_finite(patterns: &[u32]) -> bool
    ensures { result ≡ all_finite patterns.now }
{
    let mut finite = true;
    for &pattern in patterns {
        finite &= is_finite(pattern);
    }
    finite
}
