#![tactic(auto)]
// Digits of a permutation: each is below what remains (`read_permutation`).
ghost use Rattle.std.specs.Prelude.{◌≡◌};
ghost use Rattle.order_digits.specs.laws.Leading.{leading};

// How many digits, from the front, are below what remains.
pub fn digits_below(digits: &[u32], left: usize) -> usize
    ensures { result ≡ leading digits.now left }
{
    for (k, &d) in digits.iter().enumerate() {
        if left.saturating_sub(k) <= d as usize {
            return k;
        }
    }
    digits.len()
}
