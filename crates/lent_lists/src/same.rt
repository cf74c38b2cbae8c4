// Whether two lists are the same.
ghost use Rattle.std.specs.Prelude.{◌≡◌};
ghost use Rattle.lent_lists.specs.Same.{same_by};

// As long, and each element equal to its other.
#[tactic(auto, using(crate::proofs::laws::Same::pointwise_same))]
pub fn same<T: PartialEq>(list: &[T], others: &[T]) -> bool
    ensures { result ≡ same_by T.eq list.now others.now }
{
    list == others
}
