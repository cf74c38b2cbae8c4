// The digest of a list: from 0, for each element in turn, 16777619 times what there is, plus the element,
// modulo 2^32.
ghost use Rattle.std.specs.Prelude.{◌≡◌};
ghost use Rattle.recorded_answers.specs.Digest.{Digests, digested};

pub fn with(h: u32, element: u32) -> u32
    ensures { result ≡ digested h element }
{
    ((16777619 * u64::from(h) + u64::from(element)) % 0x1_0000_0000) as u32
}

// Of a list of bytes, or of numbers of 16 or 32 bits.
pub fn of<T: Copy + Into<u32>>(list: &[T]) -> usize
    ensures { Digests T.converts 0 list.now result }
{
    let mut h = 0;
    for &element in list {
        h = with(h, element.into());
    }
    h as usize
}
