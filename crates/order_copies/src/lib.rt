#![tactic(auto)]
// The first of three lists, copied to the other two piece by piece: what was just read is still near when it is read again.
ghost use Rattle.std.specs.Prelude.{◌≡◌, ◌+◌, ◌≤◌, length, drop};
ghost use Rattle.std.proofs.Math.Seq.{paste};
ghost use Rattle.order_copies.specs.laws.Copies.{three_times};

// m numbers from `from` on, written again from `to` on. A loop by hand: the library's copy within a list asks the host for
// memmove, and the header promises memcpy and memset alone.
fn copy_to(list: &mut [u16], from: usize, to: usize, m: usize)
    requires { (from + m ≤ to) × (to + m ≤ length list.old) }
    ensures { list.new ≡ paste list.old to (drop from list.old) m }
{
    let mut j = 0;
    while j < m {
        let v = list[from + j];
        list[to + j] = v;
        j += 1;
    }
}

// The first third of the numbers, copied to the second and the last; what is left of a length that is no multiple of three stays.
pub fn copy_twice(lists: &mut [u16])
    ensures { lists.new ≡ three_times lists.old }
{
    let n = lists.len() / 3;
    // By pieces of their own length, which the last has less of.
    let mut b = 0;
    while b < n {
        // At most 4,096 numbers at a time.
        let m = (n - b).min(4096);
        copy_to(&mut lists[..], b, n + b, m);
        copy_to(&mut lists[..], b, 2 * n + b, m);
        b += m;
    }
}
