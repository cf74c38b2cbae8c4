#![tactic(auto)]
// The places of a record: lists of thresholds one behind the other, and a context map.
ghost use Rattle.std.specs.Prelude.{◌≡◌, ◌++◌, ◌+◌, ◌≤◌, length, take};
ghost use Rattle.std.proofs.Math.Seq.{paste};
ghost use Rattle.context_thresholds.specs.Thresholds.{pad};

// The bytes of a map that have a place.
fn with_place(map: &[u8]) -> &[u8]
    ensures { result.now ≡ take 2496 map.now }
{
    if map.len() < 2496 {
        return map;
    }
    &map[..2496]
}

// A list, and 0 behind it. By hand, here and below: the library's copy asks the host for memmove, and the header promises memcpy
// and memset alone.
fn lay(list: &[u8], out: &mut [u8])
    requires { (length list.now ≤ 2496) × (length out.old ≡ 2496) }
    ensures { out.new ≡ pad 2496 list.now }
{
    let mut i = 0;
    while i < list.len() {
        out[i] = list[i];
        i += 1;
    }
    while i < 2496 {
        out[i] = 0;
        i += 1;
    }
}

// The bytes of a map, and 0 behind them, in 2,496 places.
pub fn fill(map: &[u8], out: &mut [u8; 2496])
    ensures { out.new ≡ pad 2496 (take 2496 map.now) }
{
    lay(with_place(map), &mut out[..]);
}

// A list in the 15 places from first on.
fn placed(lists: [u32; 45], first: usize, list: &[u32]) -> [u32; 45]
    requires { (first + 15 ≤ 45) × (length list.now ≡ 15) × (length lists ≡ 45) }
    ensures { result ≡ paste lists first list.now 15 }
{
    let mut out = lists;
    let mut k = 0;
    while k < 15 {
        out[first + k] = list[k];
        k += 1;
    }
    out
}

// Three lists one behind the other.
pub fn joined<'a>(list0: &'a [u32; 15], list1: &'a [u32; 15], list2: &'a [u32; 15]) -> [u32; 45]
    ensures { result ≡ list0.now ++ (list1.now ++ list2.now) }
{
    let lists = [0u32; 45];
    let lists0 = placed(lists, 0, &list0[..]);
    let lists1 = placed(lists0, 15, &list1[..]);
    placed(lists1, 30, &list2[..])
}
