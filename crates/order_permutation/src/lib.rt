#![tactic(auto)]
// Digits that put a list of places in order, in place (`read_permutation`).
ghost use Rattle.std.specs.Prelude.{◌≡◌, true, ◌&&◌, ◌++◌, ◌+◌, ◌-◌, ◌*◌, ◌≤◌, ◌<◌, min, ltb, length, get_or, take, drop};
ghost use Rattle.std.proofs.Math.Seq.{paste};
ghost use Rattle.order_natural.specs.Places.{flat, paired};
ghost use Rattle.order_permutation.specs.Digits.{Below, chosen, ordered};
ghost use Rattle.order_permutation.specs.laws.Permuted.{all_below, permutable, permuted};
ghost use Rattle.order_permutation.specs.laws.Blocks.{total, sum_to, counts, remaining, closed};
ghost use Rattle.order_permutation.specs.laws.Drawing.{Ready, Out, Drawn, PackedFixed};
ghost use Rattle.order_permutation.specs.laws.Packed.{packed, unpacked};

use order_digits::digits_below;

// No way out before the end, so that many numbers are looked at together.
#[tactic(auto, using(crate::specs::laws::Below::below_turn, crate::specs::laws::Below::below_end))]
fn all_below(list: &[u16], n: u16) -> bool
    ensures { result ≡ all_below n list.now }
{
    let mut all = true;
    for &x in list {
        all &= x < n;
    }
    all
}

// x and y below 256 as one number, in the upper half of the list.
fn pack(list: &mut [u16], size: usize)
    requires { (length list.old ≡ 2 * size) × (size ≤ 65536) × (all_below 256 list.old ≡ true) }
    ensures { (length list.new ≡ 2 * size) × (drop size list.new ≡ packed (paired list.old)) }
{
    for i in (0..size).rev() {
        let x = list[2 * i];
        let y = list[2 * i + 1];
        list[size + i] = x + 256 * y;
    }
}

// And back: the lower half of the list, place by place.
fn unpack(list: &mut [u16], size: usize)
    requires { (length list.old ≡ 2 * size) × (size ≤ 65536) }
    ensures { list.new ≡ flat (unpacked (take size list.old)) }
{
    for i in (0..size).rev() {
        let v = list[i];
        list[2 * i] = v % 256;
        list[2 * i + 1] = v / 256;
    }
}

// n numbers from `start` on come to `at`, not behind it. A loop by hand: the library's copy within a list asks the host for
// memmove, and the header promises memcpy and memset alone.
fn lay(list: &mut [u16], start: usize, at: usize, n: usize)
    requires { (at ≤ start) × (0 < n → start + n ≤ length list.old) }
    ensures { list.new ≡ paste list.old at (drop start list.old) n }
{
    let mut j = 0;
    while j < n {
        let v = list[start + j];
        list[at + j] = v;
        j += 1;
    }
}

// n numbers behind place e go down by one, and up to `more` behind them where that makes whole 32s; how many did.
fn close(list: &mut [u16], e: usize, n: usize, more: usize) -> usize
    requires { e + 1 + n + more ≤ length list.old }
    ensures { (n ≤ result) × (result ≤ n + more) × (list.new ≡ closed list.old e result) }
{
    let start = e + 1;
    if more < 32 {
        lay(list, start, e, n);
        return n;
    }
    let k = n.div_ceil(32) * 32;
    lay(list, start, e, k);
    k
}

// How many numbers a block takes, about four times the side of a square list: few blocks are passed, and few numbers move.
fn span_of(size: usize) -> usize
    requires { size ≤ 65536 }
    ensures { (result ≤ 1024) × (size ≤ 64 * result) }
{
    match size {
        0..=1024 => 128,
        1025..=4096 => 256,
        4097..=16384 => 512,
        _ => 1024,
    }
}

// How many numbers each of 64 blocks of `span` has.
fn counts_of(span: usize, free: usize) -> [u16; 64]
    requires { span ≤ 1024 }
    ensures { result ≡ counts span 64 free }
{
    let mut c = [0u16; 64];
    let mut left = free;
    for i in 0..64 {
        let n = left.min(span);
        c[i] = n as u16;
        left -= n;
    }
    c
}

// A block, and how many numbers the blocks before it have.
#[derive(Clone, Copy)]
struct Spot {
    block: usize,
    before: usize,
}

// From a spot, back to where no more than d numbers stand before. A search: how many blocks it passes is not known before.
fn back(count: &[u16; 64], from: Spot, d: usize) -> Spot
    requires { (length count.now ≡ 64) × (from.block < 64) × (from.before ≡ sum_to from.block count.now) }
    ensures { (result.block < 64) × (result.before ≡ sum_to result.block count.now) × (result.before ≤ d) }
{
    let mut block = from.block;
    let mut before = from.before;
    while d < before {
        block -= 1;
        before -= usize::from(count[block]);
    }
    Spot { block, before }
}

// On to the block in which the d-th of the remaining numbers stands. A search too, and it ends within the blocks.
#[tactic(auto, using(crate::specs::laws::Blocks::some_left, crate::specs::laws::Blocks::sum_step))]
fn find(count: &[u16; 64], from: Spot, d: usize) -> Spot
    requires { (length count.now ≡ 64) × (from.before ≡ sum_to from.block count.now) × (from.before ≤ d) × (d < total count.now) }
    ensures { (result.block < 64) × (result.before ≡ sum_to result.block count.now) × (result.before ≤ d) × (d < result.before + get_or count.now result.block 0) }
{
    let mut block = from.block;
    let mut before = from.before;
    loop {
        let n = usize::from(count[block]);
        if d - before < n {
            return Spot { block, before };
        }
        before += n;
        block += 1;
    }
}

// The d-th of the remaining numbers, taken out of its block, and where it stood: the search for the next one starts there.
fn take_out(
    rest: &mut [u16],
    count: &mut [u16; 64],
    span: usize,
    from: Spot,
    d: usize,
) -> (u16, Spot)
    requires { Ready span count.old rest.old × (from.block < 64) × (from.before ≡ sum_to from.block count.old) × (d < total count.old) }
    ensures { Out span count.old rest.old d result.0 count.new rest.new × (result.1.block < 64) × (result.1.before ≡ sum_to result.1.block count.new) }
{
    let s = find(count, back(count, from, d), d);
    let e = d - s.before;
    let n = usize::from(count[s.block]);
    let behind = n - 1 - e;
    let start = s.block * span;
    let value = rest[start + e];
    let end = (start + span).min(rest.len());
    close(&mut rest[start..], e, behind, end - start - n);
    count[s.block] = (n - 1) as u16;
    (value, s)
}

// A number for each digit, from `skip` on; what the blocks have left.
fn draw(list: &mut [u16], span: usize, size: usize, skip: usize, digits: &[u32]) -> [u16; 64]
    requires { (length list.old ≡ 2 * size) × (span ≤ 1024) × (size ≤ 64 * span) × (skip ≤ size) × Below digits.now (size - skip) }
    ensures { Drawn span size skip digits.now list.old result list.new }
{
    let mut count = counts_of(span, size - skip);
    let from = size + skip;
    let mut spot = Spot {
        block: 0,
        before: 0,
    };
    for (k, &d) in digits.iter().enumerate() {
        let (value, next) = take_out(&mut list[from..], &mut count, span, spot, d as usize);
        list[skip + k] = value;
        spot = next;
    }
    count
}

// The numbers that remain, block by block, from `at` on.
fn lay_rest(list: &mut [u16], span: usize, from: usize, at: usize, count: &[u16; 64])
    requires { (length list.old ≤ 131072) × (from ≤ length list.old) × Ready span count.now (drop from list.old) × (at + total count.now ≤ from) }
    ensures { (length list.new ≡ length list.old)
        × (take (at + total count.now) list.new ≡ take at list.old ++ remaining span count.now (drop from list.old)) }
{
    let mut to = at;
    for (b, &n) in count.iter().enumerate() {
        let n = usize::from(n);
        // A block without numbers may begin behind the list.
        if 0 < n {
            let start = from + b * span;
            lay(list, start, to, n);
            to += n;
        }
    }
}

// The first `skip` places as numbers at the front, the others behind the middle.
fn pack_fixed(list: &mut [u16], size: usize, skip: usize)
    requires { (length list.old ≡ 2 * size) × (size ≤ 65536) × (skip ≤ size) × (all_below 256 list.old ≡ true) }
    ensures { PackedFixed size skip list.old list.new }
{
    pack(list, size);
    lay(list, size, 0, skip);
}

// A number for each digit behind the fixed ones, then the numbers that remain.
fn draw_all(list: &mut [u16], size: usize, skip: usize, digits: &[u32])
    requires { (length list.old ≡ 2 * size) × (size ≤ 65536) × (skip ≤ size) × Below digits.now (size - skip) }
    ensures { (length list.new ≡ 2 * size)
        × (take size list.new ≡ take skip list.old ++ chosen 0 digits.now (drop (size + skip) list.old)) }
{
    let span = span_of(size);
    let count = draw(list, span, size, skip, digits);
    lay_rest(list, span, size + skip, skip + digits.len(), &count);
}

fn reorder(list: &mut [u16], size: usize, skip: usize, digits: &[u32])
    requires { (length list.old ≡ 2 * size) × (size ≤ 65536) × (skip ≤ size) × (all_below 256 list.old ≡ true) × Below digits.now (size - skip) }
    ensures { list.new ≡ flat (ordered (0, 0) skip (paired list.old) digits.now) }
{
    if digits.is_empty() {
        return;
    }
    pack_fixed(list, size, skip);
    draw_all(list, size, skip, digits);
    unpack(list, size);
}

// The first `skip` places stay, the rest follows as the digits choose; false, and nothing moved, if they do not fit the list:
// a test's answer, as `permutable` is one, with nothing to hand back.
pub fn permute(list: &mut [u16], skip: usize, digits: &[u32]) -> bool
    ensures { (result ≡ permutable list.old skip digits.now) × (list.new ≡ permuted list.old skip digits.now) }
{
    if list.len() % 2 != 0 {
        return false;
    }
    let size = list.len() / 2;
    if 65536 < size {
        return false;
    }
    if size < skip {
        return false;
    }
    if !all_below(list, 256) {
        return false;
    }
    let good = digits_below(digits, size - skip);
    if good != digits.len() {
        return false;
    }
    reorder(list, size, skip, digits);
    true
}
