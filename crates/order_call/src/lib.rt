#![tactic(auto)]
// The order call (`hf_pass.rs`): which orders are used is read from bits, their lists from symbols.
ghost use Rattle.std.specs.Prelude.{◌≡◌, ◌+◌, ◌*◌, ◌-◌, ◌/◌, ◌≤◌, ◌<◌, length, drop};
ghost use Rattle.bits.specs.Reads.{got_of};
ghost use Rattle.order_sizes.specs.BlockSizes.{BLOCK_SIZES};
ghost use Rattle.order_natural.specs.Places.{flat};
ghost use Rattle.order_natural.specs.Natural.{natural};
ghost use Rattle.order_natural.specs.Order.{Size};
ghost use Rattle.order_store.specs.Store.{stored, first_of};
ghost use Rattle.order_naturals.specs.Naturals.{naturals};
ghost use Rattle.order_call.specs.Orders.{is_used, by_digits, entry_list, orders};
ghost use Rattle.order_call.specs.Call.{leaves, used_orders, outcome_of, parsed};
ghost use Rattle.order_call.specs.laws.Lists.{Listed};
ghost use Rattle.order_call.specs.laws.Progress.{Progress, AfterList, AllLists};

use bits::{BitPlace, End, U32Specifier};
use order_digits::digits_below;
use order_naturals::fill_natural_orders;
use order_permutation::permute;
use order_sizes::{OrderSize, block_size};
use order_store::NUMBERS;
use refusal::Refusal;

// Bit k of the used orders.
fn is_used(used: u32, k: usize) -> bool
    requires { k < 32 }
    ensures { result ≡ is_used used k }
{
    (used >> (k as u32)) % 2 == 1
}

// n digits from symbol at on permute a list that comes in natural order; how many symbols are read then.
fn read_digits(
    list: &mut [u16],
    size: OrderSize,
    n: usize,
    symbols: &[u32],
    at: usize,
) -> Result<usize, Refusal>
    requires { (Size size.width size.height) × (size.width ≤ 256) × (size.width * size.height ≤ 65536) × (at ≤ length symbols.now) × (list.old ≡ flat (natural size.width size.height)) }
    ensures { Listed (by_digits size.width size.height n (drop at symbols.now) at) result list.new }
{
    let places = size.width * size.height;
    let skip = places / 64;
    let many = n.min(symbols.len() - at);
    let e = at + many;
    let good = digits_below(&symbols[at..e], places - skip);
    if good < many {
        return Err(Refusal::Order(at + good + 1));
    }
    if many < n {
        return Err(Refusal::SymbolsEnd(e));
    }
    permute(list, skip, &symbols[at..e]);
    Ok(e)
}

// One list, of a used order as its length and digits say. It comes in natural order.
fn read_list(
    list: &mut [u16],
    size: OrderSize,
    used: bool,
    symbols: &[u32],
    at: usize,
) -> Result<usize, Refusal>
    requires { (Size size.width size.height) × (size.width ≤ 256) × (size.width * size.height ≤ 65536) × (at ≤ length symbols.now) × (list.old ≡ flat (natural size.width size.height)) }
    ensures { Listed (entry_list used size.width size.height (drop at symbols.now) at) result list.new }
{
    if !used {
        return Ok(at);
    }
    if symbols.len() <= at {
        return Err(Refusal::SymbolsEnd(at));
    }
    let n = symbols[at] as usize;
    let places = size.width * size.height;
    let next = at + 1;
    if places - places / 64 < n {
        return Err(Refusal::Order(next));
    }
    read_digits(list, size, n, symbols, next)
}

// List i, which begins at number `first` of the store; `at` symbols are read. How many are read then, and where the next list
// begins.
fn read_at(
    store: &mut [u16],
    first: usize,
    i: usize,
    used: u32,
    symbols: &[u32],
    at: usize,
) -> Result<(usize, usize), Refusal>
    requires { (Progress used symbols.now store.old i at) × (first ≡ first_of i) × (i < 39) }
    ensures { AfterList used symbols.now store.new i result }
{
    let k = i / 3;
    let size = block_size(k);
    let u = is_used(used, k);
    let next = first + 2 * (size.width * size.height);
    let read = read_list(&mut store[first..next], size, u, symbols, at)?;
    Ok((read, next))
}

// The 39 lists of a store of natural orders.
fn read_lists(store: &mut [u16], used: u32, symbols: &[u32]) -> Result<usize, Refusal>
    requires { (length store.old ≡ 787968) × (store.old ≡ stored (naturals BLOCK_SIZES)) }
    ensures { AllLists used symbols.now store.new result }
{
    let mut first = 0;
    let mut at = 0;
    for i in 0..39 {
        (at, first) = read_at(store, first, i, used, symbols, at)?;
    }
    Ok(at)
}

// The orders of a pass, into a store of the right length.
fn read_orders(store: &mut [u16], used: u32, symbols: &[u32]) -> Result<usize, Refusal>
    requires { length store.old ≡ 787968 }
    ensures { leaves result store.new ≡ outcome_of (orders used symbols.now) }
{
    fill_natural_orders(store);
    let read = read_lists(store, used, symbols);
    if read.is_err() {
        store.fill(0);
    }
    read
}

// Which orders are used: U32(95, 19, 0, 13 bits).
fn used_orders(bytes: &[u8]) -> Result<(u32, BitPlace), End>
    ensures { result ≡ got_of 0 (used_orders bytes.now) }
{
    let d0 = U32Specifier {
        offset: 0x5f,
        bits: 0,
    };
    let d1 = U32Specifier {
        offset: 0x13,
        bits: 0,
    };
    let d2 = U32Specifier { offset: 0, bits: 0 };
    let d3 = U32Specifier {
        offset: 0,
        bits: 13,
    };
    bits::read_u32(bytes, BitPlace::start(), d0, d1, d2, d3)
}

// The orders of a pass: the symbols read and the whole store, or a refusal.
pub fn parse(bytes: &[u8], symbols: &[u32], store: &mut [u16]) -> Result<usize, Refusal>
    ensures { leaves result store.new ≡ parsed bytes.now symbols.now store.old }
{
    if store.len() != NUMBERS {
        return Err(Refusal::Length);
    }
    let (used, _) = used_orders(bytes).map_err(|end| Refusal::BitsEnd(end.taken as usize))?;
    read_orders(store, used, symbols)
}
