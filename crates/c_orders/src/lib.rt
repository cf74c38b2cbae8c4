#![tactic(auto)]
// C interface: the order call, and where its lists lie in the store.
ghost use Rattle.std.specs.Prelude.{◌≡◌, length};
ghost use Rattle.refusal.specs.Said.{said_at};
ghost use Rattle.refusal.specs.Handed.{with};
ghost use Rattle.order_call.specs.Call.{parsed};
ghost use Rattle.order_store.specs.Store.{places_fit};
ghost use Rattle.order_store.specs.LookedUp.{stretch_at, stretch_from};
ghost use Rattle.c_orders.specs.Orders.{OrdersLeave};

// Beside a refusal the number of symbols read stays as it was.
#[unsafe(no_mangle)]
pub extern "C" fn netbuff_orders(
    bytes: &[u8],
    symbols: &[u32],
    store: &mut [u16],
    symbols_read: &mut usize,
    x: &mut usize,
    y: &mut usize,
) -> u32
    ensures { OrdersLeave (with (said_at result x.new y.new) symbols_read.new) store.new symbols_read.old
        (parsed bytes.now symbols.now store.old) }
{
    match order_call::parse(bytes, symbols, store) {
        Ok(at) => {
            *symbols_read = at;
            *x = 0;
            *y = 0;
            0
        }
        Err(refusal) => {
            let said = refusal.numbers();
            *x = said.x;
            *y = said.y;
            said.number
        }
    }
}

// The list of an order and a channel: `count` numbers of the store from `first` on.
#[unsafe(no_mangle)]
pub extern "C" fn netbuff_order(
    store: &[u16],
    order: usize,
    channel: usize,
    first: &mut usize,
    count: &mut usize,
)
    ensures { stretch_from first.new count.new ≡ stretch_at (length store.now) order channel }
{
    let s = order_store::stretch_of(store.len(), order, channel);
    *first = s.first;
    *count = s.len;
}

#[unsafe(no_mangle)]
pub extern "C" fn netbuff_places_fit(store: &[u16]) -> bool
    ensures { result ≡ places_fit store.now }
{
    order_places::places_fit(store)
}
