// Call 7: the orders. The store's length; the bytes and the symbols.
use crate::answer::put;
use crate::lent::length;
use order_call::parse;
use order_store::order;
use recorded_answers::digest::of;
use recorded_lists::list::{bytes, list};

// Then the digests of the 39 lists, by order and channel.
fn replay_in(body: &[u8], words: &[u32], store: &mut [u16], out: &mut [usize; 48]) {
    put(
        out,
        parse(bytes(body, words, 1, 0), list(words, 1, 1), store),
    );
    for k in 0..39 {
        out[4 + k] = of(order(store, k / 3, k % 3));
    }
}

fn replay_whole(body: &[u8], words: &[u32], store: &mut [u16; 787968], out: &mut [usize; 48]) {
    let n = length(words, 0).min(787968);
    replay_in(body, words, &mut store[..n], out);
}

// A part is cut in a function of its own: where an array of this size is made, the check of a cut
// goes too deep.
pub(crate) fn replay(body: &[u8], words: &[u32], out: &mut [usize; 48]) -> usize {
    let mut store = [0xa5a5u16; 787968];
    replay_whole(body, words, &mut store, out);
    43
}
