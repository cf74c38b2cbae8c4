// The lent store of a coefficient call: what an accepted order call writes, with one number changed.
use crate::lent::length;
use order_call::parse;
use recorded_lists::list::{bytes, list, number};

// Tells whether the order call accepts.
pub(crate) fn write(body: &[u8], words: &[u32], store: &mut [u16]) -> bool {
    parse(bytes(body, words, 18, 8), list(words, 18, 9), store).is_ok()
}

pub(crate) fn change(words: &[u32], store: &mut [u16]) {
    let place = length(words, 8);
    if place < store.len() {
        store[place] = (number(words, 9) % 65536) as u16;
    }
}
