// What a record lends.
use recorded_lists::list::number;

// A number of a record as a length.
pub(crate) fn length(words: &[u32], at: usize) -> usize {
    number(words, at) as usize
}

// Entry i of a cluster map: ((0x9e3779b1 i + 0x01234567) mod 2^32) / 256, modulo 256.
fn entry(i: usize) -> u8 {
    let k = (i % 0x1_0000_0000) as u64;
    ((0x9e37_79b1 * k + 0x0123_4567) % 0x1_0000_0000 / 256 % 256) as u8
}

pub(crate) fn fill_map(out: &mut [u8]) {
    for (i, place) in out.iter_mut().enumerate() {
        *place = entry(i);
    }
}
