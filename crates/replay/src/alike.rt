// Call 5: the likeness of two layouts. Width and height of each; kinds, hf_mul and sigma of each.
use crate::answer::put;
use crate::lent::length;
use lent_likeness::alike;
use recorded_lists::list::{bytes, list};

pub(crate) fn replay(body: &[u8], words: &[u32], out: &mut [usize; 48]) -> usize {
    let answer = alike(
        length(words, 0),
        length(words, 1),
        bytes(body, words, 4, 0),
        list(words, 4, 1),
        list(words, 4, 2),
        length(words, 2),
        length(words, 3),
        bytes(body, words, 4, 3),
        list(words, 4, 4),
        list(words, 4, 5),
    );
    put(out, answer.map(|same| usize::from(same)));
    4
}
