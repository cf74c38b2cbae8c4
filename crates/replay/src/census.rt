// Call 9: the context census. Blocks, count, place and flag; no lists.
use crate::answer::put;
use coeff_context::coefficient_context;
use recorded_lists::list::number;

pub(crate) fn replay(words: &[u32], out: &mut [usize; 48]) -> usize {
    let answer = coefficient_context(
        number(words, 0),
        number(words, 1),
        number(words, 2),
        number(words, 3),
    );
    put(out, answer.map(|context| context as usize));
    4
}
