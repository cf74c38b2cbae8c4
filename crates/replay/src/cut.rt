// Call 4: the cut of a layout into pass groups. Width, height, group index, lengths of kinds and
// hf_mul; the layout's kinds and hf_mul.
use crate::answer::refuse;
use crate::lent::length;
use lent_cut::cut::cut;
use recorded_answers::digest::of;
use recorded_lists::list::{bytes, list};

fn replay_in(
    body: &[u8],
    words: &[u32],
    kinds: &mut [u8],
    hf_mul: &mut [u32],
    out: &mut [usize; 48],
) {
    let answer = cut(
        length(words, 0),
        length(words, 1),
        bytes(body, words, 5, 0),
        list(words, 5, 1),
        length(words, 2),
        kinds,
        hf_mul,
    );
    match answer {
        Ok(group) => {
            out[3] = group.bw;
            out[4] = group.bh;
        }
        Err(why) => refuse(out, why),
    }
    out[5] = of(kinds);
    out[6] = of(hf_mul);
}

pub(crate) fn replay(body: &[u8], words: &[u32], out: &mut [usize; 48]) -> usize {
    let mut kinds = [0xa5u8; 1024];
    let mut hf_mul = [0x0bad_cafeu32; 1024];
    let k = length(words, 3).min(1024);
    let m = length(words, 4).min(1024);
    replay_in(body, words, &mut kinds[..k], &mut hf_mul[..m], out);
    7
}
