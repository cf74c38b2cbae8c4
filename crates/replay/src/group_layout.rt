// Call 3: the layout and the filter strengths. Width, height, three modes, filter on, multiplier,
// eight look-up numbers, scale, lengths of kinds, hf_mul and sigma; types, muls, sharpness.
use crate::answer::put;
use crate::columns::modes;
use crate::floats;
use crate::lent::length;
use layout_call::layout;
use layout_filter::Filter;
use recorded_answers::digest::of;
use recorded_lists::list::{list, number};

fn float(words: &[u32], at: usize) -> f32 {
    floats::of_pattern(number(words, at))
}

fn filter(words: &[u32]) -> Filter {
    if number(words, 5) == 0 {
        return Filter::Off;
    }
    Filter::On(float(words, 6))
}

fn lookups(words: &[u32]) -> [f32; 8] {
    let mut lookups = [0.0; 8];
    for (i, lookup) in lookups.iter_mut().enumerate() {
        *lookup = float(words, 7 + i);
    }
    lookups
}

fn replay_in(
    words: &[u32],
    kinds: &mut [u8],
    hf_mul: &mut [u32],
    sigma: &mut [u32],
    out: &mut [usize; 48],
) {
    let answer = layout(
        number(words, 0),
        number(words, 1),
        modes(words),
        list(words, 19, 0),
        list(words, 19, 1),
        list(words, 19, 2),
        filter(words),
        lookups(words),
        number(words, 15),
        kinds,
        hf_mul,
        sigma,
    );
    put(out, answer);
    out[4] = of(kinds);
    out[5] = of(hf_mul);
    out[6] = of(sigma);
}

pub(crate) fn replay(words: &[u32], out: &mut [usize; 48]) -> usize {
    let mut kinds = [0xa5u8; 1024];
    let mut hf_mul = [0x0bad_cafeu32; 1024];
    let mut sigma = [0xbfc0_0000u32; 1024];
    let k = length(words, 16).min(1024);
    let m = length(words, 17).min(1024);
    let s = length(words, 18).min(1024);
    replay_in(
        words,
        &mut kinds[..k],
        &mut hf_mul[..m],
        &mut sigma[..s],
        out,
    );
    7
}
