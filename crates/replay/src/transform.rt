// Call 1: the transform look-up. Its number; no lists.
use crate::answer::refuse;
use dct_select::TransformType;
use recorded_lists::list::number;

fn put_transform(out: &mut [usize; 48], t: TransformType) {
    let size = t.dct_select_size();
    out[3] = size.wide;
    out[4] = size.high;
    out[5] = t.order_id();
    out[6] = usize::from(t.need_transpose());
}

pub(crate) fn replay(words: &[u32], out: &mut [usize; 48]) -> usize {
    match TransformType::try_from(number(words, 0)) {
        Ok(t) => put_transform(out, t),
        Err(why) => refuse(out, why),
    }
    7
}
