// Call 6: the block contexts. The count; the bytes and the map.
use crate::answer::put;
use context_call::parse;
use context_record::HfBlockContext;
use recorded_answers::digest::of;
use recorded_lists::list::{bytes, number};

fn put_record(out: &mut [usize; 48], record: &HfBlockContext) {
    out[4] = record.num_block_clusters as usize;
    out[5] = of(&record.lengths);
    out[6] = of(&record.lf_thresholds);
    out[7] = of(&record.qf_thresholds);
    out[8] = of(&record.block_ctx_map);
}

pub(crate) fn replay(body: &[u8], words: &[u32], out: &mut [usize; 48]) -> usize {
    let result = parse(
        bytes(body, words, 1, 0),
        number(words, 0),
        bytes(body, words, 1, 1),
    );
    let contexts = result.contexts;
    put(out, result.answer);
    put_record(out, &contexts);
    9
}
