// A lent context record: count, four lengths, and the lists of thresholds and the map, which may be
// shorter: then 0.
use context_record::HfBlockContext;
use recorded_lists::list::{bytes, list, number};

// As many elements as there are and fit.
fn copy<T: Copy>(from: &[T], to: &mut [T]) {
    let n = from.len().min(to.len());
    to[..n].copy_from_slice(&from[..n]);
}

// Of a coefficient call.
pub(crate) fn read(body: &[u8], words: &[u32]) -> HfBlockContext {
    let mut lf_thresholds = [0u32; 45];
    let mut qf_thresholds = [0u32; 15];
    let mut block_ctx_map = [0u8; 2496];
    copy(list(words, 18, 2), &mut lf_thresholds);
    copy(list(words, 18, 3), &mut qf_thresholds);
    copy(bytes(body, words, 18, 4), &mut block_ctx_map);
    HfBlockContext {
        num_block_clusters: number(words, 2),
        lengths: [
            number(words, 3),
            number(words, 4),
            number(words, 5),
            number(words, 6),
        ],
        lf_thresholds,
        qf_thresholds,
        block_ctx_map,
    }
}
