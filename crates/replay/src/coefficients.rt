// Call 8: the coefficients of a pass group. Width, height, the record's count and four lengths, LF
// grids there, how the store is changed, the store's length, presets, the cluster map's length,
// shift, lengths of the grids and the log; the group's kinds and hf_mul, the record's three lists,
// three LF grids, the order call's bytes and symbols, bytes, symbols.
use crate::answer::put;
use crate::lent::{fill_map, length};
use crate::{record, store};
use coeff_call::write_hf_coeff;
use lent_check::GroupSides;
use recorded_answers::digest::of;
use recorded_lists::list::{bytes, list, number};

fn replay_in(
    body: &[u8],
    words: &[u32],
    orders: &[u16],
    cluster_map: &[u8],
    log: &mut [u8],
    g0: &mut [u32],
    g1: &mut [u32],
    g2: &mut [u32],
    out: &mut [usize; 48],
) {
    let group = GroupSides {
        bw: length(words, 0),
        bh: length(words, 1),
    };
    let answer = write_hf_coeff(
        group,
        bytes(body, words, 18, 0),
        list(words, 18, 1),
        record::read(body, words),
        number(words, 7) == 1,
        list(words, 18, 5),
        list(words, 18, 6),
        list(words, 18, 7),
        orders,
        number(words, 11),
        cluster_map,
        number(words, 13),
        bytes(body, words, 18, 10),
        list(words, 18, 11),
        log,
        g0,
        g1,
        g2,
    );
    put(out, answer);
    out[4] = of(g0);
    out[5] = of(g1);
    out[6] = of(g2);
    out[7] = of(log);
}

// Lends what is written.
fn replay_lent(
    body: &[u8],
    words: &[u32],
    orders: &[u16],
    cluster_map: &[u8],
    out: &mut [usize; 48],
) {
    let mut log = [0xa5u8; 16384];
    let mut g0 = [0x0bad_cafeu32; 4096];
    let mut g1 = [0x0bad_cafeu32; 4096];
    let mut g2 = [0x0bad_cafeu32; 4096];
    let a = length(words, 14).min(4096);
    let b = length(words, 15).min(4096);
    let d = length(words, 16).min(4096);
    let l = length(words, 17).min(16384);
    replay_in(
        body,
        words,
        orders,
        cluster_map,
        &mut log[..l],
        &mut g0[..a],
        &mut g1[..b],
        &mut g2[..d],
        out,
    );
}

fn replay_with(body: &[u8], words: &[u32], orders: &[u16], out: &mut [usize; 48]) {
    let mut cluster_map = [0u8; 65536];
    fill_map(&mut cluster_map);
    let m = length(words, 12).min(65536);
    replay_lent(body, words, orders, &cluster_map[..m], out);
}

// The store is what the order call writes, changed.
fn replay_whole(
    body: &[u8],
    words: &[u32],
    orders: &mut [u16; 787968],
    out: &mut [usize; 48],
) -> usize {
    if !store::write(body, words, orders) {
        return 0;
    }
    store::change(words, orders);
    let n = length(words, 10).min(787968);
    replay_with(body, words, &orders[..n], out);
    8
}

// A part is cut in a function of its own: where an array of this size is made, the check of a cut
// goes too deep.
pub(crate) fn replay(body: &[u8], words: &[u32], out: &mut [usize; 48]) -> usize {
    let mut orders = [0u16; 787968];
    replay_whole(body, words, &mut orders, out)
}
