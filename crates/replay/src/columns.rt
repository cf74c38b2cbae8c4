// Call 2: the column count. Width, height and three modes; the bytes.
use crate::answer::refuse;
use layout_column_count::column_count;
use recorded_lists::list::{bytes, number};

// The modes of a record that begins with width, height and three modes.
pub(crate) fn modes(words: &[u32]) -> [u32; 3] {
    [number(words, 2), number(words, 3), number(words, 4)]
}

pub(crate) fn replay(body: &[u8], words: &[u32], out: &mut [usize; 48]) -> usize {
    let answer = column_count(
        number(words, 0),
        number(words, 1),
        modes(words),
        bytes(body, words, 5, 0),
    );
    match answer {
        Ok((count, bits_read)) => {
            out[3] = count as usize;
            out[4] = bits_read;
        }
        Err(why) => refuse(out, why),
    }
    5
}
