// The records of a list, one behind the other.
use crate::answer::agreed;
use crate::call::Call;
use recorded_lists::frame::{Frame, next};
use std::io;

// The part of the file that holds the numbers from start to end.
fn bytes_of(file: &[u8], start: usize, end: usize) -> &[u8] {
    if file.len() / 4 < end {
        return &[];
    }
    if end < start {
        return &[];
    }
    &file[4 * start..4 * end]
}

// Whether the record agrees. A difference is printed if it is the first.
fn agrees(
    rt: &impl Print,
    call: Call,
    index: u32,
    body: &[u8],
    words: &[u32],
    first: bool,
) -> io::Result<bool> {
    let mut out = [0usize; 48];
    let count = call.replay(body, words, &mut out);
    let k = agreed(words, count, &out);
    if k == count && 3 <= count {
        return Ok(true);
    }
    if first {
        println!(rt; "{call} record {index}: number {k} of the answer differs")?;
    }
    Ok(false)
}

// Records of a call, and how many of them agree.
#[derive(Clone, Copy)]
struct Count {
    records: u32,
    agree: u32,
}

impl Count {
    // The count with one record more.
    fn with(self, same: bool) -> Count {
        Count {
            records: self.records.wrapping_add(1),
            agree: self.agree.wrapping_add(u32::from(same)),
        }
    }
}

// The count with a record more, if it is one of the call.
fn replay_one(
    rt: &impl Print,
    file: &[u8],
    words: &[u32],
    call: Call,
    index: u32,
    frame: Frame,
    count: Count,
) -> io::Result<Count> {
    if frame.call != call.number() {
        return Ok(count);
    }
    let body = bytes_of(file, frame.start, frame.end);
    let numbers = words.get(frame.start..frame.end).unwrap_or(&[]);
    let first = count.agree == count.records;
    Ok(count.with(agrees(rt, call, index, body, numbers, first)?))
}

// Replays the records of a call, and prints how many of them agree. Gives how many records of any
// call there are.
pub(crate) fn replay_call(
    rt: &impl Print,
    file: &[u8],
    words: &[u32],
    call: Call,
) -> io::Result<u32> {
    let mut count = Count {
        records: 0,
        agree: 0,
    };
    let mut at = 2;
    let mut index = 0u32;
    // A record lies behind the one before, so the loop counts no index.
    while at < words.len() {
        let Ok(Some(frame)) = next(words, at) else {
            println!(rt; "malformed list")?;
            break;
        };
        at = frame.end;
        count = replay_one(rt, file, words, call, index, frame, count)?;
        index = index.wrapping_add(1);
    }
    let Count { records, agree } = count;
    println!(rt; "{call} {agree} of {records} agree")?;
    Ok(index)
}
