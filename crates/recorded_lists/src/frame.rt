// The records of a list, one behind the other.
ghost use Rattle.std.specs.Prelude.{◌≡◌, ◌<◌, ◌≤◌, length, IfOk, IfSome};
ghost use Rattle.recorded_lists.specs.Frames.{frame_of};

use crate::list::{has_room, second};

// A record: the call's number, and where its body starts and ends.
#[derive(Drop)]
pub struct Frame {
    pub call: u32,
    pub start: usize,
    pub end: usize,
}

// A record that does not end in its list.
#[derive(Drop)]
pub struct Malformed;

// The record at a place of a list, none at the list's end.
pub fn next(words: &[u32], at: usize) -> Result<Option<Frame>, Malformed>
    ensures value { result ≡ frame_of words.now at }
    ensures goes_on { IfOk result (λ there. IfSome there (λ frame. (at < frame.start) × (frame.start ≤ frame.end) × (frame.end ≤ length words.now))) }
{
    if at == words.len() {
        return Ok(None);
    }
    let size = second(words, at);
    if !has_room(at, size, words.len()) {
        return Err(Malformed);
    }
    let start = at + 2;
    let end = start + size as usize;
    Ok(Some(Frame {
        call: words[at],
        start,
        end,
    }))
}
