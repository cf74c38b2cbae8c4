// The numbers and lists of a record. A list is its size in numbers, its count of elements, and the
// elements: one to a number, or bytes, four to a number.
ghost use Rattle.std.specs.Prelude.{◌≡◌, ◌+◌, ◌≤◌, leb, length, get_or};
ghost use Rattle.recorded_lists.specs.Lists.{behind_one, place_of, span_of, byte_span_of, list_at, bytes_at};

// The number at a place, 0 behind the end.
pub fn number(words: &[u32], at: usize) -> u32
    ensures { result ≡ get_or words.now at 0 }
{
    words.get(at).copied().unwrap_or(0)
}

// The number behind the one at a place, 0 behind the end.
pub(crate) fn second(words: &[u32], at: usize) -> u32
    ensures { result ≡ get_or words.now (at + 1) 0 }
{
    if words.len() <= at {
        return 0;
    }
    number(words, at + 1)
}

// Whether a head of two numbers and n elements fit from a place on, among so many.
pub(crate) fn has_room(at: usize, n: u32, most: usize) -> bool
    ensures { result ≡ leb (at + 2 + n) most }
{
    let size = n as usize + 2;
    if most < size {
        return false;
    }
    at <= most - size
}

// The place behind the list at a place, at most the end.
fn behind_one(words: &[u32], at: usize) -> usize
    ensures { result ≡ behind_one words.now at }
{
    let size = number(words, at);
    if !has_room(at, size, words.len()) {
        return words.len();
    }
    at + 2 + size as usize
}

// The place behind the first k lists from a place on.
fn place(words: &[u32], from: usize, k: usize) -> usize
    ensures { result ≡ place_of words.now from k }
{
    let mut at = from;
    for _ in 0..k {
        at = behind_one(words, at);
    }
    at
}

// A part of a list; nothing where it is not there, as `span_of` and `byte_span_of` of specs/Lists have it.
#[derive(Drop)]
struct Span {
    start: usize,
    end: usize,
}

fn span_at(words: &[u32], at: usize) -> Span
    ensures value { result ≡ span_of words.now at }
    ensures start_le_end { (result.start ≤ result.end) × (result.end ≤ length words.now) }
{
    let count = second(words, at);
    if !has_room(at, count, words.len()) {
        return Span { start: 0, end: 0 };
    }
    let start = at + 2;
    Span {
        start,
        end: start + count as usize,
    }
}

// The list behind k lists from a place on.
pub fn list(words: &[u32], from: usize, k: usize) -> &[u32]
    ensures { result.now ≡ list_at words.now (place_of words.now from k) }
{
    let at = place(words, from, k);
    let span = span_at(words, at);
    &words[span.start..span.end]
}

// Where a list of bytes lies in so many bytes, if its head is at a place of the numbers.
fn byte_span(words: &[u32], at: usize, bytes: usize) -> Span
    ensures value { result ≡ byte_span_of words.now at bytes }
    ensures start_le_end { (result.start ≤ result.end) × (result.end ≤ bytes) }
{
    if !has_room(at, 0, bytes / 4) {
        return Span { start: 0, end: 0 };
    }
    let count = second(words, at) as usize;
    let start = 4 * (at + 2);
    if bytes - start < count {
        return Span { start: 0, end: 0 };
    }
    Span {
        start,
        end: start + count,
    }
}

// The list of bytes behind k lists from a place on.
pub fn bytes<'a>(body: &'a [u8], words: &[u32], from: usize, k: usize) -> &'a [u8]
    ensures { result.now ≡ bytes_at body.now words.now (place_of words.now from k) }
{
    let at = place(words, from, k);
    let span = byte_span(words, at, body.len());
    &body[span.start..span.end]
}
