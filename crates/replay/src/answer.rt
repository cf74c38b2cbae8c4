// An answer as numbers: the refusal's number and position, 0, 0 and 0 where the call accepts, then
// what the call gives.
use recorded_answers::agreeing;
use refusal::Refusal;

pub(crate) fn refuse(out: &mut [usize; 48], why: Refusal) {
    let said = why.numbers();
    out[0] = said.number as usize;
    out[1] = said.x;
    out[2] = said.y;
}

// The answer of a call that gives one number.
pub(crate) fn put(out: &mut [usize; 48], answer: Result<usize, Refusal>) {
    match answer {
        Ok(number) => out[3] = number,
        Err(why) => refuse(out, why),
    }
}

// How many of the first numbers of an answer are those at the end of a record.
pub(crate) fn agreed(words: &[u32], count: usize, mine: &[usize]) -> usize {
    if mine.len() < count {
        return 0;
    }
    if words.len() < count {
        return 0;
    }
    agreeing(&words[words.len() - count..], &mine[..count])
}
