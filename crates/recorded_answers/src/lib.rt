#![tactic(auto)]
// What a call gave: digests of its lists, and the comparison with what was recorded (compare/RECORD.md).
pub mod digest;

ghost use Rattle.std.specs.Prelude.{◌≡◌, ◌≤◌, length};
ghost use Rattle.recorded_answers.specs.Compare.{common};

// How many numbers agree before the first that does not. One list is enumerated: over a zip of both the proof did not close.
pub fn agreeing(theirs: &[u32], mine: &[usize]) -> usize
    ensures value { result ≡ common theirs.now mine.now }
    ensures upper_bound { (result ≤ length theirs.now) × (result ≤ length mine.now) }
{
    for (i, &number) in mine.iter().enumerate() {
        if theirs.len() <= i {
            return i;
        }
        if theirs[i] as usize != number {
            return i;
        }
    }
    mine.len()
}
