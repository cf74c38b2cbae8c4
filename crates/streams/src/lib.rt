#![tactic(auto)]
// Reads that go on until a buffer is full.
ghost use Rattle.std.specs.Prelude.{take};
ghost use Rattle.std.specs.Io.KnownBytes.{Consumes};
ghost use Rattle.io.specs.Counts.{IsPrefixLen};

use std::io::Read;

// One read. One that fails gives nothing, as one at the end does.
fn read_some<R: Read>(from: &mut R, buf: &mut [u8]) -> usize
    ensures in_bounds { IsPrefixLen result buf.new }
    ensures bytes { Consumes (R.remaining from.old) (R.remaining from.new) (take result buf.new) }
{
    from.read(buf).unwrap_or(0)
}

// Reads until buf is full, the input ends or a read fails, and returns how many bytes it put at the
// start of buf. On an empty buf it makes no call. A step is what one read gives, so the loop counts
// no index.
pub fn read_full<R: Read>(from: &mut R, buf: &mut [u8]) -> usize
    ensures in_bounds { IsPrefixLen result buf.new }
    ensures bytes { Consumes (R.remaining from.old) (R.remaining from.new) (take result buf.new) }
{
    let mut done = 0;
    while done < buf.len() {
        let n = read_some(from, &mut buf[done..]);
        if n == 0 {
            break;
        }
        done += n;
    }
    done
}
