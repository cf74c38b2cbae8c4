#![tactic(auto)]
// Layout lister: reads a job from standard input, and not a byte behind its end, and lists its
// layout.
ghost use Rattle.std.specs.Prelude.{◌≤◌};

use std::io;
use std::io::Stdin;
use streams::read_full;

// Record by record, as many bytes as the job still needs, until it needs none or input ends: how
// many there are. A job has at most 36,870. A step is what the job needs: no index is counted.
fn read_job(input: &mut Stdin, job: &mut [u8; 36870]) -> usize
    ensures { result ≤ 36870 }
{
    let mut n = 0;
    loop {
        let needed = lister_job::needed(&job[..n]);
        if needed == 0 {
            return n;
        }
        let end = n + needed;
        let got = read_full(input, &mut job[n..end]);
        n += got;
        if got < needed {
            return n;
        }
    }
}

fn main(rt: HostRuntime) -> io::Result<()> {
    let mut job = [0u8; 36870];
    let n = read_job(&mut rt.stdin(), &mut job);
    let mut out = [0u8; 90000];
    let k = lister::list_whole(&job[..n], &mut out);
    rt.write_all(&out[..k])
}
