#![tactic(auto)]
// Runs the lister on recorded jobs: each a 16-bit length, the lower byte first, and that many bytes.
ghost use Rattle.std.specs.Prelude.{◌<◌, length, IfSome};

use std::io;
use streams::read_full;

fn run(rt: &impl Print, job: &[u8]) -> io::Result<()> {
    let mut out = [0u8; 90000];
    let k = lister::list_whole(job, &mut out);
    rt.write_all(&out[..k])
}

// The first job and what follows it, if a whole job is left.
fn split_first(jobs: &[u8]) -> Option<(&[u8], &[u8])>
    ensures { IfSome result (λ split. length split.1.now < length jobs.now) }
{
    if jobs.len() < 2 {
        return None;
    }
    let length = usize::from(u16::from_le_bytes([jobs[0], jobs[1]]));
    let behind = &jobs[2..];
    if behind.len() < length {
        return None;
    }
    Some(behind.split_at(length))
}

fn main(rt: HostRuntime) -> io::Result<()> {
    let mut jobs = [0u8; 262144];
    let n = read_full(&mut rt.stdin(), &mut jobs);
    let mut rest = &jobs[..n];
    while let Some((job, behind)) = split_first(rest) {
        run(&rt, job)?;
        rest = behind;
    }
    Ok(())
}
