// The columns of a layout, placed one after the other: how many are used by then, or where the reading stops.
ghost use Rattle.std.specs.Prelude.{◌≡◌, ◌*◌, ◌≤◌, ◌<◌};
ghost use Rattle.layout_placing.specs.Reading.{Going, place as place_of, visit as visitOf};
ghost use Rattle.layout_reading.specs.laws.Outcome.{job_of, Fit, state_of, stepped};

use crate::job::Job;
use crate::scan::scan;
use layout_column::{JudgedColumn, judge};
use refusal::Refusal;

// The reading stops after that many columns were placed.
#[derive(Clone, Copy)]
pub struct Stop {
    pub placed: usize,
    pub why: Refusal,
}

// A varblock at the free block (x, y).
fn place(
    job: &Job,
    kinds: &mut [u8],
    hf_mul: &mut [u32],
    sigma: &mut [u32],
    v: JudgedColumn,
    used: usize,
    x: usize,
    y: usize,
) -> Result<usize, Stop>
    requires { Fit (job.now.bh * job.now.bw) kinds.old hf_mul.old sigma.old × (v.wide ≤ 32) × (v.high ≤ 32) × (x < job.now.bw) × (y < job.now.bh) × (used < 18446744073709551615) × (1 ≤ v.hf_mul) }
    ensures { stepped result kinds.new hf_mul.new sigma.new ≡ place_of job.now.bw job.now.bh job.now.filter job.now.lookups.now job.now.sharpness.now v.kind v.hf_mul v.wide v.high x y (state_of used kinds.old hf_mul.old sigma.old) }
{
    let divided = job.filter.map(|m| m.divided_by(v.hf_mul));
    scan(job, kinds, sigma, divided, x, y, v.wide, v.high).map_err(|fault| Stop {
        placed: used,
        why: fault.refusal_at(x, y),
    })?;
    let i = y * job.bw + x;
    kinds[i] = v.kind;
    hf_mul[i] = v.hf_mul;
    Ok(used + 1)
}

// The block (x, y): passed over where it is taken, else it takes the next column.
pub(crate) fn visit(
    job: &Job,
    kinds: &mut [u8],
    hf_mul: &mut [u32],
    sigma: &mut [u32],
    used: usize,
    x: usize,
    y: usize,
) -> Result<usize, Stop>
    requires { Fit (job.now.bh * job.now.bw) kinds.old hf_mul.old sigma.old × (x < job.now.bw) × (y < job.now.bh) }
    ensures { stepped result kinds.new hf_mul.new sigma.new ≡ visitOf (job_of job.now) x y (Going (state_of used kinds.old hf_mul.old sigma.old)) }
{
    let i = y * job.bw + x;
    if 0 < kinds[i] {
        return Ok(used);
    }
    if job.types.len() <= used {
        return Err(Stop {
            placed: used,
            why: Refusal::ColumnsEnd(x, y),
        });
    }
    let v = judge(job.types[used], job.muls[used], x, y).map_err(|why| Stop { placed: used, why })?;
    place(job, kinds, hf_mul, sigma, v, used, x, y)
}
