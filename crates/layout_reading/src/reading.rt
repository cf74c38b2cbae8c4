// The reading of a layout: its blocks, visited row by row.
ghost use Rattle.std.specs.Prelude.{◌≡◌, ◌*◌, length, replicate};
ghost use Rattle.refusal.specs.Answer.{answered};
ghost use Rattle.layout_filter.specs.Limits.{params_fit};
ghost use Rattle.layout.specs.RowByRow.{row_by_row};
ghost use Rattle.layout_placing.specs.Reading.{Going, visit as visitOf, reading as reading_of, job_by};
ghost use Rattle.layout_reading.specs.laws.Outcome.{job_of, Fit, state_of, stepped, told_by, handed, checks_of, read_of};

use crate::column::{Stop, visit};
use crate::job::Job;
use layout_filter::{Filter, params_fit};
use layout_sizes::counts_fit;
use refusal::Refusal;

// All blocks, over lengths that fit.
fn read_blocks(
    job: &Job,
    kinds: &mut [u8],
    hf_mul: &mut [u32],
    sigma: &mut [u32],
) -> Result<usize, Stop>
    requires { Fit (job.now.bh * job.now.bw) kinds.old hf_mul.old sigma.old }
    ensures { stepped result kinds.new hf_mul.new sigma.new ≡ row_by_row (visitOf (job_of job.now)) job.now.bw job.now.bh (Going (state_of 0 kinds.old hf_mul.old sigma.old)) }
{
    let mut used = 0;
    for y in 0..job.bh {
        for x in 0..job.bw {
            used = visit(job, kinds, hf_mul, sigma, used, x, y)?;
        }
    }
    Ok(used)
}

fn clear(kinds: &mut [u8], hf_mul: &mut [u32], sigma: &mut [u32])
    ensures { (kinds.new ≡ replicate (length kinds.old) 0) × (hf_mul.new ≡ replicate (length hf_mul.old) 0) × (sigma.new ≡ replicate (length sigma.old) 0) }
{
    kinds.fill(0);
    hf_mul.fill(0);
    sigma.fill(0);
}

// All blocks, from cleared buffers on.
#[tactic(auto, unfolding(layout_placing::specs::Reading::reading))]
fn read_from_zeros(
    job: &Job,
    kinds: &mut [u8],
    hf_mul: &mut [u32],
    sigma: &mut [u32],
) -> Result<usize, Stop>
    requires { Fit (job.now.bh * job.now.bw) kinds.old hf_mul.old sigma.old }
    ensures { stepped result kinds.new hf_mul.new sigma.new ≡ reading_of (job_of job.now) }
{
    clear(kinds, hf_mul, sigma);
    read_blocks(job, kinds, hf_mul, sigma)
}

// All blocks, whatever the buffers held. A refusal leaves all three zero.
fn read_cleared(
    job: &Job,
    kinds: &mut [u8],
    hf_mul: &mut [u32],
    sigma: &mut [u32],
) -> Result<usize, Stop>
    requires { Fit (job.now.bh * job.now.bw) kinds.old hf_mul.old sigma.old }
    ensures { handed result kinds.new hf_mul.new sigma.new ≡ told_by (job_of job.now) (reading_of (job_of job.now)) }
{
    let answer = read_from_zeros(job, kinds, hf_mul, sigma);
    if answer.is_err() {
        clear(kinds, hf_mul, sigma);
    }
    answer
}

// Before work: the filter's numbers (11); at most 256 blocks each way and lengths that fit (1).
fn read_check(
    filter: Filter,
    lookups: [f32; 8],
    scale: u32,
    bw: usize,
    bh: usize,
    types: usize,
    muls: usize,
    sharpness: usize,
    kinds: usize,
    hf_mul: usize,
    sigma: usize,
) -> Result<(), Refusal>
    ensures { answered result ≡ checks_of (params_fit filter lookups scale) bw bh types muls sharpness kinds hf_mul sigma }
{
    if !params_fit(filter, lookups, scale) {
        return Err(Refusal::Parameter);
    }
    if 256 < bw || 256 < bh {
        return Err(Refusal::Length);
    }
    if !counts_fit(types, muls, sharpness, kinds, hf_mul, sigma, bh * bw) {
        return Err(Refusal::Length);
    }
    Ok(())
}

// Reads a layout into lent buffers, and tells how many columns were placed. Refused before work: nothing is written.
pub fn read(
    kinds: &mut [u8],
    hf_mul: &mut [u32],
    sigma: &mut [u32],
    types: &[u32],
    muls: &[u32],
    sharpness: &[u32],
    filter: Filter,
    lookups: [f32; 8],
    scale: u32,
    bw: usize,
    bh: usize,
) -> Result<usize, Stop>
    ensures { handed result kinds.new hf_mul.new sigma.new ≡ read_of (job_by bw bh types.now muls.now sharpness.now filter lookups scale) kinds.old hf_mul.old sigma.old filter scale }
{
    read_check(
        filter,
        lookups,
        scale,
        bw,
        bh,
        types.len(),
        muls.len(),
        sharpness.len(),
        kinds.len(),
        hf_mul.len(),
        sigma.len(),
    )
    .map_err(|why| Stop { placed: 0, why })?;
    let job = Job {
        bw,
        bh,
        types,
        muls,
        sharpness,
        filter: filter.scaled_by(scale),
        lookups: &lookups,
    };
    read_cleared(&job, kinds, hf_mul, sigma)
}
