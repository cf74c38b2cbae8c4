#![tactic(auto)]
// The layout lister: from a job's bytes to the printed bytes (document 01, The lister).
ghost use Rattle.std.specs.Prelude.{◌≡◌, ◌++◌, ◌*◌, ◌≤◌, length, get_or, drop, replicate};
ghost use Rattle.text.specs.Text.{Puts};
ghost use Rattle.lister_job.specs.Job.{width as width_of, height as height_of};
ghost use Rattle.lister.specs.Texts.{BAD_INPUT};
ghost use Rattle.lister.specs.Listing.{bw_of, bh_of, layout_text, text_of};

use crate::lines::{put_accepted, put_refused};
use layout_filter::Filter;

mod lines;

fn put_bad(out: &mut [u8]) -> usize
    ensures { Puts out.old 0 BAD_INPUT out.new result }
{
    text::put_bytes(out, 0, b"bad input\n")
}

// The layout of a job's columns, over cleared buffers of just its blocks.
fn list_layout(
    out: &mut [u8],
    width: u32,
    height: u32,
    types: &[u32],
    muls: &[u32],
    sharpness: &[u32],
    kinds: &mut [u8],
    hf_mul: &mut [u32],
    sigma: &mut [u32],
    bw: usize,
    bh: usize,
) -> usize
    requires { (bw ≡ bw_of width) × (bh ≡ bh_of height) × (bw ≤ 64) × (bh ≤ 64) × (sharpness.now ≡ replicate (bh * bw) 0) × (kinds.old ≡ replicate (bh * bw) 0) × (hf_mul.old ≡ replicate (bh * bw) 0) × (sigma.old ≡ replicate (bh * bw) 0) }
    ensures { Puts out.old 0 (layout_text width height types.now muls.now) out.new result }
{
    let answer = layout_call::layout(
        width,
        height,
        [0, 0, 0],
        types,
        muls,
        sharpness,
        Filter::Off,
        [0.0; 8],
        1,
        kinds,
        hf_mul,
        sigma,
    );
    match answer {
        Ok(_) => put_accepted(out, kinds, hf_mul, bw, bh),
        Err(why) => put_refused(out, why.numbers()),
    }
}

// Over buffers for 64 x 64 blocks, cut to the job's blocks: at most 512 pixels are 64 blocks each way.
fn list_columns(out: &mut [u8], width: u32, height: u32, types: &[u32], muls: &[u32]) -> usize
    requires { (width ≤ 512) × (height ≤ 512) }
    ensures { Puts out.old 0 (layout_text width height types.now muls.now) out.new result }
{
    let blocks = layout_sizes::blocks_of(width, height, [0, 0, 0]);
    let bw = blocks.bw;
    let bh = blocks.bh;
    let n = bh * bw;
    let sharpness = [0u32; 4096];
    let mut kinds = [0u8; 4096];
    let mut hf_mul = [0u32; 4096];
    let mut sigma = [0u32; 4096];
    list_layout(
        out,
        width,
        height,
        types,
        muls,
        &sharpness[..n],
        &mut kinds[..n],
        &mut hf_mul[..n],
        &mut sigma[..n],
        bw,
        bh,
    )
}

// A job whose size record was read.
fn list_job(
    out: &mut [u8],
    job: &[u8],
    width: u32,
    height: u32,
    types: &mut [u32; 4096],
    muls: &mut [u32; 4096],
) -> usize
    requires { (5 ≤ length job.now) × (get_or job.now 0 0 ≡ 16) × (width ≡ width_of job.now) × (height ≡ height_of job.now) × (width ≤ 512) × (height ≤ 512) }
    ensures { Puts out.old 0 (text_of job.now) out.new result }
{
    let n = lister_job::read_columns(job, types, muls);
    let end = 5 + 9 * n;
    if job.len() <= end {
        return put_bad(out);
    }
    if job[end] != 0 {
        return put_bad(out);
    }
    let all_types: &[u32] = types;
    let all_muls: &[u32] = muls;
    list_columns(out, width, height, &all_types[..n], &all_muls[..n])
}

// The printed text of a job, as much of it as out holds, and how many bytes that is.
fn list(job: &[u8], out: &mut [u8]) -> usize
    ensures { Puts out.old 0 (text_of job.now) out.new result }
{
    if job.len() < 5 {
        return put_bad(out);
    }
    if job[0] != 0x10 {
        return put_bad(out);
    }
    let width = lister_job::number16(job, 1);
    let height = lister_job::number16(job, 3);
    if 512 < width {
        return put_bad(out);
    }
    if 512 < height {
        return put_bad(out);
    }
    let mut types = [0u32; 4096];
    let mut muls = [0u32; 4096];
    list_job(out, job, width, height, &mut types, &mut muls)
}

// All of a job's text, which is at most 90,000 bytes, and how many bytes it is. Later bytes stay as they were.
pub fn list_whole(job: &[u8], out: &mut [u8; 90000]) -> usize
    ensures { (result ≤ length out.new) × (result ≡ length (text_of job.now)) × (out.new ≡ text_of job.now ++ drop result out.old) }
{
    list(job, out)
}
