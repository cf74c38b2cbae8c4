#![tactic(auto)]
// A job of the lister: size, columns, end.
ghost use Rattle.std.specs.Prelude.{◌≡◌, ◌+◌, ◌≤◌, ◌<◌, length};
ghost use Rattle.lister_job.specs.Job.{number16 as number16Of, number32 as number32Of, column_place, has_size, size_needs, column_needs, needed as neededOf};
ghost use Rattle.lister_job.specs.laws.JobSteps.{ReadColumns};

// Bytes beyond the end count as 0.
pub fn number16(s: &[u8], i: usize) -> u32
    ensures { result ≡ number16Of s.now i }
{
    if s.len() <= i {
        return 0;
    }
    if s.len() == i + 1 {
        return u32::from(s[i]);
    }
    u32::from(u16::from_le_bytes([s[i], s[i + 1]]))
}

fn number32(s: &[u8], i: usize) -> u32
    requires { i + 4 ≤ length s.now }
    ensures { result ≡ number32Of s.now i }
{
    u32::from_le_bytes([s[i], s[i + 1], s[i + 2], s[i + 3]])
}

// The columns of a job, at most 4,096, and how many there are.
pub fn read_columns(job: &[u8], types: &mut [u32; 4096], muls: &mut [u32; 4096]) -> usize
    ensures { ReadColumns job.now result types.old muls.old types.new muls.new }
{
    for n in 0..4096 {
        let i = 5 + 9 * n;
        if job.len() < i + 9 {
            return n;
        }
        if job[i] != 0x11 {
            return n;
        }
        types[n] = number32(job, i + 1);
        muls[n] = number32(job, i + 5);
    }
    4096
}

// A size's command byte with at most 512 pixels each way.
fn has_size(job: &[u8]) -> bool
    ensures { result ≡ has_size job.now }
{
    if job.len() < 5 {
        return false;
    }
    if job[0] != 0x10 {
        return false;
    }
    if 512 < number16(job, 1) {
        return false;
    }
    number16(job, 3) <= 512
}

// Bytes that a size record lacks.
fn size_needs(job: &[u8]) -> usize
    requires { length job.now < 5 }
    ensures { result ≡ size_needs job.now }
{
    if job.len() == 0 {
        return 1;
    }
    if job[0] != 0x10 {
        return 0;
    }
    5 - job.len()
}

// Bytes that column k, the last that has begun or is to begin, or an end in its place lacks.
#[tactic(auto, using(crate::proofs::laws::Needed::column_first, crate::proofs::laws::Needed::column_over, crate::proofs::laws::Needed::column_other, crate::proofs::laws::Needed::column_rest))]
fn column_needs(job: &[u8], k: usize) -> usize
    requires { (column_place k ≤ length job.now) × (length job.now < column_place k + 9) }
    ensures { result ≡ column_needs job.now k }
{
    let start = 5 + 9 * k;
    if job.len() <= start {
        return 1;
    }
    if 4096 <= k {
        return 0;
    }
    if job[start] != 0x11 {
        return 0;
    }
    start + 9 - job.len()
}

// How many bytes to read behind these, record by record: none behind a job's end, nor where no job
// goes on.
pub fn needed(job: &[u8]) -> usize
    ensures { result ≡ neededOf job.now }
{
    if job.len() < 5 {
        return size_needs(job);
    }
    if has_size(job) {
        return column_needs(job, (job.len() - 5) / 9);
    }
    0
}
