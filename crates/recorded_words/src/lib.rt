#![tactic(auto)]
// The bytes of a file as numbers of four bytes, lowest byte first.
ghost use Rattle.std.specs.Prelude.{◌≡◌, ◌++◌, ◌+◌, ◌*◌, ◌≤◌, length, drop};
ghost use Rattle.recorded_words.specs.Words.{word_at, word_count, words_of};
ghost use Rattle.io.specs.Counts.{IsPrefixLen};

// The i-th number.
fn word(file: &[u8], i: usize) -> u32
    requires { 4 * i + 4 ≤ length file.now }
    ensures { result ≡ word_at file.now i }
{
    let p = 4 * i;
    u32::from_le_bytes([file[p], file[p + 1], file[p + 2], file[p + 3]])
}

// As many whole numbers as there are and fit.
fn count(bytes: usize, room: usize) -> usize
    ensures value { result ≡ word_count bytes room }
    ensures result_bound { (4 * result ≤ bytes) × (result ≤ room) }
{
    room.min(bytes / 4)
}

// Writes the whole numbers of a file, as many as fit, and gives how many.
pub fn decode(file: &[u8], out: &mut [u32]) -> usize
    ensures value { (result ≡ word_count (length file.now) (length out.old)) × (out.new ≡ words_of file.now result ++ drop result out.old) }
    ensures prefix_len { IsPrefixLen result out.new }
{
    let n = count(file.len(), out.len());
    for i in 0..n {
        out[i] = word(file, i);
    }
    n
}
