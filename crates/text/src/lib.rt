#![tactic(auto)]
// Text written into lent bytes, as much of it as fits.
ghost use Rattle.std.specs.Prelude.{◌≡◌, [], ◌∷◌, ◌++◌};
ghost use Rattle.text.specs.Text.{Puts, decimal};

// Puts s at the place at, and answers the place behind it.
pub fn put_bytes(out: &mut [u8], at: usize, s: &[u8]) -> usize
    ensures { Puts out.old at s.now out.new result }
{
    let start = at.min(out.len());
    let n = s.len().min(out.len() - start);
    let end = start + n;
    out[start..end].copy_from_slice(&s[..n]);
    end
}

// Puts a number in decimal, with no zeros in front.
fn put_decimal(out: &mut [u8], at: usize, n: u64) -> usize
    ensures { Puts out.old at (decimal n) out.new result }
{
    let mut digits = [0u8; 20];
    let k = io::decimal(n, &mut digits);
    put_bytes(out, at, &digits[..k])
}

// Puts one byte, with no call of a copy: a page has one behind each number.
fn put_byte(out: &mut [u8], at: usize, byte: u8) -> usize
    ensures { Puts out.old at (byte ∷ []) out.new result }
{
    if out.len() <= at {
        return out.len();
    }
    out[at] = byte;
    at + 1
}

// A number and a byte behind it.
pub fn put_number(out: &mut [u8], at: usize, n: u64, behind: u8) -> usize
    ensures { Puts out.old at (decimal n ++ (behind ∷ [])) out.new result }
{
    let to = put_decimal(out, at, n);
    put_byte(out, to, behind)
}
