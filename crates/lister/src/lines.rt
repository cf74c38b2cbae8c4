// Lines of the listing.
ghost use Rattle.std.specs.Prelude.{◌≡◌, ◌*◌, ◌-◌, ◌≤◌, ◌<◌, length};
ghost use Rattle.layout.specs.Varblocks.{varblock, varblocks_of, area};
ghost use Rattle.text.specs.Text.{Puts};
ghost use Rattle.lister.specs.Texts.{line_of, lines_of, accepted_text, refused_text};
ghost use Rattle.lister.specs.laws.Texts.{line_at};

use refusal::Said;

fn put_varblock(out: &mut [u8], at: usize, x: usize, y: usize, number: usize, hf_mul: u32) -> usize
    ensures { Puts out.old at (line_of (varblock x y number hf_mul)) out.new result }
{
    let behind_x = text::put_number(out, at, x as u64, b' ');
    let behind_y = text::put_number(out, behind_x, y as u64, b' ');
    let behind_number = text::put_number(out, behind_y, number as u64, b' ');
    text::put_number(out, behind_number, u64::from(hf_mul), b'\n')
}

// The line of the block (x, y), if it is a corner.
fn put_block(
    out: &mut [u8],
    at: usize,
    kinds: &[u8],
    hf_mul: &[u32],
    bw: usize,
    bh: usize,
    x: usize,
    y: usize,
) -> usize
    requires { (length kinds.now ≡ bh * bw) × (length hf_mul.now ≡ bh * bw) × (bw ≤ 256) × (bh ≤ 256) × (x < bw) × (y < bh) × (at ≤ length out.old) }
    ensures { Puts out.old at (line_at bw kinds.now hf_mul.now x y) out.new result }
{
    let i = y * bw + x;
    let kind = kinds[i];
    if kind < 2 {
        return at;
    }
    put_varblock(out, at, x, y, usize::from(kind - 2), hf_mul[i])
}

// The varblocks, corners row by row.
fn put_varblocks(
    out: &mut [u8],
    at: usize,
    kinds: &[u8],
    hf_mul: &[u32],
    bw: usize,
    bh: usize,
) -> usize
    requires { (length kinds.now ≡ bh * bw) × (length hf_mul.now ≡ bh * bw) × (bw ≤ 256) × (bh ≤ 256) × (at ≤ length out.old) }
    ensures { Puts out.old at (lines_of (varblocks_of bw bh kinds.now hf_mul.now)) out.new result }
{
    let mut to = at;
    for y in 0..bh {
        for x in 0..bw {
            to = put_block(out, to, kinds, hf_mul, bw, bh, x, y);
        }
    }
    to
}

// Grid, varblocks, total area: a layout's varblocks fill its grid.
pub(crate) fn put_accepted(
    out: &mut [u8],
    kinds: &[u8],
    hf_mul: &[u32],
    bw: usize,
    bh: usize,
) -> usize
    requires { (length kinds.now ≡ bh * bw) × (length hf_mul.now ≡ bh * bw) × (bw ≤ 256) × (bh ≤ 256) × (area (varblocks_of bw bh kinds.now hf_mul.now) ≡ bw * bh) }
    ensures { Puts out.old 0 (accepted_text bw bh kinds.now hf_mul.now) out.new result }
{
    let behind_blocks = text::put_bytes(out, 0, b"blocks ");
    let behind_bw = text::put_number(out, behind_blocks, bw as u64, b' ');
    let behind_bh = text::put_number(out, behind_bw, bh as u64, b'\n');
    let behind_lines = put_varblocks(out, behind_bh, kinds, hf_mul, bw, bh);
    let behind_area = text::put_bytes(out, behind_lines, b"area ");
    text::put_number(out, behind_area, (bw * bh) as u64, b'\n')
}

pub(crate) fn put_refused(out: &mut [u8], said: Said) -> usize
    ensures { Puts out.old 0 (refused_text said) out.new result }
{
    let behind_refused = text::put_bytes(out, 0, b"refused ");
    let behind_number = text::put_number(out, behind_refused, u64::from(said.number), b' ');
    let behind_x = text::put_number(out, behind_number, said.x as u64, b' ');
    text::put_number(out, behind_x, said.y as u64, b'\n')
}
