#![tactic(auto)]
// C interface: the cut of a lent layout, and likeness.
ghost use Rattle.std.specs.Prelude.{◌≡◌};
ghost use Rattle.refusal.specs.Said.{said_at};
ghost use Rattle.refusal.specs.Handed.{with, handed};
ghost use Rattle.lent_check.specs.GroupSides.{group_sides};
ghost use Rattle.lent_cut.specs.Calls.{cut_of};
ghost use Rattle.lent_likeness.specs.Like.{filtered};
ghost use Rattle.lent_likeness.specs.Calls.{like_of};
ghost use Rattle.c_groups.specs.Record.{CutLeaves};

// Beside a refusal the sides stay as they were.
#[unsafe(no_mangle)]
pub extern "C" fn netbuff_cut(
    bw: usize,
    bh: usize,
    kinds: &[u8],
    hf_mul: &[u32],
    index: usize,
    out_kinds: &mut [u8],
    out_hf_mul: &mut [u32],
    out_bw: &mut usize,
    out_bh: &mut usize,
    x: &mut usize,
    y: &mut usize,
) -> u32
    ensures { CutLeaves (with (said_at result x.new y.new) (group_sides out_bw.new out_bh.new)) out_kinds.new out_hf_mul.new (group_sides out_bw.old out_bh.old)
        (cut_of bw bh kinds.now hf_mul.now index out_kinds.old out_hf_mul.old) }
{
    let answer = lent_cut::cut::cut(bw, bh, kinds, hf_mul, index, out_kinds, out_hf_mul);
    match answer {
        Ok(group) => {
            *out_bw = group.bw;
            *out_bh = group.bh;
            *x = 0;
            *y = 0;
            0
        }
        Err(refusal) => {
            let said = refusal.numbers();
            *x = said.x;
            *y = said.y;
            said.number
        }
    }
}

// Beside a refusal yes or no stays as it was.
#[unsafe(no_mangle)]
pub extern "C" fn netbuff_alike(
    bw: usize,
    bh: usize,
    kinds: &[u8],
    hf_mul: &[u32],
    sigma: &[u32],
    bw2: usize,
    bh2: usize,
    kinds2: &[u8],
    hf_mul2: &[u32],
    sigma2: &[u32],
    alike: &mut bool,
    x: &mut usize,
    y: &mut usize,
) -> u32
    ensures { with (said_at result x.new y.new) alike.new
        ≡ handed (like_of (filtered bw bh kinds.now hf_mul.now sigma.now) (filtered bw2 bh2 kinds2.now hf_mul2.now sigma2.now)) alike.old }
{
    let answer = lent_likeness::alike(
        bw, bh, kinds, hf_mul, sigma, bw2, bh2, kinds2, hf_mul2, sigma2,
    );
    match answer {
        Ok(like) => {
            *alike = like;
            *x = 0;
            *y = 0;
            0
        }
        Err(refusal) => {
            let said = refusal.numbers();
            *x = said.x;
            *y = said.y;
            said.number
        }
    }
}
