#![tactic(auto)]
// C interface: the layout of an LF group with its filter strengths, and its column count.
ghost use Rattle.std.specs.Prelude.{◌≡◌, [], ◌∷◌};
ghost use Rattle.refusal.specs.Said.{said_at};
ghost use Rattle.refusal.specs.Handed.{with, handed};
ghost use Rattle.layout_column_count.specs.Count.{counts, count_of};
ghost use Rattle.layout_call.specs.Call.{inputs, layout_of};
ghost use Rattle.c_layout.specs.Layout.{filter_of, LayoutLeaves};

use layout_filter::Filter;

fn filter_of(on: bool, multiplier: f32) -> Filter
    ensures { result ≡ filter_of on multiplier }
{
    if on {
        Filter::On(multiplier)
    } else {
        Filter::Off
    }
}

// Beside a refusal count and bits stay as they were.
#[unsafe(no_mangle)]
pub extern "C" fn netbuff_column_count(
    bytes: &[u8],
    width: u32,
    height: u32,
    mode0: u32,
    mode1: u32,
    mode2: u32,
    count: &mut u32,
    bits: &mut usize,
    x: &mut usize,
    y: &mut usize,
) -> u32
    ensures { with (said_at result x.new y.new) (counts count.new bits.new)
        ≡ handed (count_of width height (mode0 ∷ mode1 ∷ mode2 ∷ []) bytes.now) (counts count.old bits.old) }
{
    match layout_column_count::column_count(width, height, [mode0, mode1, mode2], bytes) {
        Ok((columns, read)) => {
            *count = columns;
            *bits = read;
            *x = 0;
            *y = 0;
            0
        }
        Err(refusal) => {
            let said = refusal.numbers();
            *x = said.x;
            *y = said.y;
            said.number
        }
    }
}

// Beside a refusal the number of columns used stays as it was.
#[unsafe(no_mangle)]
pub extern "C" fn netbuff_layout(
    width: u32,
    height: u32,
    mode0: u32,
    mode1: u32,
    mode2: u32,
    types: &[u32],
    muls: &[u32],
    sharpness: &[u32],
    filter_on: bool,
    multiplier: f32,
    lookup: &[f32; 8],
    scale: u32,
    kinds: &mut [u8],
    hf_mul: &mut [u32],
    sigma: &mut [u32],
    used: &mut usize,
    x: &mut usize,
    y: &mut usize,
) -> u32
    ensures { LayoutLeaves (with (said_at result x.new y.new) used.new) kinds.new hf_mul.new sigma.new used.old
        (layout_of (inputs width height (mode0 ∷ mode1 ∷ mode2 ∷ []) types.now muls.now sharpness.now (filter_of filter_on multiplier) lookup.now scale)
        kinds.old hf_mul.old sigma.old) }
{
    let answer = layout_call::layout(
        width,
        height,
        [mode0, mode1, mode2],
        types,
        muls,
        sharpness,
        filter_of(filter_on, multiplier),
        *lookup,
        scale,
        kinds,
        hf_mul,
        sigma,
    );
    match answer {
        Ok(columns) => {
            *used = columns;
            *x = 0;
            *y = 0;
            0
        }
        Err(refusal) => {
            let said = refusal.numbers();
            *x = said.x;
            *y = said.y;
            said.number
        }
    }
}
