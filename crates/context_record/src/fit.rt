// The limits of a context record.
ghost use Rattle.std.specs.Prelude.{◌≡◌};
ghost use Rattle.std.specs.List.{list_all};
ghost use Rattle.context_record.specs.Record.{qf_fit, fit};
ghost use Rattle.context_record.specs.laws.Bounds.{short};

use super::HfBlockContext;
use bytes_below::all_below;
use context_sizes::bsize;

fn all_short(lengths: [u32; 4]) -> bool
    ensures { result ≡ list_all short lengths }
{
    lengths.iter().all(|length| *length <= 15)
}

// Every value is 1 to 300.
fn all_qf(values: &[u32]) -> bool
    ensures { result ≡ list_all qf_fit values.now }
{
    values.iter().all(|value| (1..=300).contains(value))
}

// A lent record is not refused with 12.
pub fn is_fit(ctx: HfBlockContext) -> bool
    ensures { result ≡ fit ctx }
{
    let lengths = ctx.lengths;
    if !all_short(lengths) {
        return false;
    }
    let size = bsize(lengths);
    let clusters = ctx.num_block_clusters;
    if 64 < size || clusters < 1 || 16 < clusters {
        return false;
    }
    all_qf(&ctx.qf_thresholds[..lengths[3] as usize])
        && all_below(&ctx.block_ctx_map[..39 * size], clusters)
}
