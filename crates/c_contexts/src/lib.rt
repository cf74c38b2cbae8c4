#![tactic(auto)]
// C interface: the context call.
ghost use Rattle.std.specs.Prelude.{◌≡◌};
ghost use Rattle.refusal.specs.Said.{said_at};
ghost use Rattle.refusal.specs.Handed.{with, handed};
ghost use Rattle.context_record.specs.Record.{record_of};
ghost use Rattle.context_call.specs.Call.{parsed};
ghost use Rattle.c_contexts.specs.Contexts.{results, answered};

// Beside a refusal the record and the bits read stay as they were.
#[tactic(auto, using(context_call::specs::laws::Parts::was_accepted, context_call::specs::laws::Parts::was_refused))]
#[unsafe(no_mangle)]
pub extern "C" fn netbuff_block_context<'a, 'b>(
    bytes: &'a [u8],
    num_clusters: u32,
    map: &'a [u8],
    num_block_clusters: &'b mut u32,
    lengths: &'b mut [u32; 4],
    lf_thresholds: &'b mut [u32; 45],
    qf_thresholds: &'b mut [u32; 15],
    block_ctx_map: &'b mut [u8; 2496],
    bits_read: &'b mut usize,
    x: &'b mut usize,
    y: &'b mut usize,
) -> u32
    ensures { with (said_at result x.new y.new)
        (results (record_of num_block_clusters.new lengths.new lf_thresholds.new qf_thresholds.new block_ctx_map.new) bits_read.new)
        ≡ handed (answered (parsed bytes.now num_clusters map.now))
        (results (record_of num_block_clusters.old lengths.old lf_thresholds.old qf_thresholds.old block_ctx_map.old) bits_read.old) }
{
    let parsed = context_call::parse_into(
        bytes,
        num_clusters,
        map,
        lf_thresholds,
        qf_thresholds,
        block_ctx_map,
    );
    match parsed {
        Ok(parts) => {
            let list_lengths = parts.lengths;
            *num_block_clusters = parts.num_block_clusters;
            *lengths = list_lengths;
            *bits_read = parts.bits_read;
            *x = 0;
            *y = 0;
            0
        }
        Err(refusal) => {
            let said = refusal.numbers();
            *x = said.x;
            *y = said.y;
            said.number
        }
    }
}
