#![tactic(auto)]
// C interface: the coefficient call.
ghost use Rattle.refusal.specs.Said.{said_at};
ghost use Rattle.refusal.specs.Handed.{with};
ghost use Rattle.lent_check.specs.GroupSides.{group_sides};
ghost use Rattle.context_record.specs.Record.{record_of};
ghost use Rattle.coeff_group.specs.PassGroup.{pass_group};
ghost use Rattle.coeff_call.specs.Call.{lent, call};
ghost use Rattle.c_coefficients.specs.Coefficients.{CoeffLeaves};

use context_record::HfBlockContext;
use lent_check::GroupSides;

// Beside a refusal the number of symbols read stays as it was.
#[unsafe(no_mangle)]
pub extern "C" fn netbuff_coefficients<'a, 'b>(
    bw: usize,
    bh: usize,
    kinds: &'a [u8],
    hf_mul: &'a [u32],
    num_block_clusters: u32,
    lengths: &'a [u32; 4],
    lf_thresholds: &'a [u32; 45],
    qf_thresholds: &'a [u32; 15],
    block_ctx_map: &'a [u8; 2496],
    lf_there: bool,
    lf0: &'a [u32],
    lf1: &'a [u32],
    lf2: &'a [u32],
    store: &'a [u16],
    presets: u32,
    cluster_map: &'a [u8],
    shift: u32,
    bytes: &'a [u8],
    symbols: &'a [u32],
    log: &mut [u8],
    grid0: &mut [u32],
    grid1: &mut [u32],
    grid2: &mut [u32],
    symbols_read: &'b mut usize,
    x: &'b mut usize,
    y: &'b mut usize,
) -> u32
    ensures { CoeffLeaves (with (said_at result x.new y.new) symbols_read.new) log.new grid0.new grid1.new grid2.new symbols_read.old
        (call (lent (pass_group (group_sides bw bh) kinds.now hf_mul.now (record_of num_block_clusters lengths.now lf_thresholds.now qf_thresholds.now block_ctx_map.now) lf_there lf0.now lf1.now lf2.now store.now) presets cluster_map.now shift bytes.now symbols.now log.old grid0.old grid1.old grid2.old)) }
{
    let contexts = HfBlockContext {
        num_block_clusters,
        lengths: *lengths,
        lf_thresholds: *lf_thresholds,
        qf_thresholds: *qf_thresholds,
        block_ctx_map: *block_ctx_map,
    };
    let answer = coeff_call::write_hf_coeff(
        GroupSides { bw, bh },
        kinds,
        hf_mul,
        contexts,
        lf_there,
        lf0,
        lf1,
        lf2,
        store,
        presets,
        cluster_map,
        shift,
        bytes,
        symbols,
        log,
        grid0,
        grid1,
        grid2,
    );
    match answer {
        Ok(at) => {
            *symbols_read = at;
            *x = 0;
            *y = 0;
            0
        }
        Err(refusal) => {
            let said = refusal.numbers();
            *x = said.x;
            *y = said.y;
            said.number
        }
    }
}
