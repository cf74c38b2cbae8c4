// Rows of counts: what a varblock leaves in them (`hf_coeff.rs`).
ghost use Rattle.std.specs.Prelude.{◌≡◌, ◌+◌, ◌≤◌};
ghost use Rattle.laws.specs.Lists.{fill_from};

// A row gets v from x on, n times.
pub(crate) fn rewrite(row: &mut [u32; 32], x: usize, n: usize, v: u32)
    requires { x + n ≤ 32 }
    ensures { row.new ≡ fill_from row.old x n v }
{
    row[x..x + n].fill(v);
}
