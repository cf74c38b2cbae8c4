#![tactic(auto)]
// A pass group: what its reading means, varblock by varblock (`hf_coeff.rs`). The code is in `coeff_varblock`,
// for a varblock, and `coeff_call`.
pub mod plan;
