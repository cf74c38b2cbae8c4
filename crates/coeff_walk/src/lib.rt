#![tactic(auto)]
// One channel of a varblock: what its reading means (`hf_coeff.rs`). The reading's code is in `coeff_places` and
// `coeff_varblock`.
pub mod shape;
pub mod spot;
