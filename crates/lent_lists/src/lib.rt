#![tactic(auto)]
// Lists of numbers as they are lent: whether two are the same, and whether each bit pattern is that of a finite number.
pub mod finite;
pub mod same;
