#![tactic(auto)]
// The numbers, lists and records of a recorded list of answers (compare/RECORD.md).
pub mod frame;
pub mod list;
