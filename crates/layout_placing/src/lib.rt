#![tactic(auto)]
// What the reading of a layout means: the scan of a varblock's rectangle, a block visited, all blocks. No code: it is
// in `layout_reading`.
