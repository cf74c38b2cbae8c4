#![tactic(auto)]
// Likeness of layouts that the layout call accepted. No code.
