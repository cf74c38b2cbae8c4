#![tactic(auto)]
// Document 01's marked examples M1 to M11 and document 02's M12, as rows of one list under one theorem. No code.
