//! How the image of a table changes: the writes by which nodes are taken, marked, unmarked and returned, one after the other, and what they make
//! of every field. Definitions in `specs/` and lemmas in `proofs/`; no code.
#![tactic(auto)]
