//! Rows of bits: their numbers, groups and order. Definitions in `specs/` and lemmas in `proofs/`; no code.
#![tactic(auto)]
