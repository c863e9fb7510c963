//! Fields of bits in a word, and where the fields of a node lie in its words. Definitions in `specs/` and lemmas in `proofs/`; no code.
#![tactic(auto)]
