//! What goes down a tree of nodes comes to, whatever the memory holds: a lookup's walk, the way to a prefix, the smallest route and the
//! smallest above a prefix; and that on the image of a table these are the plain list's. Definitions in `specs/` and lemmas in `proofs/`; no code.
#![tactic(auto)]
