//! What the console replies, in words: answers, refusals, what was not understood, and the counts of lines.
#![tactic(auto)]

pub mod answers;
pub mod kind;
pub mod reply;
pub mod summary;
