//! What long random histories are made of: dice, address kinds by numbers, a scan of an unsorted list of routes, and a tally of answers.
#![tactic(auto)]

pub mod dice;
pub mod lines;
pub mod numbers;
pub mod tally;

/// A history: where the dice start, how many nodes there are, and how many calls are made.
#[derive(Clone, Copy)]
pub struct History {
    pub start: u64,
    pub nodes: usize,
    pub calls: u32,
}
