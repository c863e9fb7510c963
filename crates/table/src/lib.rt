//! The table: a route engine over any node memory. Its routes lie in a tree of bitmap nodes, and every call answers as the plain list of these
//! routes does.
#![tactic(auto)]

use address::Address;
use nodes::NodeWrite;
use plan::Plan;

mod deleting;
mod inserting;
mod loading;
mod memory;
mod opening;
mod reading;
mod writing;

/// A table over a memory, which it keeps: shut while it has no plan. Beside the memory it keeps the front of the chain of free nodes, and how many
/// routes and how many required nodes there are.
#[derive(Drop)]
pub struct Table<A: Address, M: NodeWrite> {
    memory: M,
    plan: Option<Plan<A>>,
    front: u32,
    routes: usize,
    required: usize,
}

/// What an insert answers: the hop that was replaced, if any, and how many nodes were taken.
#[derive(Clone, Copy, PartialEq, Eq, Debug)]
pub struct Inserted {
    pub old: Option<u16>,
    pub taken: usize,
}

/// What a delete answers: the hop of the route, and how many nodes were returned.
#[derive(Clone, Copy, PartialEq, Eq, Debug)]
pub struct Deleted {
    pub hop: u16,
    pub returned: usize,
}

/// How many routes there are, how many nodes they require, and how many are left.
#[derive(Clone, Copy, PartialEq, Eq, Debug)]
pub struct Counted {
    pub routes: usize,
    pub required: usize,
    pub free: usize,
}
