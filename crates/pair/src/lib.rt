//! A table beside the plain list of routes: every call is put to both, and what they answer is compared.
#![tactic(auto)]

use address::Address;
use nodes::NodeWrite;
use reference::RouteList;
use table::Table;

mod alike;
mod calls;
mod compared;
mod failed;

pub use failed::Failed;

/// A table over a memory, and a plain list for as many nodes. Whoever puts a call to one of them alone makes them differ.
#[derive(Drop)]
pub struct Pair<A: Address, M: NodeWrite> {
    pub list: RouteList<A>,
    pub table: Table<A, M>,
}
