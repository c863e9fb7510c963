//! The second engine: a sorted list of routes, plain rather than fast. It is what the tree of nodes is compared with.
#![tactic(auto)]

ghost use Rattle.std.specs.Prelude.{◌≡◌, ◌≤◌};
ghost use Rattle.std.specs.Option.{option_map};
ghost use Rattle.plan.specs.Strides.{strides_of};
ghost use Rattle.routes.specs.InOrder.{InOrder, InOrder-prop};
ghost use Rattle.reference.specs.Required.{required_by};

use address::Address;
use plan::Plan;
use routes::set::RouteSet;

pub mod calls;
mod required;
mod sheet_calls;

pub use routes::Route;
pub use routes::failure::Failure;

/// A list of routes for a memory of so many nodes, of which the routes require so many: shut while it has no plan.
#[derive(Drop)]
pub struct RouteList<A: Address> {
    nodes: usize,
    required: usize,
    plan: Option<Plan<A>>,
    routes: RouteSet<A>,
    pub ghost ordered: { InOrder A.Address.WIDTH routes.routes } by { InOrder-prop A.Address.WIDTH routes.routes },
    pub ghost enough: { required ≤ nodes },
    pub ghost counted: { required ≡ required_by (option_map strides_of plan) routes.routes },
}

/// What an insert answers: the hop that was replaced, if any, and how many nodes are newly required.
#[derive(Clone, Copy, PartialEq, Eq, Debug)]
pub struct Inserted {
    pub old: Option<u16>,
    pub taken: usize,
}

/// What a delete answers: the hop of the route, and how many nodes are no longer required.
#[derive(Clone, Copy, PartialEq, Eq, Debug)]
pub struct Deleted {
    pub hop: u16,
    pub returned: usize,
}

/// What a lookup answers: the longest matching route, if any, and how many of the required nodes lie on the way of the address.
#[derive(Clone, Copy)]
pub struct Matched<A: Address> {
    pub route: Option<Route<A>>,
    pub path: usize,
}

/// How many routes there are, how many nodes they require, and how many are left.
#[derive(Clone, Copy, PartialEq, Eq, Debug)]
pub struct Counted {
    pub routes: usize,
    pub required: usize,
    pub free: usize,
}
