//! The calls that only read a tree as values, and what is answered to one.
use crate::random::{address, network, one_of};
use arrayvec::ArrayVec;
use descent::{Held, Trail, exact, first, lookup, next, trail_to};
use faults::Fault;
use nodes::NodeRead;
use plan::Plan;
use routes::SoundPrefix;
use std::fmt;
use trials::dice::Dice;
use trials::lines::{Line, Network};
use trials::numbers::Numbered;
use trials::tally::{hop_number, route_number, sum_with};

#[derive(Clone, Copy)]
pub(crate) enum Call {
    Lookup(u128),
    Exact(Network),
    First,
    Next(Network),
    Trail(Network),
}

// The nodes and child indexes on the way to a prefix, its position in its node, and its hop.
#[derive(PartialEq, Eq, Drop)]
pub(crate) struct Way {
    pub nodes: ArrayVec<u32, 32>,
    pub indexes: ArrayVec<u8, 32>,
    pub position: u8,
    pub hop: Option<u16>,
}

#[derive(PartialEq, Eq, Drop)]
pub(crate) enum Answer {
    Matched { route: Option<Line>, visits: usize },
    Hop(Option<u16>),
    Route(Option<Line>),
    Way(Way),
}

impl fmt::Display for Call {
    fn fmt<W: fmt::Write>(&self, f: &mut fmt::Formatter<W>) -> fmt::Result {
        let (name, Network { value, length }) = match *self {
            Call::Lookup(value) => return write!(f, "lookup {value}"),
            Call::First => return write!(f, "first"),
            Call::Exact(network) => ("exact", network),
            Call::Next(network) => ("next", network),
            Call::Trail(network) => ("trail", network),
        };
        write!(f, "{name} {value}/{length}")
    }
}

impl Call {
    // A random call, often of a prefix that is held.
    pub(crate) fn random(dice: &mut Dice, width: u32, lines: &[Line]) -> Call {
        let rolled = dice.roll(6);
        let address = address(dice, width, lines);
        let mut network = network(dice, width, lines);
        if dice.roll(3) == 0 {
            network = one_of(dice, lines).map_or(network, |line| line.network);
        }
        match rolled {
            0..=2 => Call::Lookup(address),
            3 => Call::Exact(network),
            4 => Call::Next(network),
            _ => Call::Trail(network),
        }
    }
}

impl Answer {
    // Whether it has a route or a hop.
    pub(crate) fn has_route(&self) -> bool {
        match self {
            Answer::Matched { route, .. } | Answer::Route(route) => route.is_some(),
            Answer::Hop(hop) => hop.is_some(),
            Answer::Way(way) => way.hop.is_some(),
        }
    }

    // The route, if it has one.
    pub(crate) fn route(&self) -> Option<Line> {
        match self {
            Answer::Matched { route, .. } | Answer::Route(route) => *route,
            Answer::Hop(_) | Answer::Way(_) => None,
        }
    }

    // As a number, so that a sum can be taken over all.
    pub(crate) fn number(&self) -> u64 {
        match self {
            Answer::Matched { route, visits } => sum_with(route_number(*route), *visits as u64),
            Answer::Hop(hop) => hop_number(*hop),
            Answer::Route(route) => route_number(*route),
            Answer::Way(way) => way.number(),
        }
    }
}

impl Way {
    fn number(&self) -> u64 {
        let last = sum_with(u64::from(self.position), hop_number(self.hop));
        let sum = self
            .nodes
            .iter()
            .fold(last, |sum, node| sum_with(sum, u64::from(*node)));
        self.indexes
            .iter()
            .fold(sum, |sum, index| sum_with(sum, u64::from(*index)))
    }
}

fn line<A: Numbered>(held: Held<A>) -> Line {
    Line {
        network: Network::from(held.prefix.prefix),
        hop: held.hop,
    }
}

// What a tree in a memory answers.
pub(crate) fn of_memory<A: Numbered, M: NodeRead>(
    memory: &mut M,
    plan: &Plan<A>,
    call: Call,
) -> Result<Answer, Fault> {
    Ok(match call {
        Call::Lookup(value) => {
            let matched = lookup(memory, plan, A::from_value(value))?;
            Answer::Matched {
                route: matched.found.map(line),
                visits: matched.visits,
            }
        }
        Call::Exact(network) => {
            Answer::Hop(exact(memory, plan, SoundPrefix::new(network.prefix())?)?)
        }
        Call::First => Answer::Route(first(memory, plan)?.map(line)),
        Call::Next(network) => {
            Answer::Route(next(memory, plan, SoundPrefix::new(network.prefix())?)?.map(line))
        }
        Call::Trail(network) => {
            let mut trail = Trail::new();
            trail_to(
                memory,
                plan,
                SoundPrefix::new(network.prefix())?,
                &mut trail,
            )?;
            Answer::Way(Way {
                nodes: trail.nodes,
                indexes: trail.indexes,
                position: trail.position,
                hop: trail.hop,
            })
        }
    })
}
