//! The calls of a route engine as values, and what a table and the plain list answer to one.
use descent::Held;
use faults::Fault;
use nodes::NodeWrite;
use reference::{Failure, RouteList};
use std::fmt;
use table::Table;
use trials::lines::{Line, Network};
use trials::numbers::Numbered;
use trials::tally::{hop_number, route_number, sum_with};

#[derive(Drop)]
pub(crate) enum Call {
    Open(Vec<u8>),
    Insert(Network, u16),
    Delete(Network),
    Lookup(u128),
    Exact(Network),
    First,
    Next(Network),
    Counts,
}

// What is answered to a call that is granted.
#[derive(Clone, Copy, PartialEq, Eq)]
pub(crate) enum Answer {
    Opened,
    Inserted {
        old: Option<u16>,
        taken: usize,
    },
    Deleted {
        hop: u16,
        returned: usize,
    },
    Matched {
        route: Option<Line>,
        path: usize,
    },
    Hop(Option<u16>),
    Route(Option<Line>),
    Counted {
        routes: usize,
        required: usize,
        free: usize,
    },
}

// The names of the calls, in the order of their numbers.
pub(crate) const NAMES: [&str; 8] = [
    "open", "insert", "delete", "lookup", "exact", "first", "next", "counts",
];

impl fmt::Display for Call {
    fn fmt<W: fmt::Write>(&self, f: &mut fmt::Formatter<W>) -> fmt::Result {
        match self {
            Call::Open(strides) => {
                write!(f, "open")?;
                for stride in strides.iter() {
                    write!(f, " {stride}")?;
                }
                Ok(())
            }
            Call::Insert(network, hop) => {
                let Network { value, length } = *network;
                write!(f, "insert {value}/{length} {hop}")
            }
            Call::Delete(network) => {
                let Network { value, length } = *network;
                write!(f, "delete {value}/{length}")
            }
            Call::Lookup(value) => write!(f, "lookup {value}"),
            Call::Exact(network) => {
                let Network { value, length } = *network;
                write!(f, "exact {value}/{length}")
            }
            Call::First => write!(f, "first"),
            Call::Next(network) => {
                let Network { value, length } = *network;
                write!(f, "next {value}/{length}")
            }
            Call::Counts => write!(f, "counts"),
        }
    }
}

impl Call {
    // Its number, by which it is counted.
    pub(crate) fn number(&self) -> usize {
        match self {
            Call::Open(_) => 0,
            Call::Insert(..) => 1,
            Call::Delete(_) => 2,
            Call::Lookup(_) => 3,
            Call::Exact(_) => 4,
            Call::First => 5,
            Call::Next(_) => 6,
            Call::Counts => 7,
        }
    }
}

impl Answer {
    // As a number, so that a sum can be taken over all.
    pub(crate) fn number(self) -> u64 {
        match self {
            Answer::Opened => 100,
            Answer::Inserted { old, taken } => sum_with(hop_number(old), taken as u64),
            Answer::Deleted { hop, returned } => sum_with(u64::from(hop), returned as u64),
            Answer::Matched { route, path } => sum_with(route_number(route), path as u64),
            Answer::Hop(hop) => hop_number(hop),
            Answer::Route(route) => route_number(route),
            Answer::Counted {
                routes,
                required,
                free,
            } => sum_with(sum_with(routes as u64, required as u64), free as u64),
        }
    }
}

fn line<A: Numbered>(held: Held<A>) -> Line {
    Line {
        network: Network::from(held.prefix.prefix),
        hop: held.hop,
    }
}

// What the plain list answers.
pub(crate) fn of_list<A: Numbered>(
    list: &mut RouteList<A>,
    call: &Call,
) -> Result<Answer, Failure> {
    Ok(match call {
        Call::Open(strides) => {
            list.open(strides.as_slice())?;
            Answer::Opened
        }
        Call::Insert(network, hop) => {
            let inserted = list.insert(network.prefix(), *hop)?;
            Answer::Inserted {
                old: inserted.old,
                taken: inserted.taken,
            }
        }
        Call::Delete(network) => {
            let deleted = list.delete(network.prefix())?;
            Answer::Deleted {
                hop: deleted.hop,
                returned: deleted.returned,
            }
        }
        Call::Lookup(value) => {
            let matched = list.lookup(A::from_value(*value))?;
            Answer::Matched {
                route: matched.route.map(Line::from),
                path: matched.path,
            }
        }
        Call::Exact(network) => Answer::Hop(list.exact(network.prefix())?),
        Call::First => Answer::Route(list.first()?.map(Line::from)),
        Call::Next(network) => Answer::Route(list.next(network.prefix())?.map(Line::from)),
        Call::Counts => {
            let counted = list.counts()?;
            Answer::Counted {
                routes: counted.routes,
                required: counted.required,
                free: counted.free,
            }
        }
    })
}

// What a table answers.
pub(crate) fn of_table<A: Numbered, M: NodeWrite>(
    table: &mut Table<A, M>,
    call: &Call,
) -> Result<Answer, Fault> {
    Ok(match call {
        Call::Open(strides) => {
            table.open(strides.as_slice())?;
            Answer::Opened
        }
        Call::Insert(network, hop) => {
            let inserted = table.insert(network.prefix(), *hop)?;
            Answer::Inserted {
                old: inserted.old,
                taken: inserted.taken,
            }
        }
        Call::Delete(network) => {
            let deleted = table.delete(network.prefix())?;
            Answer::Deleted {
                hop: deleted.hop,
                returned: deleted.returned,
            }
        }
        Call::Lookup(value) => {
            let matched = table.lookup(A::from_value(*value))?;
            Answer::Matched {
                route: matched.found.map(line),
                path: matched.visits,
            }
        }
        Call::Exact(network) => Answer::Hop(table.exact(network.prefix())?),
        Call::First => Answer::Route(table.first()?.map(line)),
        Call::Next(network) => Answer::Route(table.next(network.prefix())?.map(line)),
        Call::Counts => {
            let counted = table.counts()?;
            Answer::Counted {
                routes: counted.routes,
                required: counted.required,
                free: counted.free,
            }
        }
    })
}
