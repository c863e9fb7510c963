//! Long random histories of calls, with any arguments, put to a table over records, to one over words and to the plain list; the answers are
//! compared call by call, refusals and numbers of nodes included, and so are the fronts of the chains. The memories hold random fields before, or
//! what another history left. Every so often, and at each history's end, every field of both is compared with what the routes, the plan and the
//! rules for nodes say that it holds.
#![tactic(auto)]

mod calls;
mod compare;
mod image;
mod lent;
mod listed;
mod placement;
mod random;
mod sides;
mod tally;
mod trial;

use address::ipv4::Ipv4;
use address::ipv6::Ipv6;
use anyhow::Context;
use trial::{Trial, play};
use trials::History;
use trials::numbers::Numbered;

// No nodes, a root alone, few nodes, and enough for some or for all.
const TRIALS: [Trial; 6] = [
    Trial {
        first: History {
            start: 100,
            nodes: 0,
            calls: 400,
        },
        memories: 1,
        every: 1,
    },
    Trial {
        first: History {
            start: 200,
            nodes: 1,
            calls: 500,
        },
        memories: 3,
        every: 1,
    },
    Trial {
        first: History {
            start: 300,
            nodes: 2,
            calls: 500,
        },
        memories: 3,
        every: 1,
    },
    Trial {
        first: History {
            start: 400,
            nodes: 5,
            calls: 500,
        },
        memories: 4,
        every: 1,
    },
    Trial {
        first: History {
            start: 500,
            nodes: 180,
            calls: 500,
        },
        memories: 4,
        every: 1,
    },
    Trial {
        first: History {
            start: 600,
            nodes: 5_000,
            calls: 1_500,
        },
        memories: 1,
        every: 4,
    },
];

fn show_all<A: Numbered>(rt: &HostRuntime, kind: &'static str) -> anyhow::Result<()> {
    for trial in TRIALS {
        let nodes = trial.first.nodes;
        let tally = play::<A>(rt.alloc(), &trial).context(format_args!("{kind}, {nodes} nodes"))?;
        println!(rt; "{kind}, {nodes} nodes: {tally}")?;
    }
    Ok(())
}

fn run(rt: &HostRuntime) -> anyhow::Result<()> {
    show_all::<Ipv4>(rt, "ipv4")?;
    show_all::<Ipv6>(rt, "ipv6")
}

fn main(rt: HostRuntime) -> anyhow::Result<()> {
    run(&rt)
}
