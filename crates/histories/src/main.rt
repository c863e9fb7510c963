//! Long random histories of calls, put to the sorted list of routes and to a scan of an unsorted one; the answers are compared call by call,
//! numbers of nodes included.
//! The stored output, with a sum over all answers, comes from a third implementation.
#![tactic(auto)]

mod calls;
mod scan;
mod sides;

use address::ipv4::Ipv4;
use address::ipv6::Ipv6;
use sides::play;
use trials::History;
use trials::numbers::Numbered;

// Few nodes, so that inserts are often refused for want of them; enough for most; none.
const IPV4: [History; 3] = [
    History {
        start: 1,
        nodes: 5,
        calls: 8_000,
    },
    History {
        start: 2,
        nodes: 40,
        calls: 8_000,
    },
    History {
        start: 3,
        nodes: 0,
        calls: 2_000,
    },
];

const IPV6: [History; 2] = [
    History {
        start: 6,
        nodes: 40,
        calls: 5_000,
    },
    History {
        start: 5,
        nodes: 300,
        calls: 5_000,
    },
];

fn show_all<A: Numbered>(
    rt: &HostRuntime,
    kind: &str,
    histories: &[History],
) -> anyhow::Result<()> {
    for history in histories {
        let tally = play::<A>(rt.alloc(), *history)?;
        let nodes = history.nodes;
        println!(rt; "{kind}, {nodes} nodes: {tally}")?;
    }
    Ok(())
}

fn run(rt: &HostRuntime) -> anyhow::Result<()> {
    show_all::<Ipv4>(rt, "ipv4", &IPV4)?;
    show_all::<Ipv6>(rt, "ipv6", &IPV6)
}

fn main(rt: HostRuntime) -> anyhow::Result<()> {
    run(&rt)
}
