//! Random trees, each laid out by the test's own means in a memory of records and in one of words. What only reads a tree is asked of both and
//! of the plain list of the routes; then fields are damaged, and it is asked of both again.
//! The stored output, with a sum over all answers, comes from another implementation of the same rules.
#![tactic(auto)]

mod calls;
mod damage;
mod layout;
mod pair;
mod plain;
mod random;
mod tally;
mod tree;
mod trial;

use address::ipv4::Ipv4;
use address::ipv6::Ipv6;
use anyhow::Context;
use trial::{Size, Trial, play};
use trials::numbers::Numbered;

// As few strides as there can be; a last stride of 3; strides of 1 before those of 6; a last stride of 1, where only a prefix of all bits
// lies; strides of every size; 32 strides.
const IPV4: [&[u8]; 6] = [
    &[3, 6, 6, 6, 6, 6],
    &[6, 6, 6, 6, 6, 3],
    &[1, 1, 1, 6, 6, 6, 6, 6],
    &[6, 6, 6, 6, 6, 2, 1],
    &[6, 5, 4, 3, 2, 1, 2, 4, 6],
    &[
        1, 1, 1, 1, 1, 1, 1, 1, 1, 1, 1, 1, 1, 1, 1, 1, 2, 1, 1, 1, 1, 1, 1, 1, 1, 1, 1, 1, 1, 1,
        1, 1,
    ],
];

// The same, but for strides of every size.
const IPV6: [&[u8]; 4] = [
    &[
        3, 6, 6, 6, 6, 6, 6, 6, 6, 6, 6, 6, 6, 6, 6, 6, 6, 6, 6, 6, 6, 6,
    ],
    &[
        6, 6, 6, 6, 6, 6, 6, 6, 6, 6, 6, 6, 6, 6, 6, 6, 6, 6, 6, 6, 6, 3,
    ],
    &[
        1, 6, 1, 6, 6, 1, 6, 6, 1, 6, 1, 6, 6, 1, 6, 6, 1, 6, 1, 6, 6, 1, 6, 6, 1, 6, 1, 6, 6, 3,
        6, 1,
    ],
    &[
        4, 4, 4, 4, 4, 4, 4, 4, 4, 4, 4, 4, 4, 4, 4, 4, 4, 4, 4, 4, 4, 4, 4, 4, 4, 4, 4, 4, 4, 4,
        4, 5,
    ],
];

// A root alone, too few nodes, and enough for most.
const SIZES: [Size; 4] = [
    Size {
        nodes: 1,
        routes: 20,
        trees: 3,
    },
    Size {
        nodes: 12,
        routes: 30,
        trees: 6,
    },
    Size {
        nodes: 120,
        routes: 60,
        trees: 5,
    },
    Size {
        nodes: 600,
        routes: 200,
        trees: 3,
    },
];

fn show_all<A: Numbered>(
    rt: &HostRuntime,
    kind: &'static str,
    plans: &[&'static [u8]],
) -> anyhow::Result<()> {
    let mut seed: u64 = 0;
    for strides in plans.iter().copied() {
        for size in SIZES {
            seed = seed.wrapping_add(100);
            let trial = Trial {
                strides,
                size,
                seed,
            };
            let tally = play::<A>(rt.alloc(), &trial).context(kind)?;
            println!(rt; "{kind}, {trial}: {tally}")?;
        }
    }
    Ok(())
}

fn run(rt: &HostRuntime) -> anyhow::Result<()> {
    show_all::<Ipv4>(rt, "ipv4", &IPV4)?;
    show_all::<Ipv6>(rt, "ipv6", &IPV6)
}

fn main(rt: HostRuntime) -> anyhow::Result<()> {
    run(&rt)
}
