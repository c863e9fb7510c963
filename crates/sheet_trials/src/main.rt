//! Sheets beside a reader and a writer of the test's own, which share no code with them: many random ones, for both address kinds and several
//! plans, whole and damaged in each way that the format can tell. Both readers must agree in every field, or in the refusal, its layer and its
//! place; what reads must come out the same when it is written again.
#![tactic(auto)]

mod compare;
mod damage;
mod figures;
mod making;
mod message;
mod reader;
mod tally;
mod trial;

use address::ipv4::Ipv4;
use address::ipv6::Ipv6;
use anyhow::Context;
use plan::Plan;
use tally::Tally;
use trial::{Trial, play};
use trials::dice::Dice;
use trials::numbers::Numbered;

// Few strides and as many as can be.
const IPV4: [&[u8]; 2] = [
    &[3, 6, 6, 6, 6, 6],
    &[
        2, 1, 1, 1, 1, 1, 1, 1, 1, 1, 1, 1, 1, 1, 1, 1, 1, 1, 1, 1, 1, 1, 1, 1, 1, 1, 1, 1, 1, 1,
        1, 1,
    ],
];

const IPV6: [&[u8]; 2] = [
    &[
        3, 6, 6, 6, 6, 6, 6, 6, 6, 6, 6, 6, 6, 6, 6, 6, 6, 6, 6, 6, 6, 6,
    ],
    &[
        5, 4, 4, 4, 4, 4, 4, 4, 4, 4, 4, 4, 4, 4, 4, 4, 4, 4, 4, 4, 4, 4, 4, 4, 4, 4, 4, 4, 4, 4,
        4, 4,
    ],
];

// Many small sheets, some larger, and some whose count of routes takes two bytes.
const TRIALS: [Trial; 3] = [
    Trial {
        sheets: 300,
        least: 0,
        most: 12,
        rounds: 12,
    },
    Trial {
        sheets: 20,
        least: 20,
        most: 80,
        rounds: 12,
    },
    Trial {
        sheets: 2,
        least: 400,
        most: 500,
        rounds: 12,
    },
];

// The dice start anew for each plan.
fn show<A: Numbered>(rt: &HostRuntime, kind: &'static str, plans: &[&[u8]]) -> anyhow::Result<()> {
    let mut tally = Tally::new();
    for (start, strides) in (1u64..).zip(plans.iter()) {
        let plan = Plan::<A>::new(*strides)?;
        let mut dice = Dice::new(start);
        for trial in TRIALS {
            play(rt.alloc(), &plan, &mut dice, &trial, &mut tally).context(format_args!(
                "{kind}, plan {start}"
            ))?;
        }
    }
    println!(rt; "{kind}: {tally}")?;
    Ok(())
}

fn run(rt: &HostRuntime) -> anyhow::Result<()> {
    figures::check(rt.alloc()).context("the worked sheet")?;
    println!(rt; "the worked sheet is written and read")?;
    show::<Ipv4>(rt, "ipv4", &IPV4)?;
    show::<Ipv6>(rt, "ipv6", &IPV6)
}

fn main(rt: HostRuntime) -> anyhow::Result<()> {
    run(&rt)
}
