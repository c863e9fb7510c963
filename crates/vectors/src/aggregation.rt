//! Aggregation and the longest match, on the networks of the example in RFC 4632: provider A has 10.24.0.0/13 and serves the sites C1 to C6
//! out of it, provider B has 10.32.0.0/13 and serves C7. Seen from a third network, whose hop 1 leads to A and hop 2 to B.
use crate::calls::{Bytes, Call, Network, Session};

const A: u16 = 1;

const B: u16 = 2;

// the prefixes that are announced on their own at some time
const C1: Network = Network([10, 24, 0, 0], 21);

const C4: Network = Network([10, 24, 12, 0], 22);

const C5: Network = Network([10, 24, 32, 0], 23);

const C7: Network = Network([10, 32, 0, 0], 20);

// An address of each site, at the edge of its prefix, the last of B's block, and the one behind that.
const SITES: [(&str, Bytes); 9] = [
    ("C1", Bytes([10, 24, 7, 255])),
    ("C2", Bytes([10, 24, 16, 0])),
    ("C3", Bytes([10, 24, 8, 0])),
    ("C4", Bytes([10, 24, 15, 255])),
    ("C5", Bytes([10, 24, 33, 255])),
    ("C6", Bytes([10, 24, 34, 0])),
    ("C7", Bytes([10, 32, 15, 255])),
    ("B itself", Bytes([10, 39, 255, 255])),
    ("nobody", Bytes([10, 40, 0, 0])),
];

// a stage: its name, and the changes that make it
struct Stage(&'static str, &'static [Call]);

// What the third network hears, stage by stage: the two blocks; C4 and C5, which are reached through B too, announced by B beside its block;
// C1, which moves from A to B, and C7, which moves from B to A, each with its addresses; and at last C4 by A again, and C1 and C7 withdrawn,
// so that what is sent to them follows the blocks as before.
const STAGES: [Stage; 4] = [
    Stage(
        "two blocks",
        &[
            Call::Insert(Network([10, 24, 0, 0], 13), A),
            Call::Insert(Network([10, 32, 0, 0], 13), B),
        ],
    ),
    Stage(
        "sites with two uplinks",
        &[Call::Insert(C4, B), Call::Insert(C5, B)],
    ),
    Stage(
        "sites that move",
        &[Call::Insert(C1, B), Call::Insert(C7, A)],
    ),
    Stage(
        "withdrawals",
        &[Call::Insert(C4, A), Call::Delete(C1), Call::Delete(C7)],
    ),
];

fn look_up_all(session: &mut Session<'_>) -> anyhow::Result<()> {
    for (site, bytes) in &SITES {
        let outcome = session.put(Call::Lookup(*bytes))?;
        println!(session.rt; "  {site} at {bytes}: {outcome}")?;
    }
    Ok(())
}

pub(crate) fn show(rt: &HostRuntime) -> anyhow::Result<()> {
    println!(rt; "aggregation")?;
    let mut session = Session::new(rt, 16);
    session.put_all(&[Call::Open(&[3, 6, 6, 6, 6, 6])])?;
    for Stage(name, changes) in &STAGES {
        println!(rt; "{name}")?;
        session.put_all(*changes)?;
        look_up_all(&mut session)?;
    }
    session.put_all(&[Call::Counts])
}
