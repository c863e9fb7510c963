//! The worked figures of the calls, IPv4 with the plan 3,6,6,6,6,6.
use crate::calls::{Bytes, Call, Network, Session};

// strides that are no plan for 32 bits: they sum to 32, there is a 0, there is a 7, there are none
const NO_PLANS: [&[u8]; 4] = [
    &[2, 6, 6, 6, 6, 6],
    &[3, 6, 6, 6, 6, 6, 0],
    &[7, 6, 6, 6, 6, 2],
    &[],
];

const PLANS: [&[u8]; 2] = [&[4, 6, 6, 6, 5, 6], &[3, 6, 6, 6, 6, 6]];

const SITE: Network = Network([192, 0, 2, 0], 24);

const EVERYTHING: Network = Network([0, 0, 0, 0], 0);

// With 4 nodes there are too few for a prefix of 24 bits: the root and one at each of the offsets 3, 9, 15 and 21.
const FOUR_NODES: [Call; 6] = [
    Call::Insert(SITE, 7),
    Call::Counts,
    Call::Insert(Network([192, 0, 0, 0], 20), 7),
    Call::Counts,
    Call::Insert(SITE, 7),
    Call::Lookup(Bytes([192, 0, 2, 5])),
];

// With 5 nodes there are just enough.
const FIVE_NODES: [Call; 23] = [
    Call::Counts,
    Call::Insert(SITE, 7),
    Call::Insert(EVERYTHING, 1),
    Call::Insert(Network([192, 0, 2, 0], 27), 3),
    Call::Counts,
    Call::Lookup(Bytes([192, 0, 2, 5])),
    Call::Lookup(Bytes([10, 0, 0, 1])),
    Call::Lookup(Bytes([192, 0, 3, 1])),
    Call::First,
    Call::Next(EVERYTHING),
    Call::Next(SITE),
    Call::Next(Network([128, 0, 0, 0], 1)),
    Call::Insert(Network([192, 0, 2, 64], 25), 7),
    Call::Insert(Network([192, 0, 2, 0], 33), 4096),
    Call::Insert(Network([192, 0, 2, 64], 25), 4096),
    Call::Insert(Network([192, 0, 2, 0], 27), 4096),
    Call::Insert(SITE, 4095),
    Call::Insert(SITE, 7),
    Call::Delete(SITE),
    Call::Delete(SITE),
    Call::Counts,
    Call::Delete(EVERYTHING),
    Call::Counts,
];

// Between two offsets a longer prefix takes no node.
const BETWEEN_OFFSETS: [Call; 6] = [
    Call::Insert(SITE, 7),
    Call::Insert(Network([192, 0, 2, 0], 26), 3),
    Call::Insert(Network([192, 0, 3, 0], 24), 4),
    Call::Delete(SITE),
    Call::Delete(Network([192, 0, 3, 0], 24)),
    Call::Delete(Network([192, 0, 2, 0], 26)),
];

// Before the first opening, and where opening was refused, every call is refused.
const WHILE_SHUT: [Call; 6] = [
    Call::Insert(Network([192, 0, 2, 0], 33), 4096),
    Call::Delete(SITE),
    Call::Lookup(Bytes([192, 0, 2, 5])),
    Call::First,
    Call::Next(SITE),
    Call::Counts,
];

// After an opening there are no routes, and nodes are counted by the new plan: 21 is an offset of one of the two plans alone.
const AFTER_OPENING: [Call; 3] = [
    Call::Counts,
    Call::Insert(Network([192, 0, 0, 0], 21), 7),
    Call::Counts,
];

// Opens with each of some strides, and puts the same calls to the list then.
fn open_with_each(
    session: &mut Session<'_>,
    plans: &[&'static [u8]],
    calls: &[Call],
) -> anyhow::Result<()> {
    for strides in plans {
        session.put_all(&[Call::Open(*strides)])?;
        session.put_all(calls)?;
    }
    Ok(())
}

fn plans(rt: &HostRuntime) -> anyhow::Result<()> {
    println!(rt; "plans")?;
    let mut session = Session::new(rt, 5);
    open_with_each(&mut session, &NO_PLANS, &WHILE_SHUT)?;
    open_with_each(&mut session, &PLANS, &AFTER_OPENING)?;
    open_with_each(&mut session, &NO_PLANS, &[Call::Counts])
}

fn with_nodes(rt: &HostRuntime, nodes: usize, calls: &[Call]) -> anyhow::Result<()> {
    println!(rt; "{nodes} nodes")?;
    let mut session = Session::new(rt, nodes);
    session.put_all(&[Call::Open(&[3, 6, 6, 6, 6, 6])])?;
    session.put_all(calls)
}

pub(crate) fn show(rt: &HostRuntime) -> anyhow::Result<()> {
    plans(rt)?;
    with_nodes(rt, 0, &[])?;
    with_nodes(rt, 4, &FOUR_NODES)?;
    with_nodes(rt, 5, &FIVE_NODES)?;
    with_nodes(rt, 5, &BETWEEN_OFFSETS)
}
