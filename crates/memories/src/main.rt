//! Two memories of nodes, one of records and one of words, side by side: a node drawn by hand, word for word, and random readings and
//! writes. The stored output comes from another implementation of the same rules.
#![tactic(auto)]

mod calls;
mod drawn;
mod random;

fn run(rt: &HostRuntime) -> anyhow::Result<()> {
    drawn::show(rt)?;
    random::show(rt)
}

fn main(rt: HostRuntime) -> anyhow::Result<()> {
    run(&rt)
}
