//! Examples from outside, put to the second engine: the worked figures of its calls, the aggregation of RFC 4632 and the encoded prefixes
//! of RFC 4271. It prints a line for each call. The stored output comes from another implementation of the same rules.
#![tactic(auto)]

mod aggregation;
mod calls;
mod encoding;
mod figures;

fn run(rt: &HostRuntime) -> anyhow::Result<()> {
    figures::show(rt)?;
    aggregation::show(rt)?;
    encoding::show(rt)
}

fn main(rt: HostRuntime) -> anyhow::Result<()> {
    run(&rt)
}
