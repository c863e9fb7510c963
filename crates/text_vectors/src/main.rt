//! Reads addresses and prefixes from standard input, one on a line after its kind (4, 6, 4/ or 6/), and writes what each reads as.
//! The stored input has the examples of the canonical rules and many random texts; the stored output comes from another implementation.
#![tactic(auto)]

use address::ipv4::Ipv4;
use address::ipv6::Ipv6;
use anyhow::anyhow;
use std::alloc::{AllocError, Global};
use std::io::{BufRead, BufReader};
use text::prefix::{prefix_text, read_prefix};
use text::{AddressText, Unreadable};

// why nothing is written again: reading stopped, at a place if that is told, or there was no memory
#[derive(Clone, Copy)]
enum Stop {
    Unreadable(Option<usize>),
    NoMemory(AllocError),
}

impl Stop {
    // The same, but not where; the place in an IPv6 text is not pinned.
    fn somewhere(self) -> Stop {
        match self {
            Stop::Unreadable(_) => Stop::Unreadable(None),
            Stop::NoMemory(e) => Stop::NoMemory(e),
        }
    }
}

impl From<Unreadable> for Stop {
    fn from(stop: Unreadable) -> Stop {
        Stop::Unreadable(Some(stop.place))
    }
}

impl From<AllocError> for Stop {
    fn from(e: AllocError) -> Stop {
        Stop::NoMemory(e)
    }
}

fn address<A: AddressText>(heap: Global, text: &[u8]) -> Result<String, Stop> {
    Ok(A::read(text)?.text(heap)?)
}

fn prefix<A: AddressText>(heap: Global, text: &[u8]) -> Result<String, Stop> {
    Ok(prefix_text(&read_prefix::<A>(text)?, heap)?)
}

fn tell(rt: &HostRuntime, line: &[u8]) -> anyhow::Result<()> {
    let heap = rt.alloc();
    let read = match line {
        [b'4', b'/', b' ', text @ ..] => prefix::<Ipv4>(heap, text),
        [b'6', b'/', b' ', text @ ..] => prefix::<Ipv6>(heap, text).map_err(Stop::somewhere),
        [b'4', b' ', text @ ..] => address::<Ipv4>(heap, text),
        [b'6', b' ', text @ ..] => address::<Ipv6>(heap, text).map_err(Stop::somewhere),
        _ => return Err(anyhow!("a line with no kind")),
    };
    match read {
        Ok(text) => println!(rt; "{text}")?,
        Err(Stop::Unreadable(Some(place))) => println!(rt; "unreadable at {place}")?,
        Err(Stop::Unreadable(None)) => println!(rt; "unreadable")?,
        Err(Stop::NoMemory(e)) => return Err(e.into()),
    }
    Ok(())
}

fn run(rt: &HostRuntime) -> anyhow::Result<()> {
    for line in BufReader::new(rt.alloc(), rt.stdin())?.split(rt.alloc(), b'\n') {
        tell(rt, line?.as_slice())?;
    }
    Ok(())
}

fn main(rt: HostRuntime) -> anyhow::Result<()> {
    run(&rt)
}
