use address::ipv4::Ipv4;
use address::prefix::Prefix;
use anyhow::anyhow;
use faults::Refusal;
use reference::{Counted, Deleted, Failure, Inserted, Matched, Route, RouteList};
use std::fmt;

// an IPv4 address as four bytes
#[derive(Clone, Copy)]
pub(crate) struct Bytes(pub(crate) [u8; 4]);

// the first bits of an address: its four bytes, and how many bits
#[derive(Clone, Copy)]
pub(crate) struct Network(pub(crate) [u8; 4], pub(crate) u32);

// a route, or none
#[derive(Clone, Copy)]
pub(crate) struct Found(pub(crate) Option<Route<Ipv4>>);

// a list of routes for IPv4, and where its answers are printed
#[derive(Drop)]
pub(crate) struct Session<'a> {
    pub(crate) rt: &'a HostRuntime,
    pub(crate) list: RouteList<Ipv4>,
}

// a call on a list of routes; calls, answers and addresses are written here anew, by bytes, as the examples from outside have them
#[derive(Clone, Copy)]
pub(crate) enum Call {
    Open(&'static [u8]),
    Insert(Network, u16),
    Delete(Network),
    Lookup(Bytes),
    First,
    Next(Network),
    Counts,
}

// what is answered to a call that is not refused
#[derive(Clone, Copy)]
enum Answer {
    Opened,
    Inserted(Inserted),
    Deleted(Deleted),
    Matched(Matched<Ipv4>),
    Following(Found),
    Counted(Counted),
}

// what came of a call: its answer or its refusal
#[derive(Clone, Copy)]
pub(crate) struct Outcome(Result<Answer, Refusal>);

impl From<Ipv4> for Bytes {
    fn from(address: Ipv4) -> Bytes {
        Bytes(u32::from(address).to_be_bytes())
    }
}

impl From<Prefix<Ipv4>> for Network {
    fn from(prefix: Prefix<Ipv4>) -> Network {
        Network(Bytes::from(prefix.address).0, prefix.length)
    }
}

impl From<Bytes> for Ipv4 {
    fn from(bytes: Bytes) -> Ipv4 {
        Ipv4::from(u32::from_be_bytes(bytes.0))
    }
}

impl From<Network> for Prefix<Ipv4> {
    fn from(network: Network) -> Prefix<Ipv4> {
        Prefix {
            address: Ipv4::from(Bytes(network.0)),
            length: network.1,
        }
    }
}

impl fmt::Display for Bytes {
    fn fmt<W: fmt::Write>(&self, f: &mut fmt::Formatter<W>) -> fmt::Result {
        let [a, b, c, d] = self.0;
        write!(f, "{a}.{b}.{c}.{d}")
    }
}

impl fmt::Display for Network {
    fn fmt<W: fmt::Write>(&self, f: &mut fmt::Formatter<W>) -> fmt::Result {
        let bytes = Bytes(self.0);
        let length = self.1;
        write!(f, "{bytes}/{length}")
    }
}

impl fmt::Display for Found {
    fn fmt<W: fmt::Write>(&self, f: &mut fmt::Formatter<W>) -> fmt::Result {
        match self.0 {
            Some(Route { prefix, hop }) => {
                let network = Network::from(prefix);
                write!(f, "{network} by hop {hop}")
            }
            None => write!(f, "none"),
        }
    }
}

impl fmt::Display for Call {
    fn fmt<W: fmt::Write>(&self, f: &mut fmt::Formatter<W>) -> fmt::Result {
        match *self {
            Call::Open(strides) => write!(f, "open with {strides:?}"),
            Call::Insert(network, hop) => write!(f, "insert {network} by hop {hop}"),
            Call::Delete(network) => write!(f, "delete {network}"),
            Call::Lookup(bytes) => write!(f, "lookup {bytes}"),
            Call::First => write!(f, "first"),
            Call::Next(network) => write!(f, "next {network}"),
            Call::Counts => write!(f, "counts"),
        }
    }
}

impl fmt::Display for Answer {
    fn fmt<W: fmt::Write>(&self, f: &mut fmt::Formatter<W>) -> fmt::Result {
        match *self {
            Answer::Opened => write!(f, "opened"),
            Answer::Inserted(
                Inserted {
                    old: Some(hop),
                    taken,
                },
            ) => { write!(f, "hop {hop} replaced, nodes taken: {taken}") }
            Answer::Inserted(Inserted { old: None, taken }) => {
                write!(f, "new, nodes taken: {taken}")
            }
            Answer::Deleted(Deleted { hop, returned }) => {
                write!(f, "hop {hop}, nodes returned: {returned}")
            }
            Answer::Matched(Matched { route, path }) => {
                let found = Found(route);
                write!(f, "{found}, nodes on the path: {path}")
            }
            Answer::Following(found) => write!(f, "{found}"),
            Answer::Counted(
                Counted {
                    routes,
                    required,
                    free,
                },
            ) => {
                write!(
                    f,
                    "routes: {routes}, nodes required: {required}, free: {free}"
                )
            }
        }
    }
}

impl fmt::Display for Outcome {
    fn fmt<W: fmt::Write>(&self, f: &mut fmt::Formatter<W>) -> fmt::Result {
        match self.0 {
            Ok(answer) => write!(f, "{answer}"),
            Err(refusal) => {
                let number = refusal.number();
                write!(f, "refused {number}")
            }
        }
    }
}

impl<'a> Session<'a> {
    pub(crate) fn new(rt: &'a HostRuntime, nodes: usize) -> Session<'a> {
        Session {
            rt,
            list: RouteList::new(rt.alloc(), nodes),
        }
    }

    fn answer(&mut self, call: Call) -> Result<Answer, Failure> {
        let list = &mut self.list;
        Ok(match call {
            Call::Open(strides) => {
                list.open(strides)?;
                Answer::Opened
            }
            Call::Insert(network, hop) => Answer::Inserted(list.insert(network.into(), hop)?),
            Call::Delete(network) => Answer::Deleted(list.delete(network.into())?),
            Call::Lookup(bytes) => Answer::Matched(list.lookup(bytes.into())?),
            Call::First => Answer::Following(Found(list.first()?)),
            Call::Next(network) => Answer::Following(Found(list.next(network.into())?)),
            Call::Counts => Answer::Counted(list.counts()?),
        })
    }

    // Puts a call to the list; one that finds no memory ends the program.
    pub(crate) fn put(&mut self, call: Call) -> anyhow::Result<Outcome> {
        match self.answer(call) {
            Ok(answer) => Ok(Outcome(Ok(answer))),
            Err(Failure::Refused(fault)) => Ok(Outcome(Err(fault.refusal))),
            Err(Failure::NoMemory) => Err(anyhow!("no memory")),
        }
    }

    // Puts each call to the list, and prints it with its outcome.
    pub(crate) fn put_all(&mut self, calls: &[Call]) -> anyhow::Result<()> {
        for call in calls {
            let outcome = self.put(*call)?;
            println!(self.rt; "  {call}: {outcome}")?;
        }
        Ok(())
    }
}
