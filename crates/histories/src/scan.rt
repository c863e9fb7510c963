use crate::calls::{Answer, Call};
use faults::{Fault, Refusal};
use reference::Failure;
use std::alloc::{AllocError, Global};
use std::collections::BTreeSet;
use trials::lines::{Line, Lines, Network, is_plan};

// an opened scan: the offsets of its plan, and routes in no order
#[derive(Drop)]
struct Opened {
    heap: Global,
    nodes: usize,
    offsets: Vec<u32>,
    routes: Lines,
}

// a scan for addresses of so many bits and a memory of so many nodes
#[derive(Drop)]
pub(crate) struct Scan {
    heap: Global,
    pub(crate) width: u32,
    nodes: usize,
    opened: Option<Opened>,
}

impl Opened {
    // The nodes that the routes require, from scratch: each by the bits that lead to it. The root is always there.
    fn required(&self) -> Result<BTreeSet<Network>, AllocError> {
        let mut nodes = BTreeSet::new(self.heap);
        nodes.insert(Network {
            value: 0,
            length: 0,
        })?;
        for line in self.routes.lines.iter() {
            let Network { value, length } = line.network;
            for offset in self
                .offsets
                .iter()
                .copied()
                .filter(|offset| *offset <= length)
            {
                nodes.insert(Network::cut(self.routes.width, value, offset))?;
            }
        }
        Ok(nodes)
    }

    // Puts a route in, and puts everything back where the nodes do not suffice then.
    fn insert(&mut self, network: Network, hop: u16) -> Result<Answer, Failure> {
        self.routes.admit(network)?;
        if hop >= 4096 {
            return Err(Failure::Refused(Fault::of_table(Refusal::Hop)));
        }
        let before = self.required()?.len();
        let kept = self.routes.lines.clone()?;
        let old = self.routes.take(network);
        self.routes.lines.push(Line { network, hop })?;
        let after = self.required()?.len();
        if after > self.nodes {
            self.routes.lines = kept;
            return Err(Failure::Refused(Fault::of_table(Refusal::Full)));
        }
        let taken = after.saturating_sub(before);
        Ok(Answer::Inserted { old, taken })
    }

    fn delete(&mut self, network: Network) -> Result<Answer, Failure> {
        self.routes.admit(network)?;
        let before = self.required()?.len();
        let hop = self
            .routes
            .take(network)
            .ok_or(Fault::of_table(Refusal::Absent))?;
        let returned = before.saturating_sub(self.required()?.len());
        Ok(Answer::Deleted { hop, returned })
    }

    fn lookup(&self, value: u128) -> Result<Answer, AllocError> {
        let width = self.routes.width;
        let required = self.required()?;
        let path = required
            .iter()
            .filter(|node| node.begins(width, value))
            .count();
        let route = self.routes.longest(value);
        Ok(Answer::Matched { route, path })
    }

    fn exact(&self, network: Network) -> Result<Answer, Fault> {
        self.routes.admit(network)?;
        Ok(Answer::Hop(self.routes.hop(network)))
    }

    fn next(&self, network: Network) -> Result<Answer, Fault> {
        self.routes.admit(network)?;
        Ok(Answer::Route(self.routes.smallest(Some(network))))
    }

    fn counts(&self) -> Result<Answer, AllocError> {
        let required = self.required()?.len();
        Ok(Answer::Counted {
            routes: self.routes.lines.len(),
            required,
            free: self.nodes.saturating_sub(required),
        })
    }
}

impl Scan {
    pub(crate) fn new(heap: Global, width: u32, nodes: usize) -> Scan {
        Scan {
            heap,
            width,
            nodes,
            opened: None,
        }
    }

    fn open(&mut self, strides: &[u8]) -> Result<Answer, Failure> {
        if !is_plan(self.width, strides) {
            return Err(Failure::Refused(Fault::of_table(Refusal::Plan)));
        }
        if self.nodes == 0 {
            return Err(Failure::Refused(Fault::of_table(Refusal::Size)));
        }
        let mut offsets = Vec::new(self.heap);
        let mut offset: u32 = 0;
        for stride in strides {
            offsets.push(offset)?;
            offset = offset.saturating_add(u32::from(*stride));
        }
        self.opened = Some(Opened {
            heap: self.heap,
            nodes: self.nodes,
            offsets,
            routes: Lines::new(self.heap, self.width),
        });
        Ok(Answer::Opened)
    }

    // The smallest prefix that is held above a prefix, or the same where there is none.
    pub(crate) fn held_above(&self, network: Network) -> Network {
        self.opened
            .as_ref()
            .and_then(|opened| opened.routes.smallest(Some(network)))
            .map_or(network, |line| line.network)
    }

    // What it has once it is open.
    fn opened(&self) -> Result<&Opened, Fault> {
        self.opened.as_ref().ok_or(Fault::of_table(Refusal::Shut))
    }

    fn opened_mut(&mut self) -> Result<&mut Opened, Fault> {
        self.opened.as_mut().ok_or(Fault::of_table(Refusal::Shut))
    }

    // What the scan says to a call.
    pub(crate) fn answer(&mut self, call: &Call) -> Result<Answer, Failure> {
        Ok(match call {
            Call::Open(strides) => self.open(strides.as_slice())?,
            Call::Insert(network, hop) => self.opened_mut()?.insert(*network, *hop)?,
            Call::Delete(network) => self.opened_mut()?.delete(*network)?,
            Call::Lookup(value) => self.opened()?.lookup(*value)?,
            Call::Exact(network) => self.opened()?.exact(*network)?,
            Call::First => Answer::Route(self.opened()?.routes.smallest(None)),
            Call::Next(network) => self.opened()?.next(*network)?,
            Call::Counts => self.opened()?.counts()?,
        })
    }
}
