//! Which node serves which required path, and the chain of free nodes, by the rules for them, written anew.
use crate::calls::Call;
use crate::listed::routes_of;
use anyhow::Context;
use reference::RouteList;
use std::alloc::{AllocError, Global};
use std::collections::BTreeMap;
use trials::lines::{Line, Network};
use trials::numbers::Numbered;

// A stride of a plan, and the sum of those before it.
#[derive(Clone, Copy)]
pub(crate) struct Level {
    pub offset: u32,
    pub stride: u32,
}

// The plan by its levels, the node of each required path, and the free nodes, the front of their chain last.
#[derive(Drop)]
pub(crate) struct Placement {
    pub width: u32,
    pub levels: Vec<Level>,
    pub used: BTreeMap<Network, u32>,
    pub free: Vec<u32>,
}

impl Level {
    pub(crate) fn end(self) -> u32 {
        self.offset.saturating_add(self.stride)
    }
}

fn levels_of(heap: Global, strides: &[u8]) -> Result<Vec<Level>, AllocError> {
    let mut levels = Vec::new(heap);
    let mut offset: u32 = 0;
    for stride in strides {
        let stride = u32::from(*stride);
        levels.push(Level { offset, stride })?;
        offset = offset.saturating_add(stride);
    }
    Ok(levels)
}

// Whether some routes require the node of a path.
fn is_required(width: u32, path: Network, lines: &[Line]) -> bool {
    path.length == 0
        || lines.iter().any(|line| {
            line.network.length >= path.length && path.begins(width, line.network.value)
        })
}

impl Placement {
    // After an opening: the root has node 0, and the others are chained in ascending order.
    fn opened(
        heap: Global,
        width: u32,
        strides: &[u8],
        size: u32,
    ) -> Result<Placement, AllocError> {
        let mut used = BTreeMap::new(heap);
        used.insert(Network::cut(width, 0, 0), 0)?;
        Ok(Placement {
            width,
            levels: levels_of(heap, strides)?,
            used,
            free: (1..size).rev().collect(heap)?,
        })
    }

    // Each path on the way to a prefix that has no node takes the chain's front, the path nearest the root first.
    fn insert(&mut self, network: Network) -> anyhow::Result<()> {
        for level in self.levels.iter() {
            if level.offset > network.length {
                break;
            }
            let path = Network::cut(self.width, network.value, level.offset);
            if !self.used.contains_key(&path) {
                let node = self.free.pop().context("no node is left")?;
                self.used.insert(path, node)?;
            }
        }
        Ok(())
    }

    // The nodes of the paths on the way to a prefix that these routes do not require go to the chain's front, the deepest first.
    fn delete(&mut self, network: Network, lines: &[Line]) -> anyhow::Result<()> {
        for level in self.levels.iter().rev() {
            let path = Network::cut(self.width, network.value, level.offset);
            if level.offset <= network.length && !is_required(self.width, path, lines) {
                let node = self.used.remove(&path).context("a path without a node")?;
                self.free.push(node)?;
            }
        }
        Ok(())
    }

    // The chain's front, 0 where it is empty.
    pub(crate) fn front(&self) -> u32 {
        self.free.last().copied().unwrap_or(0)
    }
}

// Follows a granted call, which left this list; there is no placement while the table is shut.
pub(crate) fn follow<A: Numbered>(
    heap: Global,
    placement: &mut Option<Placement>,
    call: &Call,
    size: u32,
    list: &RouteList<A>,
) -> anyhow::Result<()> {
    match (call, placement.as_mut()) {
        (Call::Open(strides), _) => {
            let opened = Placement::opened(heap, A::WIDTH, strides.as_slice(), size)?;
            *placement = Some(opened);
        }
        (Call::Insert(network, _), Some(placement)) => placement.insert(*network)?,
        (Call::Delete(network), Some(placement)) => {
            placement.delete(*network, routes_of(heap, list)?.as_slice())?;
        }
        _ => {}
    }
    Ok(())
}
