//! A tree of nodes by plain lists: which node each required path has, and what every field of every node then holds.
use crate::calls::Way;
use crate::random::one_of;
use anyhow::Context;
use arrayvec::ArrayVec;
use records::Record;
use std::alloc::{AllocError, Global};
use std::collections::BTreeMap;
use trials::dice::Dice;
use trials::lines::{Line, Network};

// A stride of a plan, and the sum of those before it.
#[derive(Clone, Copy)]
pub(crate) struct Level {
    pub offset: u32,
    pub stride: u32,
}

// The node of each path, and the others in the order of their chain.
#[derive(Drop)]
pub(crate) struct Layout {
    pub width: u32,
    pub levels: Vec<Level>,
    pub nodes: BTreeMap<Network, u32>,
    free: Vec<u32>,
    pub size: u32,
}

pub(crate) const BLANK: Record = Record {
    bitmap: 0,
    count: 0,
    children: [0; 64],
    hops: [0; 63],
};

// The number that some bits of an address spell, from a place on, behind the bits of another number.
fn spelled(before: u8, width: u32, value: u128, place: u32, count: u32) -> u8 {
    let mut number = before;
    for i in place..place.saturating_add(count) {
        let behind = width.wrapping_sub(1).wrapping_sub(i);
        let rest = value.checked_shr(behind).unwrap_or(0);
        number = number.wrapping_mul(2).wrapping_add((rest % 2) as u8);
    }
    number
}

impl Level {
    pub(crate) fn end(self) -> u32 {
        self.offset.saturating_add(self.stride)
    }

    // Whether prefixes of so many bits lie there.
    fn holds(self, length: u32) -> bool {
        self.offset <= length && length < self.end()
    }
}

fn levels_of(heap: Global, strides: &[u8]) -> Result<Vec<Level>, AllocError> {
    let mut levels = Vec::new(heap);
    let mut offset: u32 = 0;
    for stride in strides {
        let stride = u32::from(*stride);
        levels.push(Level { offset, stride })?;
        offset = offset.wrapping_add(stride);
    }
    Ok(levels)
}

impl Layout {
    // The root alone, which is node 0.
    pub(crate) fn new(
        heap: Global,
        width: u32,
        strides: &[u8],
        size: u32,
    ) -> Result<Layout, AllocError> {
        let mut nodes = BTreeMap::new(heap);
        nodes.insert(Network::cut(width, 0, 0), 0)?;
        Ok(Layout {
            width,
            levels: levels_of(heap, strides)?,
            nodes,
            free: (1..size).collect(heap)?,
            size,
        })
    }

    // The first bits of a number that lead to a level.
    fn path(&self, value: u128, level: Level) -> Network {
        Network::cut(self.width, value, level.offset)
    }

    // The index of a level's child on the way of a number.
    pub(crate) fn index(&self, value: u128, level: Level) -> u8 {
        spelled(0, self.width, value, level.offset, level.stride)
    }

    // The node on the way of a number at a level, if there is one.
    pub(crate) fn node(&self, value: u128, level: Level) -> Option<u32> {
        self.nodes.get(&self.path(value, level)).copied()
    }

    // Takes one of the free nodes, any.
    fn take(&mut self, dice: &mut Dice) -> Option<u32> {
        let node = *one_of(dice, self.free.as_slice())?;
        self.free.retain(|other| *other != node);
        Some(node)
    }

    // Gives a node to each path on the way to a prefix that has none yet. By an index, since the layout changes meanwhile.
    pub(crate) fn require(&mut self, dice: &mut Dice, network: Network) -> anyhow::Result<()> {
        for i in 0..self.levels.len() {
            let Some(level) = self.levels.get(i).copied() else {
                break;
            };
            if level.offset > network.length {
                break;
            }
            let path = self.path(network.value, level);
            if !self.nodes.contains_key(&path) {
                let node = self.take(dice).context("no node is left")?;
                self.nodes.insert(path, node)?;
            }
        }
        Ok(())
    }

    // Chains the free nodes through child 0.
    fn chain(&self, fields: &mut [Record]) {
        let mut before = None;
        for node in self.free.iter() {
            if let Some(last) = before {
                set_child(fields, last, 0, *node);
            }
            before = Some(*node);
        }
    }

    // Makes a node the child of the one that is a level nearer the root, if it is not the root itself.
    fn link(&self, fields: &mut [Record], path: Network, node: u32) {
        for level in self.levels.iter() {
            if level.end() == path.length
                && let Some(parent) = self.node(path.value, *level)
            {
                set_child(fields, parent, self.index(path.value, *level), node);
                if let Some(record) = fields.get_mut(parent as usize) {
                    record.count = record.count.wrapping_add(1);
                }
            }
        }
    }

    // Where a prefix lies: the level, and its position there.
    fn place(&self, network: Network) -> Option<(Level, u8)> {
        let level = *self
            .levels
            .iter()
            .find(|level| level.holds(network.length))?;
        let rest = network.length.wrapping_sub(level.offset);
        let position = spelled(1, self.width, network.value, level.offset, rest);
        Some((level, position))
    }

    // Marks a route in its node.
    fn mark(&self, fields: &mut [Record], line: Line) {
        let Some((level, position)) = self.place(line.network) else {
            return;
        };
        let Some(record) = self
            .node(line.network.value, level)
            .and_then(|node| fields.get_mut(node as usize))
        else {
            return;
        };
        record.bitmap = record.bitmap | 1u64.wrapping_shl(u32::from(position));
        if let Some(hop) = record.hops.get_mut(usize::from(position).wrapping_sub(1)) {
            *hop = line.hop;
        }
    }

    // Every field of every node.
    pub(crate) fn fields(&self, heap: Global, lines: &[Line]) -> Result<Vec<Record>, AllocError> {
        let mut fields = vec![in heap; BLANK; self.size as usize]?;
        self.chain(fields.as_mut_slice());
        for (path, node) in self.nodes.iter() {
            self.link(fields.as_mut_slice(), *path, *node);
        }
        for line in lines {
            self.mark(fields.as_mut_slice(), *line);
        }
        Ok(fields)
    }

    // The way to a prefix with a hop or none.
    pub(crate) fn way(&self, network: Network, hop: Option<u16>) -> anyhow::Result<Way> {
        let (last, position) = self.place(network).context("no level")?;
        let mut nodes = ArrayVec::new();
        let mut indexes = ArrayVec::new();
        for level in self.levels.iter() {
            if level.offset > last.offset {
                break;
            }
            if let Some(node) = self.node(network.value, *level) {
                nodes.try_push(node)?;
            }
            if level.offset < last.offset {
                indexes.try_push(self.index(network.value, *level))?;
            }
        }
        Ok(Way {
            nodes,
            indexes,
            position,
            hop,
        })
    }
}

// Sets a child of a node, if there is such a node and child.
pub(crate) fn set_child(fields: &mut [Record], node: u32, index: u8, child: u32) {
    if let Some(place) = fields
        .get_mut(node as usize)
        .and_then(|record| record.children.get_mut(usize::from(index)))
    {
        *place = child;
    }
}
