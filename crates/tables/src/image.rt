//! What every field of every node must hold, by plan, routes and placement.
use crate::placement::{Level, Placement};
use records::Record;
use std::alloc::{AllocError, Global};
use trials::lines::{Line, Network};

const BLANK: Record = Record {
    bitmap: 0,
    count: 0,
    children: [0; 64],
    hops: [0; 63],
};

// Two to the power of a number of bits, at most six, and the number that so many last bits of a prefix form.
fn last_bits(width: u32, network: Network, count: u32) -> (usize, usize) {
    let behind = width.saturating_sub(network.length);
    let last = (network.value.checked_shr(behind).unwrap_or(0) % 64) as usize;
    let power = 1usize.wrapping_shl(count);
    (power, last.checked_rem(power).unwrap_or(0))
}

// The record of the node that serves the first bits of a prefix, those before a level.
fn serving<'a>(
    placement: &Placement,
    fields: &'a mut [Record],
    network: Network,
    level: Level,
) -> Option<&'a mut Record> {
    let path = Network::cut(placement.width, network.value, level.offset);
    let node = *placement.used.get(&path)?;
    fields.get_mut(node as usize)
}

// Each free node is linked to the next of the chain.
fn chain(placement: &Placement, fields: &mut [Record]) {
    let mut next = 0;
    for node in placement.free.iter() {
        if let Some(record) = fields.get_mut(*node as usize) {
            record.children[0] = next;
        }
        next = *node;
    }
}

// The node of a path is a child of the node a level nearer the root.
fn link(placement: &Placement, fields: &mut [Record], path: Network, node: u32) {
    for level in placement.levels.iter() {
        if level.end() == path.length
            && let Some(record) = serving(placement, fields, path, *level)
        {
            let (_, index) = last_bits(placement.width, path, level.stride);
            if let Some(child) = record.children.get_mut(index) {
                *child = node;
            }
            record.count = record.count.wrapping_add(1);
        }
    }
}

// A route is marked in the node of its path, with its hop.
fn mark(placement: &Placement, fields: &mut [Record], line: Line) {
    let length = line.network.length;
    for level in placement.levels.iter() {
        if level.offset <= length
            && length < level.end()
            && let Some(record) = serving(placement, fields, line.network, *level)
        {
            let rest = length.saturating_sub(level.offset);
            let (power, bits) = last_bits(placement.width, line.network, rest);
            let position = power.wrapping_add(bits);
            record.bitmap = record.bitmap | 1u64.wrapping_shl((position % 64) as u32);
            if let Some(hop) = record.hops.get_mut(position.wrapping_sub(1)) {
                *hop = line.hop;
            }
        }
    }
}

// Every field of so many nodes.
pub(crate) fn image(
    heap: Global,
    size: usize,
    placement: &Placement,
    lines: &[Line],
) -> Result<Vec<Record>, AllocError> {
    let mut fields = vec![in heap; BLANK; size]?;
    chain(placement, fields.as_mut_slice());
    for (path, node) in placement.used.iter() {
        link(placement, fields.as_mut_slice(), *path, *node);
    }
    for line in lines {
        mark(placement, fields.as_mut_slice(), *line);
    }
    Ok(fields)
}
