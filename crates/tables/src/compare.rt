//! A memory beside an image of its nodes.
use anyhow::ensure;
use nodes::{LAST_POSITION, MOST_CHILDREN, NodeRead};
use records::Record;

// All fields of all nodes of a memory are those of the image; how many fields there are.
pub(crate) fn compare<M: NodeRead>(memory: &mut M, image: &[Record]) -> anyhow::Result<u64> {
    let size = memory.size();
    ensure!(size as usize == image.len(), "another number of nodes");
    let mut fields: u64 = 0;
    for (node, record) in (0..size).zip(image.iter()) {
        let held = memory.bitmap(node)?;
        let wanted = record.bitmap;
        ensure!(held == wanted, "node {node}: bitmap {held}, not {wanted}");
        let held = memory.count(node)?;
        let wanted = record.count;
        ensure!(held == wanted, "node {node}: count {held}, not {wanted}");
        for (index, wanted) in (0..MOST_CHILDREN).zip(record.children.iter()) {
            let held = memory.child(node, index)?;
            ensure!(
                held == *wanted,
                "node {node}: child {index} is {held}, not {wanted}"
            );
            fields = fields.wrapping_add(1);
        }
        for (position, wanted) in (1..=LAST_POSITION).zip(record.hops.iter()) {
            let held = memory.hop(node, position)?;
            ensure!(
                held == *wanted,
                "node {node}: hop {position} is {held}, not {wanted}"
            );
            fields = fields.wrapping_add(1);
        }
        fields = fields.wrapping_add(2);
    }
    Ok(fields)
}
