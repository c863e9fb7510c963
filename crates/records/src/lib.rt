//! A node memory of records: each node a struct with its fields.
#![tactic(auto)]

ghost use Rattle.std.specs.Prelude.{◌≡◌, ◌≤◌, length, min, nat_lt, true, false, IfOk, MatchResult};
ghost use Rattle.faults.specs.Numbers.{of_memory};
ghost use Rattle.faults.specs.declared.Refusal.TheVariants.{Place};
ghost use Rattle.nodes.specs.Fields.{read_bitmap, read_count, read_child, read_hop, filled, most_nodes};
ghost use Rattle.records.specs.Held.{size_of};

use faults::{Fault, Refusal};
use nodes::{LAST_HOP, LAST_POSITION, MOST_CHILDREN, MOST_NODES, NodeRead, NodeWrite};
use std::alloc::{AllocError, Global};

/// The fields of a node. Hop i, at position i, is `hops[i - 1]`.
#[derive(Clone, Copy, PartialEq, Eq, Debug)]
pub struct Record {
    pub bitmap: u64,
    pub count: u8,
    pub children: [u32; 64],
    pub hops: [u16; 63],
}

/// A memory of as many nodes as there are records, up to 262,144.
#[derive(Drop)]
pub struct Records {
    records: Vec<Record>,
    size: u32,
    ghost counted: { size ≡ size_of records.items },
}

impl Records {
    ghost use Rattle.records.specs.Held.{nodes_of, fields_of, record_at};
    ghost use Rattle.records.specs.Kept.{records_of};

    /// A memory of these records.
    pub fn new(records: Vec<Record>) -> Records
        ensures { records_of result ≡ records.items }
    {
        let size = records.len().min(MOST_NODES as usize) as u32;
        Records { records, size }
    }

    /// A memory of so many nodes, at most 262,144, each with the fields of one record.
    pub fn filled(heap: Global, count: usize, node: Record) -> Result<Records, AllocError>
        ensures { IfOk result (λ memory. nodes_of (records_of memory) ≡ filled (min count most_nodes) (fields_of node)) }
    {
        Ok(Records::new(vec![in heap; node; count]?))
    }

    // The record of a node.
    fn record(&self, node: u32) -> Result<&Record, Fault>
        ensures { MatchResult result (λ r. (nat_lt node (size_of (records_of self.now)) ≡ true) × (r.now ≡ record_at (records_of self.now) node)) (λ f. (nat_lt node (size_of (records_of self.now)) ≡ false) × (f ≡ of_memory Place)) }
    {
        if node >= self.size {
            return Err(Fault::of_memory(Refusal::Place));
        }
        Ok(&self.records[node as usize])
    }

    fn bitmap_at(&self, node: u32) -> Result<u64, Fault>
        ensures { result ≡ read_bitmap (nodes_of (records_of self.now)) node }
    {
        Ok(self.record(node)?.bitmap)
    }

    fn count_at(&self, node: u32) -> Result<u8, Fault>
        ensures { result ≡ read_count (nodes_of (records_of self.now)) node }
    {
        Ok(self.record(node)?.count)
    }

    fn child_at(&self, node: u32, index: u8) -> Result<u32, Fault>
        ensures { result ≡ read_child (nodes_of (records_of self.now)) node index }
    {
        self.record(node)?
            .children
            .get(usize::from(index))
            .copied()
            .ok_or(Fault::of_memory(Refusal::Place))
    }

    fn hop_at(&self, node: u32, position: u8) -> Result<u16, Fault>
        ensures { result ≡ read_hop (nodes_of (records_of self.now)) node position }
    {
        // Position 0, which has no hop, becomes an index that is far outside.
        self.record(node)?
            .hops
            .get(usize::from(position).wrapping_sub(1))
            .copied()
            .ok_or(Fault::of_memory(Refusal::Place))
    }
}

impl NodeRead for Records {
    ghost use Rattle.records.specs.Held.{nodes_of};
    ghost use Rattle.records.specs.Kept.{records_of};
    ghost use Rattle.records.specs.Beside.{Beside, laws_of};
    ghost use Rattle.std.specs.Prelude.{◌≡◌};

    ghost nodes = { λ m. nodes_of (records_of m) };

    ghost still = { λ a b. b ≡ a };

    ghost always = { λ a b. Beside (records_of a) (records_of b) };

    ghost laws = { laws_of records_of };

    fn size(&mut self) -> u32 {
        self.size
    }

    fn bitmap(&mut self, node: u32) -> Result<u64, Fault> {
        self.bitmap_at(node)
    }

    fn count(&mut self, node: u32) -> Result<u8, Fault> {
        self.count_at(node)
    }

    fn child(&mut self, node: u32, index: u8) -> Result<u32, Fault> {
        self.child_at(node, index)
    }

    fn hop(&mut self, node: u32, position: u8) -> Result<u16, Fault> {
        self.hop_at(node, position)
    }
}

impl NodeWrite for Records {
    fn set_bitmap(&mut self, node: u32, bitmap: u64) -> Result<(), Fault> {
        if node >= self.size {
            return Err(Fault::of_memory(Refusal::Place));
        }
        if bitmap % 2 != 0 {
            return Err(Fault::of_memory(Refusal::Value));
        }
        self.records[node as usize].bitmap = bitmap;
        Ok(())
    }

    fn set_count(&mut self, node: u32, count: u8) -> Result<(), Fault> {
        if node >= self.size {
            return Err(Fault::of_memory(Refusal::Place));
        }
        if count > MOST_CHILDREN {
            return Err(Fault::of_memory(Refusal::Value));
        }
        self.records[node as usize].count = count;
        Ok(())
    }

    fn set_child(&mut self, node: u32, index: u8, child: u32) -> Result<(), Fault> {
        if node >= self.size || index >= MOST_CHILDREN {
            return Err(Fault::of_memory(Refusal::Place));
        }
        if child >= self.size {
            return Err(Fault::of_memory(Refusal::Value));
        }
        self.records[node as usize].children[usize::from(index)] = child;
        Ok(())
    }

    fn set_hop(&mut self, node: u32, position: u8, hop: u16) -> Result<(), Fault> {
        if node >= self.size || position < 1 || position > LAST_POSITION {
            return Err(Fault::of_memory(Refusal::Place));
        }
        if hop > LAST_HOP {
            return Err(Fault::of_memory(Refusal::Value));
        }
        self.records[node as usize].hops[usize::from(position) - 1] = hop;
        Ok(())
    }
}
