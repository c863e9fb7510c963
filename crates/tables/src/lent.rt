//! A memory of nodes that is lent to a table, and is there for another once the table is gone.
use faults::Fault;
use nodes::{NodeRead, NodeWrite};

#[derive(Drop)]
pub(crate) struct Lent<'a, M: NodeWrite> {
    pub memory: &'a mut M,
}

impl<'a, M: NodeWrite> NodeRead for Lent<'a, M> {
    ghost nodes = { λ x. M.NodeRead.nodes x.memory.now };

    ghost still = { λ x y. M.NodeRead.still x.memory.now y.memory.now };

    ghost always = { λ x y. M.NodeRead.always x.memory.now y.memory.now };

    ghost laws = { record {
      within = λ x. M.NodeRead.laws.within x.memory.now;
      still_same = λ x. M.NodeRead.laws.still_same x.memory.now;
      still_then = λ x y z p q. M.NodeRead.laws.still_then x.memory.now y.memory.now z.memory.now p q;
      still_nodes = λ x y p. M.NodeRead.laws.still_nodes x.memory.now y.memory.now p;
      still_always = λ x y p. M.NodeRead.laws.still_always x.memory.now y.memory.now p;
      always_same = λ x. M.NodeRead.laws.always_same x.memory.now;
      always_then = λ x y z p q. M.NodeRead.laws.always_then x.memory.now y.memory.now z.memory.now p q;
      always_size = λ x y p. M.NodeRead.laws.always_size x.memory.now y.memory.now p;
    } };

    fn size(&mut self) -> u32 {
        self.memory.size()
    }

    fn bitmap(&mut self, node: u32) -> Result<u64, Fault> {
        self.memory.bitmap(node)
    }

    fn count(&mut self, node: u32) -> Result<u8, Fault> {
        self.memory.count(node)
    }

    fn child(&mut self, node: u32, index: u8) -> Result<u32, Fault> {
        self.memory.child(node, index)
    }

    fn hop(&mut self, node: u32, position: u8) -> Result<u16, Fault> {
        self.memory.hop(node, position)
    }
}

impl<'a, M: NodeWrite> NodeWrite for Lent<'a, M> {
    fn set_bitmap(&mut self, node: u32, bitmap: u64) -> Result<(), Fault> {
        self.memory.set_bitmap(node, bitmap)
    }

    fn set_count(&mut self, node: u32, count: u8) -> Result<(), Fault> {
        self.memory.set_count(node, count)
    }

    fn set_child(&mut self, node: u32, index: u8, child: u32) -> Result<(), Fault> {
        self.memory.set_child(node, index, child)
    }

    fn set_hop(&mut self, node: u32, position: u8, hop: u16) -> Result<(), Fault> {
        self.memory.set_hop(node, position, hop)
    }
}
