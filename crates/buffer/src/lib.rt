//! A node memory in words that it owns.
#![tactic(auto)]

use faults::Fault;
use nodes::{NodeRead, NodeWrite};

mod lent;

/// The nodes of words, as `Words` has them of lent ones; here for each call the words are lent anew.
#[derive(Drop)]
pub struct Buffer {
    pub words: Vec<u64>,
}

impl NodeRead for Buffer {
    ghost use Rattle.std.specs.Prelude.{◌≡◌};
    ghost use Rattle.fields.specs.Beside.{Beside};
    ghost use Rattle.fields.proofs.Besides.{laws_of};
    ghost use Rattle.buffer.specs.Held.{nodes_in};

    ghost nodes = { nodes_in };

    ghost still = { λ x y. y.words.items ≡ x.words.items };

    ghost always = { λ x y. Beside x.words.items y.words.items };

    ghost laws = { laws_of (λ x. x.words.items) };

    #[tactic(auto, using(crate::proofs::Written::written_back))]
    fn size(&mut self) -> u32 {
        lent::size(&mut self.words)
    }

    #[tactic(auto, using(crate::proofs::Written::written_back))]
    fn bitmap(&mut self, node: u32) -> Result<u64, Fault> {
        lent::bitmap(&mut self.words, node)
    }

    #[tactic(auto, using(crate::proofs::Written::written_back))]
    fn count(&mut self, node: u32) -> Result<u8, Fault> {
        lent::count(&mut self.words, node)
    }

    #[tactic(auto, using(crate::proofs::Written::written_back))]
    fn child(&mut self, node: u32, index: u8) -> Result<u32, Fault> {
        lent::child(&mut self.words, node, index)
    }

    #[tactic(auto, using(crate::proofs::Written::written_back))]
    fn hop(&mut self, node: u32, position: u8) -> Result<u16, Fault> {
        lent::hop(&mut self.words, node, position)
    }
}

impl NodeWrite for Buffer {
    #[tactic(auto, using(crate::proofs::Written::written_back))]
    fn set_bitmap(&mut self, node: u32, bitmap: u64) -> Result<(), Fault> {
        lent::set_bitmap(&mut self.words, node, bitmap)
    }

    #[tactic(auto, using(crate::proofs::Written::written_back))]
    fn set_count(&mut self, node: u32, count: u8) -> Result<(), Fault> {
        lent::set_count(&mut self.words, node, count)
    }

    #[tactic(auto, using(crate::proofs::Written::written_back))]
    fn set_child(&mut self, node: u32, index: u8, child: u32) -> Result<(), Fault> {
        lent::set_child(&mut self.words, node, index, child)
    }

    #[tactic(auto, using(crate::proofs::Written::written_back))]
    fn set_hop(&mut self, node: u32, position: u8, hop: u16) -> Result<(), Fault> {
        lent::set_hop(&mut self.words, node, position, hop)
    }
}
