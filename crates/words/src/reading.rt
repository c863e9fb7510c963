ghost use Rattle.fields.specs.Layout.{nodes_of};
ghost use Rattle.fields.proofs.Besides.{laws as laws_of_words};
ghost use Rattle.words.specs.Kept.{words_of, Still, Always};

use crate::{Words, node};
use faults::{Fault, Refusal};
use nodes::{LAST_POSITION, MOST_CHILDREN, NodeRead};

impl NodeRead for Words<'_> {
    ghost nodes = { λ x. nodes_of (words_of x) };

    ghost still = { Still };

    ghost always = { Always };

    ghost laws = { laws_of_words (λ x. x.words.ghost_name) words_of };

    fn size(&mut self) -> u32 {
        self.size
    }

    fn bitmap(&mut self, node: u32) -> Result<u64, Fault> {
        if node >= self.size {
            return Err(Fault::of_memory(Refusal::Place));
        }
        Ok(node::bitmap(self.node(node)))
    }

    fn count(&mut self, node: u32) -> Result<u8, Fault> {
        if node >= self.size {
            return Err(Fault::of_memory(Refusal::Place));
        }
        Ok(node::count(self.node(node)))
    }

    fn child(&mut self, node: u32, index: u8) -> Result<u32, Fault> {
        if node >= self.size || index >= MOST_CHILDREN {
            return Err(Fault::of_memory(Refusal::Place));
        }
        Ok(node::child(self.node(node), index))
    }

    fn hop(&mut self, node: u32, position: u8) -> Result<u16, Fault> {
        if node >= self.size || position < 1 || position > LAST_POSITION {
            return Err(Fault::of_memory(Refusal::Place));
        }
        Ok(node::hop(self.node(node), position))
    }
}
