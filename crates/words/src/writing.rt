ghost use Rattle.std.specs.Prelude.{◌≡◌, ◌%◌, ◌<◌, ◌≤◌, IfErr};
ghost use Rattle.nodes.specs.Fields.{write_bitmap, write_count, write_child, write_hop, after_bitmap, after_count, after_child, after_hop};
ghost use Rattle.fields.specs.Layout.{size_of, nodes_of, words_after_bitmap, words_after_count, words_after_child, words_after_hop};
ghost use Rattle.words.specs.Kept.{words_of, SameLoan, Always, Still};

use crate::{Words, node};
use faults::{Fault, Refusal};
use nodes::{LAST_HOP, LAST_POSITION, MOST_CHILDREN, NodeWrite};

// A write of a field that is in range.
impl Words<'_> {
    #[tactic(auto, using(fields::proofs::Parts::bitmap_put))]
    fn put_bitmap(&mut self, node: u32, bitmap: u64)
        requires there { node < size_of (words_of self.old) }
        requires fits { bitmap % 2 ≡ 0 }
        ensures lent { SameLoan self.old self.new }
        ensures words { words_of self.new ≡ words_after_bitmap (words_of self.old) node bitmap }
    {
        let start = 36 * node as usize;
        node::set_bitmap(&mut self.words[start..start + 36], bitmap);
    }

    #[tactic(auto, using(fields::proofs::Parts::count_put))]
    fn put_count(&mut self, node: u32, count: u8)
        requires there { node < size_of (words_of self.old) }
        requires fits { count ≤ 64 }
        ensures lent { SameLoan self.old self.new }
        ensures words { words_of self.new ≡ words_after_count (words_of self.old) node count }
    {
        let start = 36 * node as usize;
        node::set_count(&mut self.words[start..start + 36], count);
    }

    #[tactic(auto, using(fields::proofs::Parts::child_put))]
    fn put_child(&mut self, node: u32, index: u8, child: u32)
        requires there { node < size_of (words_of self.old) }
        requires inside { index < 64 }
        requires fits { child < size_of (words_of self.old) }
        ensures lent { SameLoan self.old self.new }
        ensures words { words_of self.new ≡ words_after_child (words_of self.old) node index child }
    {
        let start = 36 * node as usize;
        node::set_child(&mut self.words[start..start + 36], index, child);
    }

    #[tactic(auto, using(fields::proofs::Parts::hop_put))]
    fn put_hop(&mut self, node: u32, position: u8, hop: u16)
        requires there { node < size_of (words_of self.old) }
        requires above { 1 ≤ position }
        requires inside { position < 64 }
        requires fits { hop ≤ 4095 }
        ensures lent { SameLoan self.old self.new }
        ensures words { words_of self.new ≡ words_after_hop (words_of self.old) node position hop }
    {
        let start = 36 * node as usize;
        node::set_hop(&mut self.words[start..start + 36], position, hop);
    }
}

// Each call has the clauses of the trait, and one more: which word is changed, and how.
impl NodeWrite for Words<'_> {
    #[tactic(auto, using(fields::proofs::Layouts::bitmap_written, fields::proofs::Besides::bitmap_beside))]
    fn set_bitmap(&mut self, node: u32, bitmap: u64) -> Result<(), Fault>
        ensures answer { result ≡ write_bitmap (nodes_of (words_of self.old)) node bitmap }
        ensures after { nodes_of (words_of self.new) ≡ after_bitmap (nodes_of (words_of self.old)) node bitmap }
        ensures always { Always self.old self.new }
        ensures refused { IfErr result (λ _. Still self.old self.new) }
        ensures words { words_of self.new ≡ words_after_bitmap (words_of self.old) node bitmap }
    {
        if node >= self.size {
            return Err(Fault::of_memory(Refusal::Place));
        }
        if bitmap % 2 != 0 {
            return Err(Fault::of_memory(Refusal::Value));
        }
        self.put_bitmap(node, bitmap);
        Ok(())
    }

    #[tactic(auto, using(fields::proofs::Layouts::count_written, fields::proofs::Besides::count_beside))]
    fn set_count(&mut self, node: u32, count: u8) -> Result<(), Fault>
        ensures answer { result ≡ write_count (nodes_of (words_of self.old)) node count }
        ensures after { nodes_of (words_of self.new) ≡ after_count (nodes_of (words_of self.old)) node count }
        ensures always { Always self.old self.new }
        ensures refused { IfErr result (λ _. Still self.old self.new) }
        ensures words { words_of self.new ≡ words_after_count (words_of self.old) node count }
    {
        if node >= self.size {
            return Err(Fault::of_memory(Refusal::Place));
        }
        if count > MOST_CHILDREN {
            return Err(Fault::of_memory(Refusal::Value));
        }
        self.put_count(node, count);
        Ok(())
    }

    #[tactic(auto, using(fields::proofs::Layouts::child_written, fields::proofs::Besides::child_beside))]
    fn set_child(&mut self, node: u32, index: u8, child: u32) -> Result<(), Fault>
        ensures answer { result ≡ write_child (nodes_of (words_of self.old)) node index child }
        ensures after { nodes_of (words_of self.new) ≡ after_child (nodes_of (words_of self.old)) node index child }
        ensures always { Always self.old self.new }
        ensures refused { IfErr result (λ _. Still self.old self.new) }
        ensures words { words_of self.new ≡ words_after_child (words_of self.old) node index child }
    {
        if node >= self.size || index >= MOST_CHILDREN {
            return Err(Fault::of_memory(Refusal::Place));
        }
        if child >= self.size {
            return Err(Fault::of_memory(Refusal::Value));
        }
        self.put_child(node, index, child);
        Ok(())
    }

    #[tactic(auto, using(fields::proofs::Layouts::hop_written, fields::proofs::Besides::hop_beside))]
    fn set_hop(&mut self, node: u32, position: u8, hop: u16) -> Result<(), Fault>
        ensures answer { result ≡ write_hop (nodes_of (words_of self.old)) node position hop }
        ensures after { nodes_of (words_of self.new) ≡ after_hop (nodes_of (words_of self.old)) node position hop }
        ensures always { Always self.old self.new }
        ensures refused { IfErr result (λ _. Still self.old self.new) }
        ensures words { words_of self.new ≡ words_after_hop (words_of self.old) node position hop }
    {
        if node >= self.size || position < 1 || position > LAST_POSITION {
            return Err(Fault::of_memory(Refusal::Place));
        }
        if hop > LAST_HOP {
            return Err(Fault::of_memory(Refusal::Value));
        }
        self.put_hop(node, position, hop);
        Ok(())
    }
}
