//! A memory of nodes that lies in lent words.
#![tactic(auto)]

ghost use Rattle.std.specs.Prelude.{◌≡◌, ◌+◌, ◌*◌, ◌<◌};
ghost use Rattle.fields.specs.Layout.{size_of};

use nodes::MOST_NODES;

mod field;
mod node;
mod reading;
mod writing;

/// The nodes of lent words: 36 words to a node, from the first word on, and as many nodes as the words hold whole, at most 262,144. The words
/// behind them are never written.
#[derive(Drop)]
pub struct Words<'a> {
    words: &'a mut [u64],
    size: u32,
    ghost whole: { size ≡ size_of words.now },
}

impl<'a> Words<'a> {
    ghost use Rattle.std.specs.List.{between};
    ghost use Rattle.nodes.specs.Fields.{filled};
    ghost use Rattle.fields.specs.Layout.{nodes_of, fields_of};
    ghost use Rattle.fields.specs.Filled.{Filled};
    ghost use Rattle.words.specs.Kept.{words_of, LentBy, SameLoan};

    /// The memory in these words, with the fields that they hold.
    pub fn new(words: &'a mut [u64]) -> Words<'a>
        ensures words { words_of result ≡ words.old }
        ensures lent { LentBy words.entry result }
    {
        let size = (words.len() / 36).min(MOST_NODES as usize) as u32;
        Words { words, size }
    }

    /// Writes the same 36 words into every node.
    #[tactic(auto, using(fields::proofs::Fills::one_more))]
    pub fn fill(&mut self, node: &[u64; 36])
        ensures nodes { nodes_of (words_of self.new) ≡ filled (size_of (words_of self.old)) (fields_of node.now) }
        ensures words { Filled (size_of (words_of self.old)) node.now (words_of self.old) (words_of self.new) }
        ensures lent { SameLoan self.old self.new }
    {
        for n in 0..self.size {
            let start = 36 * n as usize;
            self.words[start..start + 36].copy_from_slice(node);
        }
    }

    // The words of a node.
    fn node(&self, node: u32) -> &[u64]
        requires { node < size_of (words_of self.now) }
        ensures { result.now ≡ between (36 * node) (36 * node + 36) (words_of self.now) }
    {
        let start = 36 * node as usize;
        &self.words[start..start + 36]
    }
}
