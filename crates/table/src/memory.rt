use crate::Table;
use address::Address;
use faults::Fault;
use nodes::{NodeRead, NodeWrite};

/// The nodes of a table can be read as those of its memory can, and not written.
impl<A: Address, M: NodeWrite> NodeRead for Table<A, M> {
    ghost use Rattle.std.proofs.Common.{◌∙◌, refl};
    ghost use Rattle.table.specs.Stands.{Still};

    ghost nodes = { λ t. M.NodeRead.nodes t.memory };

    ghost still = { Still M.NodeRead.still };

    ghost always = { λ t u. M.NodeRead.always t.memory u.memory };

    ghost laws = { record {
      within = λ x. M.NodeRead.laws.within x.memory;
      still_same = λ x. record { memory = M.NodeRead.laws.still_same x.memory; plan = refl; chain = refl; routes = refl; required = refl };
      still_then = λ x y z p q. record { memory = M.NodeRead.laws.still_then x.memory y.memory z.memory p.memory q.memory; plan = q.plan ∙ p.plan; chain = q.chain ∙ p.chain; routes = q.routes ∙ p.routes; required = q.required ∙ p.required };
      still_nodes = λ x y p. M.NodeRead.laws.still_nodes x.memory y.memory p.memory;
      still_always = λ x y p. M.NodeRead.laws.still_always x.memory y.memory p.memory;
      always_same = λ x. M.NodeRead.laws.always_same x.memory;
      always_then = λ x y z p q. M.NodeRead.laws.always_then x.memory y.memory z.memory p q;
      always_size = λ x y p. M.NodeRead.laws.always_size x.memory y.memory p;
    } };

    fn size(&mut self) -> u32 {
        self.memory.size()
    }

    fn bitmap(&mut self, node: u32) -> Result<u64, Fault> {
        self.memory.bitmap(node)
    }

    fn count(&mut self, node: u32) -> Result<u8, Fault> {
        self.memory.count(node)
    }

    fn child(&mut self, node: u32, index: u8) -> Result<u32, Fault> {
        self.memory.child(node, index)
    }

    fn hop(&mut self, node: u32, position: u8) -> Result<u16, Fault> {
        self.memory.hop(node, position)
    }
}

impl<A: Address, M: NodeWrite> Table<A, M> {
    ghost use Rattle.std.specs.Prelude.{◌≡◌};

    /// The memory, with the nodes as the table leaves them.
    pub fn into_memory(self) -> M
        ensures { result ≡ self.memory }
    {
        self.memory
    }
}
