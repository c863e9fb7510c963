ghost use Rattle.std.specs.Prelude.{◌≡◌, [], IfErr, IfOk};
ghost use Rattle.model.specs.Calls.{Plain, after, answer, holding, open_with, opened, shut};
ghost use Rattle.model.specs.Outcomes.{outcome};
ghost use Rattle.model.specs.Placements.{Placement, opened_placement};
ghost use Rattle.table.specs.Placed.{placed};
ghost use Rattle.table.specs.Stands.{Stands, Still};

use crate::Table;
use address::Address;
use faults::{Fault, Refusal};
use nodes::NodeWrite;
use plan::Plan;

impl<A: Address, M: NodeWrite> Table<A, M> {
    /// A shut table over a memory, whatever that holds.
    pub fn new(memory: M) -> Table<A, M>
        ensures shut { (at : Placement) → Stands M.NodeRead.nodes A.Address.WIDTH result shut at }
        ensures memory { result.memory ≡ memory }
    {
        Table {
            memory,
            plan: None,
            front: 0,
            routes: 0,
            required: 0,
        }
    }

    /// Opens the table by a plan, or opens it anew: then it has no routes. Refused where the strides are no plan, and where the memory has no
    /// nodes; then it is as it was.
    pub fn open(&mut self, strides: &[u8]) -> Result<(), Fault>
        ensures answer { (plain : Plain) → outcome (λ _. opened) result ≡ answer A.Address.WIDTH (M.NodeRead.nodes self.old.memory).size plain (open_with strides.now) }
        ensures opened { IfOk result (λ _. Stands M.NodeRead.nodes A.Address.WIDTH self.new (holding strides.now []) (opened_placement (M.NodeRead.nodes self.old.memory).size)) }
        ensures after { (plain : Plain) (at : Placement) → Stands M.NodeRead.nodes A.Address.WIDTH self.old plain at → Stands M.NodeRead.nodes A.Address.WIDTH self.new (after A.Address.WIDTH (M.NodeRead.nodes self.old.memory).size plain (open_with strides.now)) (placed A.Address.WIDTH (M.NodeRead.nodes self.old.memory).size plain at (open_with strides.now)) }
        ensures refused { IfErr result (λ _. Still M.NodeRead.still self.old self.new) }
        ensures always { M.NodeRead.always self.old.memory self.new.memory }
    {
        let plan = Plan::new(strides)?;
        let size = self.memory.size();
        if size == 0 {
            return Err(Fault::of_table(Refusal::Size));
        }
        let front = growth::open(&mut self.memory)?;
        self.plan = Some(plan);
        self.front = front;
        self.routes = 0;
        self.required = 1;
        Ok(())
    }
}
