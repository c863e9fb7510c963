ghost use Rattle.std.specs.Prelude.{◌≡◌, IfErr};
ghost use Rattle.model.specs.Calls as calls;
ghost use Rattle.model.specs.Calls.{Plain, after, answer};
ghost use Rattle.model.specs.Outcomes.{outcome};
ghost use Rattle.model.specs.Placements.{Placement};
ghost use Rattle.table.specs.Answers.{delete_answer};
ghost use Rattle.table.specs.Placed.{placed};
ghost use Rattle.table.specs.Stands.{Stands, Still};

use crate::{Deleted, Table};
use address::Address;
use address::prefix::Prefix;
use descent::{Trail, trail_to};
use faults::{Fault, Refusal};
use growth::{Climbed, climb, unmark};
use nodes::NodeWrite;
use routes::SoundPrefix;

impl<A: Address, M: NodeWrite> Table<A, M> {
    /// Removes the route of a prefix. Refused as *absent* where there is none.
    pub fn delete(&mut self, prefix: Prefix<A>) -> Result<Deleted, Fault>
        ensures answer { (plain : Plain) (at : Placement) → Stands M.NodeRead.nodes A.Address.WIDTH self.old plain at → outcome delete_answer result ≡ answer A.Address.WIDTH (M.NodeRead.nodes self.old.memory).size plain (calls.delete (A.Address.bits prefix.address) prefix.length) }
        ensures after { (plain : Plain) (at : Placement) → Stands M.NodeRead.nodes A.Address.WIDTH self.old plain at → Stands M.NodeRead.nodes A.Address.WIDTH self.new (after A.Address.WIDTH (M.NodeRead.nodes self.old.memory).size plain (calls.delete (A.Address.bits prefix.address) prefix.length)) (placed A.Address.WIDTH (M.NodeRead.nodes self.old.memory).size plain at (calls.delete (A.Address.bits prefix.address) prefix.length)) }
        ensures refused { (plain : Plain) (at : Placement) → Stands M.NodeRead.nodes A.Address.WIDTH self.old plain at → IfErr result (λ _. Still M.NodeRead.still self.old self.new) }
        ensures always { M.NodeRead.always self.old.memory self.new.memory }
    {
        let Some(plan) = &self.plan else {
            return Err(Fault::of_table(Refusal::Shut));
        };
        let prefix = SoundPrefix::new(prefix)?;
        let mut trail = Trail::new();
        trail_to(&mut self.memory, plan, prefix, &mut trail)?;
        let hop = trail.hop.ok_or(Fault::of_table(Refusal::Absent))?;
        unmark(&mut self.memory, trail.last(), trail.position)?;
        let Climbed { front, returned } = climb(
            &mut self.memory,
            self.front,
            trail.nodes.as_slice(),
            trail.indexes.as_slice(),
        )?;
        self.front = front;
        self.required = self.required.saturating_sub(returned);
        self.routes = self.routes.saturating_sub(1);
        Ok(Deleted { hop, returned })
    }
}
