ghost use Rattle.std.specs.Prelude.{◌≡◌, IfErr};
ghost use Rattle.model.specs.Calls as calls;
ghost use Rattle.model.specs.Calls.{Plain, after, answer};
ghost use Rattle.model.specs.Outcomes.{outcome};
ghost use Rattle.model.specs.Placements.{Placement};
ghost use Rattle.table.specs.Answers.{insert_answer};
ghost use Rattle.table.specs.Placed.{placed};
ghost use Rattle.table.specs.Stands.{Stands, Still};

use crate::{Inserted, Table};
use address::Address;
use address::prefix::Prefix;
use descent::{Trail, trail_to};
use faults::{Fault, Refusal};
use growth::enter;
use nodes::NodeWrite;
use routes::{Route, SoundPrefix};

impl<A: Address, M: NodeWrite> Table<A, M> {
    /// Puts in a route, or replaces its hop. Refused as *full* where the routes that it would leave require more nodes than the memory has.
    pub fn insert(&mut self, prefix: Prefix<A>, hop: u16) -> Result<Inserted, Fault>
        ensures answer { (plain : Plain) (at : Placement) → Stands M.NodeRead.nodes A.Address.WIDTH self.old plain at → outcome insert_answer result ≡ answer A.Address.WIDTH (M.NodeRead.nodes self.old.memory).size plain (calls.insert (A.Address.bits prefix.address) prefix.length hop) }
        ensures after { (plain : Plain) (at : Placement) → Stands M.NodeRead.nodes A.Address.WIDTH self.old plain at → Stands M.NodeRead.nodes A.Address.WIDTH self.new (after A.Address.WIDTH (M.NodeRead.nodes self.old.memory).size plain (calls.insert (A.Address.bits prefix.address) prefix.length hop)) (placed A.Address.WIDTH (M.NodeRead.nodes self.old.memory).size plain at (calls.insert (A.Address.bits prefix.address) prefix.length hop)) }
        ensures refused { (plain : Plain) (at : Placement) → Stands M.NodeRead.nodes A.Address.WIDTH self.old plain at → IfErr result (λ _. Still M.NodeRead.still self.old self.new) }
        ensures always { M.NodeRead.always self.old.memory self.new.memory }
    {
        let Some(plan) = &self.plan else {
            return Err(Fault::of_table(Refusal::Shut));
        };
        let Route { prefix, hop } = Route::new(prefix, hop)?;
        let mut trail = Trail::new();
        trail_to(&mut self.memory, plan, SoundPrefix { prefix }, &mut trail)?;
        let missing = trail.missing();
        let taken = missing.len();
        let size = self.memory.size() as usize;
        if taken > size.saturating_sub(self.required) {
            return Err(Fault::of_table(Refusal::Full));
        }
        self.front = enter(
            &mut self.memory,
            self.front,
            trail.last(),
            missing,
            trail.position,
            hop,
        )?;
        self.required = self.required.saturating_add(taken);
        self.routes = self.routes.saturating_add(usize::from(trail.hop.is_none()));
        Ok(Inserted {
            old: trail.hop,
            taken,
        })
    }
}
