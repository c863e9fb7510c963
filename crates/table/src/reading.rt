ghost use Rattle.std.specs.Prelude.{◌≡◌};
ghost use Rattle.std.specs.Option.{option_map};
ghost use Rattle.model.specs.Calls as calls;
ghost use Rattle.model.specs.Calls.{Plain, answer, hop_is, route_is};
ghost use Rattle.model.specs.Outcomes.{outcome};
ghost use Rattle.model.specs.Placements.{Placement};
ghost use Rattle.plan.specs.Strides.{strides_of};
ghost use Rattle.descent.specs.Meant.{held_route};
ghost use Rattle.table.specs.Answers.{count_answer, front_answer, match_answer, plan_answer};
ghost use Rattle.table.specs.Stands.{Stands, Still};

use crate::{Counted, Table};
use address::Address;
use address::prefix::Prefix;
use descent::{Held, Matched};
use faults::{Fault, Refusal};
use nodes::NodeWrite;
use plan::Plan;
use routes::SoundPrefix;

impl<A: Address, M: NodeWrite> Table<A, M> {
    /// The longest matching route, if any, and how many nodes are on the path.
    pub fn lookup(&mut self, address: A) -> Result<Matched<A>, Fault>
        ensures answer { (plain : Plain) (at : Placement) → Stands M.NodeRead.nodes A.Address.WIDTH self.old plain at → outcome (match_answer A.Address.bits) result ≡ answer A.Address.WIDTH (M.NodeRead.nodes self.old.memory).size plain (calls.lookup (A.Address.bits address)) }
        ensures after { (plain : Plain) (at : Placement) → Stands M.NodeRead.nodes A.Address.WIDTH self.old plain at → Stands M.NodeRead.nodes A.Address.WIDTH self.new plain at }
        ensures still { Still M.NodeRead.still self.old self.new }
    {
        let Some(plan) = &self.plan else {
            return Err(Fault::of_table(Refusal::Shut));
        };
        descent::lookup(&mut self.memory, plan, address)
    }

    /// The hop of a prefix, or none.
    pub fn exact(&mut self, prefix: Prefix<A>) -> Result<Option<u16>, Fault>
        ensures answer { (plain : Plain) (at : Placement) → Stands M.NodeRead.nodes A.Address.WIDTH self.old plain at → outcome (λ hop. hop_is hop) result ≡ answer A.Address.WIDTH (M.NodeRead.nodes self.old.memory).size plain (calls.exact (A.Address.bits prefix.address) prefix.length) }
        ensures after { (plain : Plain) (at : Placement) → Stands M.NodeRead.nodes A.Address.WIDTH self.old plain at → Stands M.NodeRead.nodes A.Address.WIDTH self.new plain at }
        ensures still { Still M.NodeRead.still self.old self.new }
    {
        let Some(plan) = &self.plan else {
            return Err(Fault::of_table(Refusal::Shut));
        };
        let prefix = SoundPrefix::new(prefix)?;
        descent::exact(&mut self.memory, plan, prefix)
    }

    /// The smallest route, or none.
    pub fn first(&mut self) -> Result<Option<Held<A>>, Fault>
        ensures answer { (plain : Plain) (at : Placement) → Stands M.NodeRead.nodes A.Address.WIDTH self.old plain at → outcome (λ r. route_is (option_map (held_route A.Address.bits) r)) result ≡ answer A.Address.WIDTH (M.NodeRead.nodes self.old.memory).size plain (calls.first) }
        ensures after { (plain : Plain) (at : Placement) → Stands M.NodeRead.nodes A.Address.WIDTH self.old plain at → Stands M.NodeRead.nodes A.Address.WIDTH self.new plain at }
        ensures still { Still M.NodeRead.still self.old self.new }
    {
        let Some(plan) = &self.plan else {
            return Err(Fault::of_table(Refusal::Shut));
        };
        descent::first(&mut self.memory, plan)
    }

    /// The smallest route above a prefix, or none.
    pub fn next(&mut self, prefix: Prefix<A>) -> Result<Option<Held<A>>, Fault>
        ensures answer { (plain : Plain) (at : Placement) → Stands M.NodeRead.nodes A.Address.WIDTH self.old plain at → outcome (λ r. route_is (option_map (held_route A.Address.bits) r)) result ≡ answer A.Address.WIDTH (M.NodeRead.nodes self.old.memory).size plain (calls.next (A.Address.bits prefix.address) prefix.length) }
        ensures after { (plain : Plain) (at : Placement) → Stands M.NodeRead.nodes A.Address.WIDTH self.old plain at → Stands M.NodeRead.nodes A.Address.WIDTH self.new plain at }
        ensures still { Still M.NodeRead.still self.old self.new }
    {
        let Some(plan) = &self.plan else {
            return Err(Fault::of_table(Refusal::Shut));
        };
        let prefix = SoundPrefix::new(prefix)?;
        descent::next(&mut self.memory, plan, prefix)
    }

    /// How many routes there are, how many nodes they require, and how many are left.
    pub fn counts(&mut self) -> Result<Counted, Fault>
        ensures answer { (plain : Plain) (at : Placement) → Stands M.NodeRead.nodes A.Address.WIDTH self.old plain at → outcome (count_answer) result ≡ answer A.Address.WIDTH (M.NodeRead.nodes self.old.memory).size plain (calls.counts) }
        ensures after { (plain : Plain) (at : Placement) → Stands M.NodeRead.nodes A.Address.WIDTH self.old plain at → Stands M.NodeRead.nodes A.Address.WIDTH self.new plain at }
        ensures still { Still M.NodeRead.still self.old self.new }
    {
        if self.plan.is_none() {
            return Err(Fault::of_table(Refusal::Shut));
        }
        let size = self.memory.size() as usize;
        Ok(Counted {
            routes: self.routes,
            required: self.required,
            free: size.saturating_sub(self.required),
        })
    }

    /// The plan, while the table is open.
    pub fn plan(&self) -> Option<&Plan<A>>
        ensures { (plain : Plain) (at : Placement) → Stands M.NodeRead.nodes A.Address.WIDTH self.now plain at → option_map (λ p. strides_of p.now) result ≡ plan_answer plain }
    {
        self.plan.as_ref()
    }

    /// The node at the front of the chain of free nodes, 0 where it is empty.
    pub fn front(&self) -> Result<u32, Fault>
        ensures { (plain : Plain) (at : Placement) → Stands M.NodeRead.nodes A.Address.WIDTH self.now plain at → outcome (λ n. n) result ≡ front_answer plain at }
    {
        if self.plan.is_none() {
            return Err(Fault::of_table(Refusal::Shut));
        }
        Ok(self.front)
    }
}
