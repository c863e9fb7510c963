ghost use Rattle.std.specs.Prelude.{◌≡◌, ◌≤◌, ℕ, List, [], None, Ok, IfErr};
ghost use Rattle.model.specs.Calls as calls;
ghost use Rattle.model.specs.Calls.{Plain, after, answer, holding, loaded};
ghost use Rattle.model.specs.Outcomes.{granted, outcome};
ghost use Rattle.model.specs.Placements.{Placement, after_inserts, after_load, opened_placement};
ghost use Rattle.model.specs.Required.{required};
ghost use Rattle.model.specs.Routes as model;
ghost use Rattle.routes.specs.InOrder.{InOrder};
ghost use Rattle.sheets.specs.Held.{to_read};
ghost use Rattle.table.specs.Placed.{placed};
ghost use Rattle.table.specs.Stands.{Stands, Still};

use crate::Table;
use address::Address;
use faults::{Fault, Refusal};
use nodes::NodeWrite;
use sheets::{Routes, Sheet};

impl<A: Address, M: NodeWrite> Table<A, M> {
    // Lets go of all routes; the plan stays.
    fn empty(&mut self) -> Result<(), Fault>
        ensures emptied { (plan : List ℕ) (held : model.Routes) (at : Placement) → Stands M.NodeRead.nodes A.Address.WIDTH self.old (holding plan held) at → 1 ≤ (M.NodeRead.nodes self.old.memory).size → (result ≡ Ok tt) × Stands M.NodeRead.nodes A.Address.WIDTH self.new (holding plan []) (opened_placement (M.NodeRead.nodes self.old.memory).size) }
        ensures always { M.NodeRead.always self.old.memory self.new.memory }
    {
        self.front = growth::open(&mut self.memory)?;
        self.routes = 0;
        self.required = 1;
        Ok(())
    }

    // Inserts so many routes of a sheet, one after the other.
    fn insert_each(&mut self, count: u32, routes: &mut Routes<'_, A>) -> Result<(), Fault>
        ensures inserted { (plan : List ℕ) (at : Placement) (held : model.Routes) (end : ℕ) → Stands M.NodeRead.nodes A.Address.WIDTH self.old (holding plan []) at → routes.old.last ≡ None → to_read A.Address.WIDTH count routes.old ≡ granted (held, end) → InOrder A.Address.WIDTH held → required plan held ≤ (M.NodeRead.nodes self.old.memory).size → (result ≡ Ok tt) × Stands M.NodeRead.nodes A.Address.WIDTH self.new (holding plan held) (after_inserts plan held at) }
        ensures always { M.NodeRead.always self.old.memory self.new.memory }
    {
        for _ in 0..count {
            let route = routes.next()?;
            self.insert(route.prefix, route.hop)?;
        }
        Ok(())
    }

    // Lets go of all routes and inserts so many of a sheet.
    fn refill(&mut self, count: u32, routes: &mut Routes<'_, A>) -> Result<(), Fault>
        ensures refilled { (plan : List ℕ) (was : model.Routes) (at : Placement) (held : model.Routes) (end : ℕ) → Stands M.NodeRead.nodes A.Address.WIDTH self.old (holding plan was) at → routes.old.last ≡ None → to_read A.Address.WIDTH count routes.old ≡ granted (held, end) → InOrder A.Address.WIDTH held → required plan held ≤ (M.NodeRead.nodes self.old.memory).size → (result ≡ Ok tt) × Stands M.NodeRead.nodes A.Address.WIDTH self.new (holding plan held) (after_load (M.NodeRead.nodes self.old.memory).size plan held) }
        ensures always { M.NodeRead.always self.old.memory self.new.memory }
    {
        self.empty()?;
        self.insert_each(count, routes)
    }

    // Puts the routes of a sheet in the place of those that are held, and answers the sheet's number. Refused as the sheet is where it cannot be read, and then as
    // *full* where its routes require more nodes than the memory has. Not offered yet.
    fn load(&mut self, bytes: &[u8]) -> Result<u64, Fault>
        ensures answer { (plain : Plain) (at : Placement) → Stands M.NodeRead.nodes A.Address.WIDTH self.old plain at → outcome (λ number. loaded number) result ≡ answer A.Address.WIDTH (M.NodeRead.nodes self.old.memory).size plain (calls.load bytes.now) }
        ensures after { (plain : Plain) (at : Placement) → Stands M.NodeRead.nodes A.Address.WIDTH self.old plain at → Stands M.NodeRead.nodes A.Address.WIDTH self.new (after A.Address.WIDTH (M.NodeRead.nodes self.old.memory).size plain (calls.load bytes.now)) (placed A.Address.WIDTH (M.NodeRead.nodes self.old.memory).size plain at (calls.load bytes.now)) }
        ensures refused { (plain : Plain) (at : Placement) → Stands M.NodeRead.nodes A.Address.WIDTH self.old plain at → IfErr result (λ _. Still M.NodeRead.still self.old self.new) }
        ensures always { M.NodeRead.always self.old.memory self.new.memory }
    {
        let Some(plan) = &self.plan else {
            return Err(Fault::of_table(Refusal::Shut));
        };
        let mut sheet = Sheet::read(bytes, plan)?;
        if sheet.required > self.memory.size() as usize {
            return Err(Fault::of_table(Refusal::Full));
        }
        self.refill(sheet.count, &mut sheet.routes)?;
        Ok(sheet.number)
    }
}
