ghost use Rattle.std.specs.Prelude.{◌≡◌, ◌≤◌, true, Err, IfErr, MatchResult};
ghost use Rattle.model.specs.Calls.{write, load, loaded};
ghost use Rattle.model.specs.Outcomes.{is_granted, outcome};
ghost use Rattle.routes.specs.declared.failure.Failure.TheVariants.{NoMemory};
ghost use Rattle.routes.specs.Answered.{Says, leaves};
ghost use Rattle.routes.specs.InOrder.{InOrder};
ghost use Rattle.sheets.specs.Held.{read_or_none, to_read};
ghost use Rattle.reference.specs.Shown.{shown, answer_of, left_of, route_count, written_answer};

use crate::{Failure, RouteList};
use address::Address;
use faults::{Fault, Refusal};
use routes::set::RouteSet;
use sheets::{Routes, Sheet};
use std::alloc::Global;

// A set of so many routes, which were read before.
fn set_of<A: Address>(
    heap: Global,
    count: u32,
    routes: &mut Routes<'_, A>,
) -> Result<RouteSet<A>, Failure>
    requires read { is_granted (to_read A.Address.WIDTH count routes.old) ≡ true }
    requires ordered { InOrder A.Address.WIDTH (read_or_none (to_read A.Address.WIDTH count routes.old)) }
    ensures { MatchResult result (λ set. set.routes ≡ read_or_none (to_read A.Address.WIDTH count routes.old)) (λ f. (f ≡ NoMemory) × (1 ≤ count)) }
{
    let mut set = RouteSet::new(heap);
    for _ in 0..count {
        let route = routes.next()?;
        set.put(route)?;
    }
    Ok(set)
}

impl<A: Address> RouteList<A> {
    // Not offered yet. Puts all routes, as a sheet under a number, at the front of an output, and answers its length; a call that is refused writes nothing.
    fn write(&self, number: u64, output: &mut [u8]) -> Result<usize, Fault>
        ensures answer { outcome (written_answer output.new) result ≡ answer_of A.Address.WIDTH self.now (write number output.old) }
        ensures refused { IfErr result (λ _. output.new ≡ output.old) }
    {
        let Some(plan) = &self.plan else {
            return Err(Fault::of_table(Refusal::Shut));
        };
        sheets::write::write(number, plan, self.routes.as_slice(), output)
    }

    // Not offered yet. Keeps the plan and takes the routes of a sheet in the place of those that there are, and answers its number. A call that is refused,
    // or that finds no memory, changes nothing.
    fn load(&mut self, heap: Global, bytes: &[u8]) -> Result<u64, Failure>
        ensures answer { Says (λ n. loaded n) result (answer_of A.Address.WIDTH self.old (load bytes.now)) }
        ensures after { shown self.new ≡ leaves result (shown self.old) (left_of A.Address.WIDTH self.old (load bytes.now)) }
        ensures size { self.new.nodes ≡ self.old.nodes }
        ensures memory { result ≡ Err NoMemory → 1 ≤ route_count (left_of A.Address.WIDTH self.old (load bytes.now)) }
    {
        let Some(plan) = &self.plan else {
            return Err(Failure::Refused(Fault::of_table(Refusal::Shut)));
        };
        let mut sheet = Sheet::read(bytes, plan)?;
        if sheet.required > self.nodes {
            return Err(Failure::Refused(Fault::of_table(Refusal::Full)));
        }
        let set = set_of(heap, sheet.count, &mut sheet.routes)?;
        self.routes = set;
        self.required = sheet.required;
        Ok(sheet.number)
    }
}
