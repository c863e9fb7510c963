ghost use Rattle.std.specs.Prelude.{◌≡◌, ◌≤◌, length, None, Err, IsSome, MatchResult};
ghost use Rattle.std.specs.Option.{option_map};
ghost use Rattle.faults.specs.Numbers.{of_table};
ghost use Rattle.model.specs.Outcomes.{outcome};
ghost use Rattle.model.specs.Calls.{shut, open_with, insert, delete, lookup, exact, first, next, counts, opened, hop_is, route_is};
ghost use Rattle.routes.specs.declared.failure.Failure.TheVariants.{NoMemory};
ghost use Rattle.routes.specs.Answered.{Says, leaves};
ghost use Rattle.routes.specs.Meant.{meant};
ghost use Rattle.reference.specs.Shown.{shown, answer_of, left_of, insert_answer, delete_answer, match_answer, count_answer};

use crate::required::{missing_nodes, path_nodes};
use crate::{Counted, Deleted, Failure, Inserted, Matched, Route, RouteList};
use address::Address;
use address::prefix::Prefix;
use faults::{Fault, Refusal};
use plan::Plan;
use routes::SoundPrefix;
use routes::set::RouteSet;
use std::alloc::Global;

impl<A: Address> RouteList<A> {
    /// A shut list, for a memory of so many nodes.
    pub fn new(heap: Global, nodes: usize) -> RouteList<A>
        ensures shows { shown result ≡ shut }
        ensures size { result.nodes ≡ nodes }
    {
        RouteList {
            nodes,
            required: 0,
            plan: None,
            routes: RouteSet::new(heap),
        }
    }

    // The test that comes first: the list is open.
    fn opened(&self) -> Result<(), Fault>
        ensures { MatchResult result (λ _. IsSome self.now.plan) (λ f. (self.now.plan ≡ None) × (f ≡ of_table Refusal.Shut)) }
    {
        match self.plan {
            Some(_) => Ok(()),
            None => Err(Fault::of_table(Refusal::Shut)),
        }
    }

    /// Takes a plan and empties the list, also where it was open.
    pub fn open(&mut self, strides: &[u8]) -> Result<(), Fault>
        ensures answer { outcome (λ _. opened) result ≡ answer_of A.Address.WIDTH self.old (open_with strides.now) }
        ensures after { shown self.new ≡ left_of A.Address.WIDTH self.old (open_with strides.now) }
        ensures size { self.new.nodes ≡ self.old.nodes }
    {
        let plan = Plan::new(strides)?;
        if self.nodes == 0 {
            return Err(Fault::of_table(Refusal::Size));
        }
        self.plan = Some(plan);
        self.routes.clear();
        self.required = 1;
        Ok(())
    }

    /// Puts in a route or replaces its hop, and answers the old hop or none and the number of nodes newly required.
    pub fn insert(&mut self, prefix: Prefix<A>, hop: u16) -> Result<Inserted, Failure>
        ensures answer { Says insert_answer result (answer_of A.Address.WIDTH self.old (insert (A.Address.bits prefix.address) prefix.length hop)) }
        ensures after { shown self.new ≡ leaves result (shown self.old) (left_of A.Address.WIDTH self.old (insert (A.Address.bits prefix.address) prefix.length hop)) }
        ensures size { self.new.nodes ≡ self.old.nodes }
        ensures memory { result ≡ Err NoMemory → self.old.routes.room ≤ length self.old.routes.routes }
    {
        // The plan alone is borrowed, here and below, so that the routes can change beside it.
        let Some(plan) = &self.plan else {
            return Err(Failure::Refused(Fault::of_table(Refusal::Shut)));
        };
        let route = Route::new(prefix, hop)?;
        let taken = missing_nodes(&self.routes, plan, &route.prefix);
        if taken > self.nodes - self.required {
            return Err(Failure::Refused(Fault::of_table(Refusal::Full)));
        }
        let old = self.routes.put(route)?;
        self.required += taken;
        Ok(Inserted { old, taken })
    }

    /// Removes the route of a prefix, and answers its hop and the number of nodes no longer required.
    pub fn delete(&mut self, prefix: Prefix<A>) -> Result<Deleted, Fault>
        ensures answer { outcome delete_answer result ≡ answer_of A.Address.WIDTH self.old (delete (A.Address.bits prefix.address) prefix.length) }
        ensures after { shown self.new ≡ left_of A.Address.WIDTH self.old (delete (A.Address.bits prefix.address) prefix.length) }
        ensures size { self.new.nodes ≡ self.old.nodes }
    {
        let Some(plan) = &self.plan else {
            return Err(Fault::of_table(Refusal::Shut));
        };
        let prefix = SoundPrefix::new(prefix)?;
        let hop = self
            .routes
            .remove(prefix)
            .ok_or(Fault::of_table(Refusal::Absent))?;
        let returned = missing_nodes(&self.routes, plan, &prefix.prefix);
        self.required -= returned;
        Ok(Deleted { hop, returned })
    }

    /// The route with the longest prefix that matches the address, or none, and the number of nodes on the path.
    pub fn lookup(&self, address: A) -> Result<Matched<A>, Fault>
        ensures { outcome (match_answer A.Address.bits) result ≡ answer_of A.Address.WIDTH self.now (lookup (A.Address.bits address)) }
    {
        let Some(plan) = &self.plan else {
            return Err(Fault::of_table(Refusal::Shut));
        };
        let route = self.routes.longest_match(&address);
        let path = path_nodes(&self.routes, plan, &address);
        Ok(Matched { route, path })
    }

    /// The hop of a prefix, or none.
    pub fn exact(&self, prefix: Prefix<A>) -> Result<Option<u16>, Fault>
        ensures { outcome hop_is result ≡ answer_of A.Address.WIDTH self.now (exact (A.Address.bits prefix.address) prefix.length) }
    {
        self.opened()?;
        Ok(self.routes.hop(SoundPrefix::new(prefix)?))
    }

    /// The smallest route, or none.
    pub fn first(&self) -> Result<Option<Route<A>>, Fault>
        ensures { outcome (λ o. route_is (option_map (meant A.Address.bits) o)) result ≡ answer_of A.Address.WIDTH self.now (first) }
    {
        self.opened()?;
        Ok(self.routes.first())
    }

    /// The smallest route above a prefix, or none.
    pub fn next(&self, prefix: Prefix<A>) -> Result<Option<Route<A>>, Fault>
        ensures { outcome (λ o. route_is (option_map (meant A.Address.bits) o)) result ≡ answer_of A.Address.WIDTH self.now (next (A.Address.bits prefix.address) prefix.length) }
    {
        self.opened()?;
        Ok(self.routes.above(SoundPrefix::new(prefix)?))
    }

    /// How many routes there are, how many nodes they require, and how many are left.
    pub fn counts(&self) -> Result<Counted, Fault>
        ensures { outcome count_answer result ≡ answer_of A.Address.WIDTH self.now (counts) }
    {
        self.opened()?;
        Ok(Counted {
            routes: self.routes.as_slice().len(),
            required: self.required,
            free: self.nodes - self.required,
        })
    }
}
