ghost use Rattle.std.specs.Prelude.{◌≡◌, ◌≢◌, ◌≤◌, length, Err};
ghost use Rattle.std.specs.Option.{option_map};
ghost use Rattle.model.specs.Calls as calls;
ghost use Rattle.model.specs.Calls.{hop_is, opened, route_is, shut};
ghost use Rattle.reference.specs.Shown.{answer_of, count_answer, delete_answer, insert_answer, left_of, match_answer, shown};
ghost use Rattle.routes.specs.Meant.{meant};
ghost use Rattle.table.specs.Stands.{Still};
ghost use Rattle.pair.specs.Agree.{Agree};
ghost use Rattle.pair.specs.Told.{OnRefusal, Same, Tells, left};
ghost use Rattle.pair.specs.declared.failed.Failed.TheVariants.{NoMemory};

use crate::compared::{compared, settled};
use crate::{Failed, Pair};
use address::Address;
use address::prefix::Prefix;
use nodes::NodeWrite;
use reference::{Counted, Deleted, Inserted, Matched, RouteList};
use routes::Route;
use std::alloc::Global;
use table::Table;

impl<A: Address, M: NodeWrite> Pair<A, M> {
    /// A shut table over a memory, whatever that holds, and a shut list beside it.
    pub fn new(heap: Global, mut memory: M) -> Pair<A, M>
        ensures shows { shown result.list ≡ shut }
        ensures size { result.list.nodes ≡ (M.NodeRead.nodes memory).size }
        ensures agree { Agree M.NodeRead.nodes A.Address.WIDTH result }
    {
        let nodes = memory.size() as usize;
        Pair {
            list: RouteList::new(heap, nodes),
            table: Table::new(memory),
        }
    }

    /// Opens both by a plan, or opens them anew.
    #[tactic(auto, using(crate::proofs::Asked::refusal_keeps))]
    pub fn open(&mut self, strides: &[u8]) -> Result<(), Failed>
        ensures answer { Tells (λ _. opened) result (answer_of A.Address.WIDTH self.old.list (calls.open_with strides.now)) }
        ensures memory { result ≢ Err NoMemory }
        ensures after { shown self.new.list ≡ left_of A.Address.WIDTH self.old.list (calls.open_with strides.now) }
        ensures size { self.new.list.nodes ≡ self.old.list.nodes }
        ensures agree { Agree M.NodeRead.nodes A.Address.WIDTH self.old → Agree M.NodeRead.nodes A.Address.WIDTH self.new × Same result }
        ensures always { M.NodeRead.always self.old.table.memory self.new.table.memory }
        ensures refused { OnRefusal result (Still M.NodeRead.still self.old.table self.new.table) }
    {
        let said = self.list.open(strides);
        compared(said, self.table.open(strides))
    }

    /// Puts in a route, or replaces its hop.
    #[tactic(auto, using(crate::proofs::Asked::left_then, crate::proofs::Asked::refusal_keeps))]
    pub fn insert(&mut self, prefix: Prefix<A>, hop: u16) -> Result<Inserted, Failed>
        ensures answer { Tells insert_answer result (answer_of A.Address.WIDTH self.old.list (calls.insert (A.Address.bits prefix.address) prefix.length hop)) }
        ensures memory { result ≡ Err NoMemory → self.old.list.routes.room ≤ length self.old.list.routes.routes }
        ensures after { shown self.new.list ≡ left result (shown self.old.list) (left_of A.Address.WIDTH self.old.list (calls.insert (A.Address.bits prefix.address) prefix.length hop)) }
        ensures size { self.new.list.nodes ≡ self.old.list.nodes }
        ensures agree { Agree M.NodeRead.nodes A.Address.WIDTH self.old → Agree M.NodeRead.nodes A.Address.WIDTH self.new × Same result }
        ensures always { M.NodeRead.always self.old.table.memory self.new.table.memory }
        ensures refused { Agree M.NodeRead.nodes A.Address.WIDTH self.old → OnRefusal result (Still M.NodeRead.still self.old.table self.new.table) }
    {
        let said = settled(self.list.insert(prefix, hop))?;
        compared(said, self.table.insert(prefix, hop))
    }

    /// Removes the route of a prefix.
    #[tactic(auto, using(crate::proofs::Asked::refusal_keeps))]
    pub fn delete(&mut self, prefix: Prefix<A>) -> Result<Deleted, Failed>
        ensures answer { Tells delete_answer result (answer_of A.Address.WIDTH self.old.list (calls.delete (A.Address.bits prefix.address) prefix.length)) }
        ensures memory { result ≢ Err NoMemory }
        ensures after { shown self.new.list ≡ left_of A.Address.WIDTH self.old.list (calls.delete (A.Address.bits prefix.address) prefix.length) }
        ensures size { self.new.list.nodes ≡ self.old.list.nodes }
        ensures agree { Agree M.NodeRead.nodes A.Address.WIDTH self.old → Agree M.NodeRead.nodes A.Address.WIDTH self.new × Same result }
        ensures always { M.NodeRead.always self.old.table.memory self.new.table.memory }
        ensures refused { Agree M.NodeRead.nodes A.Address.WIDTH self.old → OnRefusal result (Still M.NodeRead.still self.old.table self.new.table) }
    {
        let said = self.list.delete(prefix);
        compared(said, self.table.delete(prefix))
    }

    /// The longest matching route, if any, and how many nodes are on the path.
    pub fn lookup(&mut self, address: A) -> Result<Matched<A>, Failed>
        ensures answer { Tells (match_answer A.Address.bits) result (answer_of A.Address.WIDTH self.old.list (calls.lookup (A.Address.bits address))) }
        ensures memory { result ≢ Err NoMemory }
        ensures list { self.new.list ≡ self.old.list }
        ensures agree { Agree M.NodeRead.nodes A.Address.WIDTH self.old → Agree M.NodeRead.nodes A.Address.WIDTH self.new × Same result }
        ensures still { Still M.NodeRead.still self.old.table self.new.table }
    {
        let said = self.list.lookup(address);
        compared(said, self.table.lookup(address))
    }

    /// The hop of a prefix, or none.
    pub fn exact(&mut self, prefix: Prefix<A>) -> Result<Option<u16>, Failed>
        ensures answer { Tells (λ hop. hop_is hop) result (answer_of A.Address.WIDTH self.old.list (calls.exact (A.Address.bits prefix.address) prefix.length)) }
        ensures memory { result ≢ Err NoMemory }
        ensures list { self.new.list ≡ self.old.list }
        ensures agree { Agree M.NodeRead.nodes A.Address.WIDTH self.old → Agree M.NodeRead.nodes A.Address.WIDTH self.new × Same result }
        ensures still { Still M.NodeRead.still self.old.table self.new.table }
    {
        let said = self.list.exact(prefix);
        compared(said, self.table.exact(prefix))
    }

    /// The smallest route, or none.
    pub fn first(&mut self) -> Result<Option<Route<A>>, Failed>
        ensures answer { Tells (λ found. route_is (option_map (meant A.Address.bits) found)) result (answer_of A.Address.WIDTH self.old.list (calls.first)) }
        ensures memory { result ≢ Err NoMemory }
        ensures list { self.new.list ≡ self.old.list }
        ensures agree { Agree M.NodeRead.nodes A.Address.WIDTH self.old → Agree M.NodeRead.nodes A.Address.WIDTH self.new × Same result }
        ensures still { Still M.NodeRead.still self.old.table self.new.table }
    {
        let said = self.list.first();
        compared(said, self.table.first())
    }

    /// The smallest route above a prefix, or none.
    pub fn next(&mut self, prefix: Prefix<A>) -> Result<Option<Route<A>>, Failed>
        ensures answer { Tells (λ found. route_is (option_map (meant A.Address.bits) found)) result (answer_of A.Address.WIDTH self.old.list (calls.next (A.Address.bits prefix.address) prefix.length)) }
        ensures memory { result ≢ Err NoMemory }
        ensures list { self.new.list ≡ self.old.list }
        ensures agree { Agree M.NodeRead.nodes A.Address.WIDTH self.old → Agree M.NodeRead.nodes A.Address.WIDTH self.new × Same result }
        ensures still { Still M.NodeRead.still self.old.table self.new.table }
    {
        let said = self.list.next(prefix);
        compared(said, self.table.next(prefix))
    }

    /// How many routes there are, how many nodes they require, and how many are left.
    pub fn counts(&mut self) -> Result<Counted, Failed>
        ensures answer { Tells count_answer result (answer_of A.Address.WIDTH self.old.list (calls.counts)) }
        ensures memory { result ≢ Err NoMemory }
        ensures list { self.new.list ≡ self.old.list }
        ensures agree { Agree M.NodeRead.nodes A.Address.WIDTH self.old → Agree M.NodeRead.nodes A.Address.WIDTH self.new × Same result }
        ensures still { Still M.NodeRead.still self.old.table self.new.table }
    {
        let said = self.list.counts();
        compared(said, self.table.counts())
    }
}
