ghost use Rattle.std.specs.Prelude.{◌≡◌, ◌&&◌, true, false, length, map, nat_le};
ghost use mathlib.Core.List.{Permᴰ};
ghost use Rattle.model.specs.Calls.{Plain, after_all, holding, shut};
ghost use Rattle.model.specs.Placements.{Placement};
ghost use Rattle.model.specs.Routes.{Routes};
ghost use Rattle.routes.specs.Meant.{meant};
ghost use Rattle.table.specs.Placed.{placed_all};
ghost use Rattle.table.specs.Stands.{Stands};
ghost use Rattle.history.specs.Asked.{call_of, inserts};
ghost use Rattle.history.specs.Runs.{Answered};
ghost use Rattle.history.specs.Twins.{CannotBeTold};

use crate::course::run;
use crate::{Call, Granted};
use address::Address;
use faults::Fault;
use nodes::NodeWrite;
use routes::Route;
use table::Table;

/// Two tables that were put the same calls in the end, and whether every answer had its place.
#[derive(Drop)]
pub struct Both<A: Address, P: NodeWrite, Q: NodeWrite> {
    pub first: Table<A, P>,
    pub second: Table<A, Q>,
    pub done: bool,
}

// Inserts routes, one after the other, whatever each insert answers.
fn insert_each<A: Address, M: NodeWrite>(table: &mut Table<A, M>, routes: &[Route<A>])
    ensures after { (plain : Plain) (at : Placement) → Stands M.NodeRead.nodes A.Address.WIDTH table.old plain at → Stands M.NodeRead.nodes A.Address.WIDTH table.new (after_all A.Address.WIDTH (M.NodeRead.nodes table.old.memory).size plain (inserts A.Address.bits routes.now)) (placed_all A.Address.WIDTH (M.NodeRead.nodes table.old.memory).size plain at (inserts A.Address.bits routes.now)) }
    ensures always { M.NodeRead.always table.old.memory table.new.memory }
{
    for route in routes {
        let _ = table.insert(route.prefix, route.hop);
    }
}

/// Makes two tables. The first, over a memory, meets a history of calls. The second, over another memory, is opened by a plan and fed routes. Then both are put
/// the same further calls, each answer in its place. Where the first is open in the end of its history, with this plan and these routes in any order, and both
/// memories have as many nodes, the two cannot be told apart.
pub fn twins<A: Address, P: NodeWrite, Q: NodeWrite>(
    first: P,
    second: Q,
    history: &[Call<A>],
    past: &mut [Result<Granted<A>, Fault>],
    plan: &[u8],
    routes: &[Route<A>],
    further: &[Call<A>],
    answers: &mut [Result<Granted<A>, Fault>],
    answers_of_second: &mut [Result<Granted<A>, Fault>],
) -> Both<A, P, Q>
    ensures done { result.done ≡ (nat_le (length history.now) (length past.old) && (nat_le (length further.now) (length answers.old) && nat_le (length further.now) (length answers_of_second.old))) }
    ensures past { result.done ≡ true → Answered A.Address.bits A.Address.WIDTH (P.NodeRead.nodes first).size shut history.now past.old past.new }
    ensures without_room { (nat_le (length history.now) (length past.old) ≡ false → past.new ≡ past.old) × ((nat_le (length further.now) (length answers.old) ≡ false → answers.new ≡ answers.old) × (nat_le (length further.now) (length answers_of_second.old) ≡ false → answers_of_second.new ≡ answers_of_second.old)) }
    ensures always { P.NodeRead.always first result.first.memory × Q.NodeRead.always second result.second.memory }
    ensures history_cannot_be_told { (held : Routes) → result.done ≡ true → (P.NodeRead.nodes first).size ≡ (Q.NodeRead.nodes second).size → after_all A.Address.WIDTH (P.NodeRead.nodes first).size shut (map (call_of A.Address.bits) history.now) ≡ holding plan.now held → Permᴰ held (map (meant A.Address.bits) routes.now) → CannotBeTold P.NodeRead.nodes Q.NodeRead.nodes A.Address.bits A.Address.WIDTH (P.NodeRead.nodes first).size (holding plan.now held) further.now answers.old answers.new result.first answers_of_second.old answers_of_second.new result.second }
{
    let mut one = Table::new(first);
    let met = run(&mut one, history, past);
    let mut two = Table::new(second);
    let _ = two.open(plan);
    insert_each(&mut two, routes);
    let told = run(&mut one, further, answers);
    let told_of_second = run(&mut two, further, answers_of_second);
    Both {
        first: one,
        second: two,
        done: met & (told & told_of_second),
    }
}
