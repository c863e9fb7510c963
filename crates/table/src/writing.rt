ghost use Rattle.std.specs.Prelude.{◌≡◌, ◌+◌, ◌≤◌, length, nat_le, IfErr};
ghost use Rattle.model.specs.Calls as calls;
ghost use Rattle.model.specs.Calls.{Plain, answer};
ghost use Rattle.model.specs.Outcomes.{granted, outcome};
ghost use Rattle.model.specs.Placements.{Placement};
ghost use Rattle.model.specs.Routes.{Routes, last_hop};
ghost use Rattle.model.specs.Sheets.{route_bytes, routes_bytes};
ghost use Rattle.plan.specs.Strides.{strides_of};
ghost use Rattle.walks.specs.Shows.{Shows};
ghost use Rattle.descent.specs.Meant.{held_route};
ghost use Rattle.messages.specs.Puts.{beside, put_in};
ghost use Rattle.table.specs.Answers.{written_answer};
ghost use Rattle.table.specs.Stands.{Stands, Still};

use crate::Table;
use address::Address;
use descent::Held;
use faults::{Fault, Refusal};
use messages::writing::{put_route, route_size};
use nodes::{NodeRead, NodeWrite};
use plan::Plan;
use routes::Route;
use sheets::LAST_NUMBER;
use sheets::write::put_head;

impl<A: Address, M: NodeWrite> Table<A, M> {
    // Puts the sheet of the routes, under a number, at the front of an output and answers its length; the bytes behind it stay. Refused as *number*
    // where that is above 2^62, and as *narrow* where the sheet does not fit. Not offered yet.
    fn write(&mut self, number: u64, output: &mut [u8]) -> Result<usize, Fault>
        ensures answer { (plain : Plain) (at : Placement) → Stands M.NodeRead.nodes A.Address.WIDTH self.old plain at → outcome (written_answer output.new) result ≡ answer A.Address.WIDTH (M.NodeRead.nodes self.old.memory).size plain (calls.write number output.old) }
        ensures after { (plain : Plain) (at : Placement) → Stands M.NodeRead.nodes A.Address.WIDTH self.old plain at → Stands M.NodeRead.nodes A.Address.WIDTH self.new plain at }
        ensures refused { (plain : Plain) (at : Placement) → Stands M.NodeRead.nodes A.Address.WIDTH self.old plain at → IfErr result (λ _. output.new ≡ output.old) }
        ensures still { Still M.NodeRead.still self.old self.new }
    {
        let Some(plan) = &self.plan else {
            return Err(Fault::of_table(Refusal::Shut));
        };
        if number > LAST_NUMBER {
            return Err(Fault::of_table(Refusal::Number));
        }
        if !has_room(&mut self.memory, plan, self.routes, output.len())? {
            return Err(Fault::of_table(Refusal::Narrow));
        }
        let place = put_head(output, number, plan, self.routes)?;
        put_routes(&mut self.memory, plan, self.routes, output, place)
    }
}

// Whether a sheet of the routes, so many, has room in so many bytes.
fn has_room<A: Address, M: NodeRead>(
    memory: &mut M,
    plan: &Plan<A>,
    count: usize,
    room: usize,
) -> Result<bool, Fault>
    ensures room { (routes : Routes) (at : Placement) → Shows A.Address.WIDTH (M.NodeRead.nodes memory.old) (strides_of plan.now) routes at → count ≡ length routes → outcome (λ t. t) result ≡ granted (nat_le (13 + length (strides_of plan.now) + length (routes_bytes routes)) room) }
    ensures still { M.NodeRead.still memory.old memory.new }
{
    let head = 13 + plan.strides().len();
    if head > room {
        return Ok(false);
    }
    let mut left = room - head;
    let mut next = descent::first(memory, plan)?;
    for _ in 0..count {
        let Some(held) = next else {
            break;
        };
        let size = route_size(held.prefix.prefix.length);
        if size > left {
            return Ok(false);
        }
        left -= size;
        next = descent::next(memory, plan, held.prefix)?;
    }
    Ok(true)
}

// Puts in the routes, so many, one behind the other.
fn put_routes<A: Address, M: NodeRead>(
    memory: &mut M,
    plan: &Plan<A>,
    count: usize,
    output: &mut [u8],
    place: usize,
) -> Result<usize, Fault>
    ensures put { (routes : Routes) (at : Placement) → Shows A.Address.WIDTH (M.NodeRead.nodes memory.old) (strides_of plan.now) routes at → count ≡ length routes → place + length (routes_bytes routes) ≤ length output.old → outcome (beside output.new) result ≡ put_in place (routes_bytes routes) output.old }
    ensures still { M.NodeRead.still memory.old memory.new }
{
    let mut place = place;
    let mut next = descent::first(memory, plan)?;
    for _ in 0..count {
        let Some(held) = next else {
            break;
        };
        place = put_held(output, place, held)?;
        next = descent::next(memory, plan, held.prefix)?;
    }
    Ok(place)
}

// Puts in a route, which a memory may hold with a hop out of range, and answers the place behind it.
fn put_held<A: Address>(output: &mut [u8], place: usize, held: Held<A>) -> Result<usize, Fault>
    ensures { held.hop ≤ last_hop → outcome (beside output.new) result ≡ put_in place (route_bytes (held_route A.Address.bits held)) output.old }
{
    let route = Route::new(held.prefix.prefix, held.hop)?;
    put_route(output, place, &route)
}
