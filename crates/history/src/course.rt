ghost use Rattle.std.specs.Prelude.{◌≡◌, IfErr, ◌<◌, true, false, length, nat_le, slice_set};
ghost use Rattle.model.specs.Calls.{Plain, after, answer};
ghost use Rattle.model.specs.Outcomes.{outcome};
ghost use Rattle.model.specs.Placements.{Placement};
ghost use Rattle.table.specs.Placed.{placed};
ghost use Rattle.table.specs.Stands.{Stands, Still};
ghost use Rattle.history.specs.Asked.{call_of, said};
ghost use Rattle.history.specs.Runs.{Ran};

use crate::{Call, Granted};
use address::Address;
use faults::Fault;
use nodes::NodeWrite;
use table::Table;

/// Puts a call to a table.
pub fn perform<A: Address, M: NodeWrite>(
    table: &mut Table<A, M>,
    call: &Call<A>,
) -> Result<Granted<A>, Fault>
    ensures answer { (plain : Plain) (at : Placement) → Stands M.NodeRead.nodes A.Address.WIDTH table.old plain at → outcome (said A.Address.bits) result ≡ answer A.Address.WIDTH (M.NodeRead.nodes table.old.memory).size plain (call_of A.Address.bits call.now) }
    ensures after { (plain : Plain) (at : Placement) → Stands M.NodeRead.nodes A.Address.WIDTH table.old plain at → Stands M.NodeRead.nodes A.Address.WIDTH table.new (after A.Address.WIDTH (M.NodeRead.nodes table.old.memory).size plain (call_of A.Address.bits call.now)) (placed A.Address.WIDTH (M.NodeRead.nodes table.old.memory).size plain at (call_of A.Address.bits call.now)) }
    ensures refused { (plain : Plain) (at : Placement) → Stands M.NodeRead.nodes A.Address.WIDTH table.old plain at → IfErr result (λ _. Still M.NodeRead.still table.old table.new) }
    ensures always { M.NodeRead.always table.old.memory table.new.memory }
{
    let granted = match *call {
        Call::Open(strides) => {
            table.open(strides)?;
            Granted::Opened
        }
        Call::Insert(prefix, hop) => Granted::Inserted(table.insert(prefix, hop)?),
        Call::Delete(prefix) => Granted::Deleted(table.delete(prefix)?),
        Call::Lookup(address) => Granted::Matched(table.lookup(address)?),
        Call::Exact(prefix) => Granted::HopIs(table.exact(prefix)?),
        Call::First => Granted::RouteIs(table.first()?),
        Call::Next(prefix) => Granted::RouteIs(table.next(prefix)?),
        Call::Counts => Granted::Counted(table.counts()?),
    };
    Ok(granted)
}

// Of any type, as the bound of an index is found for a type by name, and not for one with so many parts.
fn replace<T: Copy>(items: &mut [T], i: usize, item: T)
    requires { i < length items.old }
    ensures { items.new ≡ slice_set items.old i item }
{
    items[i] = item;
}

/// Puts calls to a table, one after the other, each answer in its place. Where the answers have no room, nothing is done; answers whether they had.
pub fn run<A: Address, M: NodeWrite>(
    table: &mut Table<A, M>,
    calls: &[Call<A>],
    answers: &mut [Result<Granted<A>, Fault>],
) -> bool
    ensures room { result ≡ nat_le (length calls.now) (length answers.old) }
    ensures runs { result ≡ true → Ran M.NodeRead.nodes A.Address.bits A.Address.WIDTH table.old calls.now answers.old answers.new table.new }
    ensures always { M.NodeRead.always table.old.memory table.new.memory }
    ensures refused { result ≡ false → (table.new ≡ table.old) × (answers.new ≡ answers.old) }
{
    if answers.len() < calls.len() {
        return false;
    }
    for i in 0..calls.len() {
        let answer = perform(table, &calls[i]);
        replace(answers, i, answer);
    }
    true
}
