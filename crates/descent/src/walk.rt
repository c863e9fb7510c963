ghost use Rattle.std.specs.Prelude.{◌≡◌, ◌<◌, ◌≤◌, length, Option, Some, cond, ◌==◌, IfOk, IfSome, IsOkAnd};
ghost use Rattle.std.specs.Option.{option_map};
ghost use Rattle.model.specs.Outcomes.{outcome, granted};
ghost use Rattle.model.specs.Placements.{Placement};
ghost use Rattle.model.specs.Required.{path_count};
ghost use Rattle.model.specs.Routes.{Route, Routes, longest};
ghost use Rattle.plan.specs.Strides.{strides_of};
ghost use Rattle.walks.specs.Shows.{Shows};
ghost use Rattle.walks.specs.Walks.{walked};
ghost use Rattle.descent.specs.Meant.{held_route, matched_walk};
ghost use Rattle.descent.specs.Steps.{Last, Walks};

use crate::Held;
use address::Address;
use faults::Fault;
use masks::marks_on_the_way;
use nodes::NodeRead;
use plan::Plan;
use routes::SoundPrefix;

/// What a lookup finds: the longest match, if any, and how many nodes it visited.
#[derive(Clone, Copy)]
pub struct Matched<A: Address> {
    pub found: Option<Held<A>>,
    pub visits: usize,
}

// A match on the way down: the node, how many bits led to it, and the marks in it of which the highest is meant. Which position that is
// is worked out once, of the last match.
#[derive(Clone, Copy)]
struct Match {
    node: u32,
    offset: u32,
    marks: u64,
}

// The last match of a walk, and how many nodes it visited.
#[derive(Clone, Copy)]
struct Walked {
    last: Option<Match>,
    visits: usize,
}

/// The longest match of an address, by one walk down the tree: in each node the match, then its child by the next bits, until a child is 0
/// or the strides are used up. A child that is no node is refused by the memory. The hop is read once, in the node that matched last.
pub fn lookup<A: Address, M: NodeRead>(
    memory: &mut M,
    plan: &Plan<A>,
    address: A,
) -> Result<Matched<A>, Fault>
    ensures any { outcome (matched_walk A.Address.bits) result ≡ walked (M.NodeRead.nodes memory.old) (strides_of plan.now) (A.Address.bits address) }
    ensures shown { (routes : Routes) (at : Placement) → Shows A.Address.WIDTH (M.NodeRead.nodes memory.old) (strides_of plan.now) routes at → outcome (matched_walk A.Address.bits) result ≡ granted (record { found = longest routes (A.Address.bits address); visits = path_count (strides_of plan.now) routes (A.Address.bits address) }) }
    ensures within { IfOk result (λ matched. matched.visits ≤ length (strides_of plan.now)) }
    ensures still { M.NodeRead.still memory.old memory.new }
{
    let Walked { last, visits } = walk(memory, plan, address)?;
    let found = held(memory, address, last)?;
    Ok(Matched { found, visits })
}

// The walk of a lookup.
fn walk<A: Address, M: NodeRead>(
    memory: &mut M,
    plan: &Plan<A>,
    address: A,
) -> Result<Walked, Fault>
    ensures walks { Walks (M.NodeRead.nodes memory.old) (strides_of plan.now) (A.Address.bits address) result }
    ensures still { M.NodeRead.still memory.old memory.new }
{
    let mut node = 0;
    let mut offset = 0;
    let mut visits = 0;
    let mut last = None;
    for stride in plan.strides() {
        let stride = u32::from(*stride);
        let bitmap = memory.bitmap(node)?;
        visits += 1;
        let index = address.group(offset, stride);
        let marks = marks_on_the_way(bitmap, (1 << (stride - 1)) + index / 2);
        last = latest(node, offset, marks, last);
        let child = memory.child(node, index)?;
        if child == 0 {
            break;
        }
        node = child;
        offset += stride;
    }
    Ok(Walked { last, visits })
}

// The match in a node, if any of its marks is on the way, or else the last before.
fn latest(node: u32, offset: u32, marks: u64, before: Option<Match>) -> Option<Match>
    ensures { result ≡ cond (marks == 0) before (Some (record { node = node; offset = offset; marks = marks })) }
{
    if marks == 0 {
        before
    } else {
        Some(Match {
            node,
            offset,
            marks,
        })
    }
}

// The prefix of a match, with the hop that is held there.
fn held<A: Address, M: NodeRead>(
    memory: &mut M,
    address: A,
    last: Option<Match>,
) -> Result<Option<Held<A>>, Fault>
    requires placed { IfSome last (λ m. (m.offset < 256) × (1 < m.marks)) }
    ensures stands { (found : Option Route) → Last (M.NodeRead.nodes memory.old) (A.Address.bits address) last found → IsOkAnd result (λ held. option_map (held_route A.Address.bits) held ≡ found) }
    ensures still { M.NodeRead.still memory.old memory.new }
{
    let Some(last) = last else {
        return Ok(None);
    };
    let position = last.marks.ilog2() as u8;
    let hop = memory.hop(last.node, position)?;
    let length = last.offset + position.ilog2();
    let prefix = SoundPrefix::of_first_bits(address, length);
    Ok(Some(Held { prefix, hop }))
}
