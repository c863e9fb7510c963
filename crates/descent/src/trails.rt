ghost use Rattle.std.specs.Prelude.{IfErr, ◌≡◌, ℕ, ◌+◌, ◌-◌, ◌<◌, ◌≤◌, List, [], None, length, drop, slice_index};
ghost use Rattle.model.specs.Outcomes.{outcome, granted};
ghost use Rattle.model.specs.Placements.{Placement};
ghost use Rattle.model.specs.Places.{indexes, position};
ghost use Rattle.model.specs.Routes.{Routes, find};
ghost use Rattle.plan.specs.Strides.{strides_of};
ghost use Rattle.routes.specs.Meant.{prefix_bits};
ghost use Rattle.walks.specs.Shows.{Shows};
ghost use Rattle.walks.specs.Trails.{looked_at, passed, trail_in, trailed};
ghost use Rattle.descent.specs.Meant.{trail_meant};
ghost use Rattle.descent.specs.Passing.{HasHop, HopThere, LiesBehind, Passes};

use address::Address;
use address::prefix::Prefix;
use arrayvec::ArrayVec;
use faults::Fault;
use masks::is_marked;
use nodes::NodeRead;
use plan::Plan;
use routes::SoundPrefix;

/// The way to the node where a prefix lies: the nodes that there are, from the root down; the child indexes, of all strides before the
/// prefix's; its position in that node; and the hop that is held there, if any.
#[derive(Drop)]
pub struct Trail {
    pub nodes: ArrayVec<u32, 32>,
    pub indexes: ArrayVec<u8, 32>,
    pub position: u8,
    pub hop: Option<u16>,
}

impl Trail {
    /// A trail with nothing in it.
    pub fn new() -> Trail
        ensures { trail_meant result ≡ record { nodes = []; indexes = []; position = 0; hop = None } }
    {
        Trail {
            nodes: ArrayVec::new(),
            indexes: ArrayVec::new(),
            position: 0,
            hop: None,
        }
    }

    /// The last of its nodes; 0 where it has none.
    pub fn last(&self) -> u32
        ensures { result ≡ slice_index (trail_meant self.now).nodes (length (trail_meant self.now).nodes - 1) }
    {
        self.nodes.as_slice().last().copied().unwrap_or(0)
    }

    /// The child indexes that lead on from there, where no node is yet; all of them where it has no node.
    pub fn missing(&self) -> &[u8]
        ensures { result.now ≡ drop (length (trail_meant self.now).nodes - 1) (trail_meant self.now).indexes }
    {
        let indexes = self.indexes.as_slice();
        let from = self.nodes.as_slice().len().saturating_sub(1);
        &indexes[from.min(indexes.len())..]
    }
}

/// Puts into a trail, whatever it had, the way to a prefix's node, as far as it goes, and what is held there. A child on it that is no node is
/// refused by the memory, and then the trail is empty. It is the caller's, so that it is not copied.
pub fn trail_to<A: Address, M: NodeRead>(
    memory: &mut M,
    plan: &Plan<A>,
    prefix: SoundPrefix<A>,
    trail: &mut Trail,
) -> Result<(), Fault>
    ensures any { outcome (λ _. trail_meant trail.new) result ≡ trailed (M.NodeRead.nodes memory.old) (strides_of plan.now) (prefix_bits A.Address.bits prefix.prefix) }
    ensures shown { (routes : Routes) (at : Placement) → Shows A.Address.WIDTH (M.NodeRead.nodes memory.old) (strides_of plan.now) routes at → outcome (λ _. trail_meant trail.new) result ≡ granted (trail_in (strides_of plan.now) routes at (prefix_bits A.Address.bits prefix.prefix)) }
    ensures refused { IfErr result (λ _. trail_meant trail.new ≡ record { nodes = []; indexes = []; position = 0; hop = None }) }
    ensures still { M.NodeRead.still memory.old memory.new }
{
    let followed = follow_to(memory, plan, prefix, trail);
    if followed.is_err() {
        *trail = Trail::new();
    }
    followed
}

// The same, but that nothing is said of the trail where that is refused.
fn follow_to<A: Address, M: NodeRead>(
    memory: &mut M,
    plan: &Plan<A>,
    prefix: SoundPrefix<A>,
    trail: &mut Trail,
) -> Result<(), Fault>
    ensures any { outcome (λ _. trail_meant trail.new) result ≡ trailed (M.NodeRead.nodes memory.old) (strides_of plan.now) (prefix_bits A.Address.bits prefix.prefix) }
    ensures shown { (routes : Routes) (at : Placement) → Shows A.Address.WIDTH (M.NodeRead.nodes memory.old) (strides_of plan.now) routes at → outcome (λ _. trail_meant trail.new) result ≡ granted (trail_in (strides_of plan.now) routes at (prefix_bits A.Address.bits prefix.prefix)) }
    ensures still { M.NodeRead.still memory.old memory.new }
{
    let offset = find_spot(plan, prefix, &mut trail.indexes);
    trail.position = position_at(prefix, offset);
    let way = trail.indexes.as_slice();
    pass(memory, way, &mut trail.nodes)?;
    trail.hop = hop_held(memory, trail.nodes.as_slice(), way.len(), trail.position)?;
    Ok(())
}

/// The hop of a prefix, or none.
pub fn exact<A: Address, M: NodeRead>(
    memory: &mut M,
    plan: &Plan<A>,
    prefix: SoundPrefix<A>,
) -> Result<Option<u16>, Fault>
    ensures any { outcome (λ hop. hop) result ≡ looked_at (M.NodeRead.nodes memory.old) (strides_of plan.now) (prefix_bits A.Address.bits prefix.prefix) }
    ensures shown { (routes : Routes) (at : Placement) → Shows A.Address.WIDTH (M.NodeRead.nodes memory.old) (strides_of plan.now) routes at → outcome (λ hop. hop) result ≡ granted (find routes (prefix_bits A.Address.bits prefix.prefix)) }
    ensures still { M.NodeRead.still memory.old memory.new }
{
    let mut trail = Trail::new();
    trail_to(memory, plan, prefix, &mut trail)?;
    Ok(trail.hop)
}

// Puts the child indexes that lead to a prefix's node into a row, whatever that had; answers how many bits these are.
fn find_spot<A: Address>(plan: &Plan<A>, prefix: SoundPrefix<A>, way: &mut ArrayVec<u8, 32>) -> u32
    ensures indexes { way.new.items ≡ indexes (strides_of plan.now) (prefix_bits A.Address.bits prefix.prefix) }
    ensures few { length way.new.items < 32 }
    ensures offset { LiesBehind (strides_of plan.now) (prefix_bits A.Address.bits prefix.prefix) result }
{
    let SoundPrefix {
        prefix: Prefix { address, length },
    } = prefix;
    way.clear();
    let mut offset = 0;
    for stride in plan.strides() {
        let stride = u32::from(*stride);
        if length - offset < stride {
            break;
        }
        way.push(address.group(offset, stride));
        offset += stride;
    }
    offset
}

// The position of a prefix in a node to which so many bits lead.
fn position_at<A: Address>(prefix: SoundPrefix<A>, offset: u32) -> u8
    requires reaches { offset ≤ prefix.prefix.length }
    requires few { prefix.prefix.length ≤ offset + 5 }
    ensures value { result ≡ position (drop offset (prefix_bits A.Address.bits prefix.prefix)) }
    ensures within { (0 < result) × (result < 64) }
{
    let rest = prefix.prefix.length - offset;
    (1 << rest) + prefix.prefix.address.group(offset, rest)
}

// Puts the nodes that child indexes lead through, from the root on, as far as there are children, into a row, whatever that had.
fn pass<M: NodeRead>(
    memory: &mut M,
    indexes: &[u8],
    nodes: &mut ArrayVec<u32, 32>,
) -> Result<(), Fault>
    requires few { length indexes.now < 32 }
    ensures passes { Passes (M.NodeRead.nodes memory.old) indexes.now nodes.new.items result }
    ensures still { M.NodeRead.still memory.old memory.new }
{
    nodes.clear();
    let mut node = 0;
    nodes.push(node);
    for index in indexes {
        let child = memory.child(node, *index)?;
        if child == 0 {
            break;
        }
        node = child;
        nodes.push(node);
    }
    Ok(())
}

// The hop at a position of the node behind so many child indexes, where the nodes on the way go so far.
fn hop_held<M: NodeRead>(
    memory: &mut M,
    nodes: &[u32],
    indexes: usize,
    position: u8,
) -> Result<Option<u16>, Fault>
    requires position { position < 64 }
    ensures held { (way : List ℕ) → nodes.now ≡ passed (M.NodeRead.nodes memory.old) 0 way → indexes ≡ length way → 0 < position → HopThere (M.NodeRead.nodes memory.old) way position result }
    ensures still { M.NodeRead.still memory.old memory.new }
{
    match nodes.get(indexes) {
        Some(node) => hop_at(memory, *node, position),
        None => Ok(None),
    }
}

// The hop at a position of a node, if it is marked.
fn hop_at<M: NodeRead>(memory: &mut M, node: u32, position: u8) -> Result<Option<u16>, Fault>
    requires position { position < 64 }
    ensures held { 0 < position → HasHop (M.NodeRead.nodes memory.old) node position result }
    ensures still { M.NodeRead.still memory.old memory.new }
{
    let bitmap = memory.bitmap(node)?;
    if !is_marked(bitmap, position) {
        return Ok(None);
    }
    let hop = memory.hop(node, position)?;
    Ok(Some(hop))
}
