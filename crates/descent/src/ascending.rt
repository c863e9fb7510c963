ghost use Rattle.std.specs.Prelude.{◌≡◌, ◌+◌, ◌≤◌, ◌<◌, ◌^◌, ◌++◌, true, cond, List, ℕ, Ok, Option, IfSome, nat_lt, length, take, drop};
ghost use Rattle.std.specs.Option.{option_map};
ghost use Rattle.bits.specs.Rows.{Bits, number};
ghost use Rattle.model.specs.Outcomes.{outcome, granted};
ghost use Rattle.model.specs.Placements.{Placement};
ghost use Rattle.model.specs.Plans.{in_range, sum};
ghost use Rattle.model.specs.Routes.{Route, Routes, above, route, smallest};
ghost use Rattle.plan.specs.Strides.{strides_of};
ghost use Rattle.routes.specs.Meant.{prefix_bits};
ghost use Rattle.walks.specs.Shows.{Shows};
ghost use Rattle.walks.specs.Smallest.{above_from, above_of, follow_up, smallest_from, smallest_of, standing};
ghost use Rattle.descent.specs.Entries.{Behind, Enters, First, FirstIn, IsEntry, IsPosition, IsRow, Next, Read, Reads, entry_of, path_bits};
ghost use Rattle.descent.specs.Meant.{held_route};

use crate::Held;
use address::Address;
use address::prefix::Prefix;
use faults::Fault;
use nodes::NodeRead;
use plan::Plan;
use routes::SoundPrefix;

// A node that is read: its number, its bitmap, and whether there is a stride to come, without which its children lead nowhere.
#[derive(Clone, Copy)]
struct Node {
    number: u32,
    bitmap: u64,
    stride: u8,
    leads_on: bool,
}

// What stands in a node: behind fewer bits than its stride a hop, behind all of them a child.
#[derive(Clone, Copy)]
enum Entry {
    Hop { position: u8, hop: u16 },
    Child { index: u8, node: u32 },
}

// How a row of bits leads through a node: the node, so many of the bits, which form this number, and the child behind them, or 0.
#[derive(Clone, Copy)]
struct Way {
    node: Node,
    bits: u8,
    more: u32,
    child: u32,
}

// The bits that lead to a node: the first of an address, so many.
#[derive(Clone, Copy)]
struct Path<A: Address> {
    address: A,
    length: u32,
}

/// The smallest route of the tree, or none.
pub fn first<A: Address, M: NodeRead>(
    memory: &mut M,
    plan: &Plan<A>,
) -> Result<Option<Held<A>>, Fault>
    ensures any { outcome (option_map (held_route A.Address.bits)) result ≡ smallest_of (M.NodeRead.nodes memory.old) (strides_of plan.now) }
    ensures shown { (routes : Routes) (at : Placement) → Shows A.Address.WIDTH (M.NodeRead.nodes memory.old) (strides_of plan.now) routes at → outcome (option_map (held_route A.Address.bits)) result ≡ granted (smallest routes) }
    ensures still { M.NodeRead.still memory.old memory.new }
{
    let root = Path {
        address: A::zero(),
        length: 0,
    };
    smallest(memory, plan.strides(), 0, root)
}

/// The smallest route above a prefix, or none.
pub fn next<A: Address, M: NodeRead>(
    memory: &mut M,
    plan: &Plan<A>,
    prefix: SoundPrefix<A>,
) -> Result<Option<Held<A>>, Fault>
    ensures any { outcome (option_map (held_route A.Address.bits)) result ≡ above_of (M.NodeRead.nodes memory.old) (strides_of plan.now) (prefix_bits A.Address.bits prefix.prefix) }
    ensures shown { (routes : Routes) (at : Placement) → Shows A.Address.WIDTH (M.NodeRead.nodes memory.old) (strides_of plan.now) routes at → outcome (option_map (held_route A.Address.bits)) result ≡ granted (above routes (prefix_bits A.Address.bits prefix.prefix)) }
    ensures still { M.NodeRead.still memory.old memory.new }
{
    let root = Path {
        address: prefix.prefix.address,
        length: 0,
    };
    above(memory, plan.strides(), 0, root, prefix.prefix.length)
}

// The smallest route from a node on, to which a path leads.
fn smallest<A: Address, M: NodeRead>(
    memory: &mut M,
    strides: &[u8],
    number: u32,
    path: Path<A>,
) -> Result<Option<Held<A>>, Fault>
    requires strides { in_range strides.now ≡ true }
    requires fits { path.length + sum strides.now ≤ A.Address.WIDTH + 1 }
    ensures smallest { outcome (option_map (held_route A.Address.bits)) result ≡ smallest_from (M.NodeRead.nodes memory.old) strides.now number (path_bits A.Address.bits path) }
    ensures still { M.NodeRead.still memory.old memory.new }
{
    let Some((stride, below)) = strides.split_first() else {
        return Ok(None);
    };
    let entry = first_in(memory, number, *stride, below)?;
    follow(memory, *stride, below, path, entry)
}

// From what stands in a node on: a hop is that of a route, and from a child it goes on down.
fn follow<A: Address, M: NodeRead>(
    memory: &mut M,
    stride: u8,
    below: &[u8],
    path: Path<A>,
    entry: Option<Entry>,
) -> Result<Option<Held<A>>, Fault>
    requires strides { in_range below.now ≡ true }
    requires fits { path.length + stride + sum below.now ≤ A.Address.WIDTH + 1 }
    requires stride { stride ≤ 6 }
    requires entry { IsEntry entry }
    ensures follows { (found : Option Route) → entry ≡ option_map (entry_of stride) found → IfSome found (λ r. length r.prefix ≤ stride) → outcome (option_map (held_route A.Address.bits)) result ≡ follow_up (smallest_from (M.NodeRead.nodes memory.old) below.now) stride (path_bits A.Address.bits path) found }
    ensures still { M.NodeRead.still memory.old memory.new }
{
    match entry {
        None => Ok(None),
        Some(Entry::Hop { position, hop }) => Ok(Some(held(path, position, hop))),
        Some(Entry::Child { index, node }) => {
            let path = longer(path, stride, index);
            let Some((next, rest)) = below.split_first() else {
                return Ok(None);
            };
            let entry = first_in(memory, node, *next, rest)?;
            follow(memory, *next, rest, path, entry)
        }
    }
}

// The smallest route above the first `length` bits of the path's address, from a node on, to which the path leads: below the child on their
// way, or else from what comes next in the node.
fn above<A: Address, M: NodeRead>(
    memory: &mut M,
    strides: &[u8],
    number: u32,
    path: Path<A>,
    length: u32,
) -> Result<Option<Held<A>>, Fault>
    requires strides { in_range strides.now ≡ true }
    requires fits { path.length + sum strides.now ≤ A.Address.WIDTH + 1 }
    requires within { path.length ≤ length }
    requires length { length ≤ A.Address.WIDTH }
    ensures above { outcome (option_map (held_route A.Address.bits)) result ≡ above_from (M.NodeRead.nodes memory.old) strides.now number (path_bits A.Address.bits path) (drop path.length (take length (A.Address.bits path.address))) }
    ensures still { M.NodeRead.still memory.old memory.new }
{
    let Some((stride, below)) = strides.split_first() else {
        return Ok(None);
    };
    let way = enter(memory, number, *stride, below, path, length)?;
    if way.child == 0 {
        return follow_above(memory, way, below, path);
    }
    let further = Path {
        address: path.address,
        length: path.length + way.more,
    };
    match above(memory, below, way.child, further, length)? {
        None => follow_above(memory, way, below, path),
        found => Ok(found),
    }
}

// Reads a node to which a path leads, and the child on the way of the bits behind that path.
fn enter<A: Address, M: NodeRead>(
    memory: &mut M,
    number: u32,
    stride: u8,
    below: &[u8],
    path: Path<A>,
    length: u32,
) -> Result<Way, Fault>
    requires stride { stride ≤ 6 }
    requires within { path.length ≤ length }
    requires length { length ≤ A.Address.WIDTH }
    ensures enters { Enters (M.NodeRead.nodes memory.old) below.now number stride (take stride (drop path.length (take length (A.Address.bits path.address)))) result }
    ensures still { M.NodeRead.still memory.old memory.new }
{
    let node = read(memory, number, stride, !below.is_empty())?;
    let more = (length - path.length).min(u32::from(stride));
    let bits = path.address.group(path.length, more);
    let child = child_on_way(memory, node, bits, more)?;
    Ok(Way {
        node,
        bits,
        more,
        child,
    })
}

// The child behind so many bits, where they are all of the stride; else 0.
fn child_on_way<M: NodeRead>(memory: &mut M, node: Node, bits: u8, more: u32) -> Result<u32, Fault>
    requires bits { bits < 64 }
    ensures child { (below : List ℕ) → Reads (M.NodeRead.nodes memory.old) below node → result ≡ Ok (cond (nat_lt more node.stride) 0 ((M.NodeRead.nodes memory.old).child node.number bits)) }
    ensures still { M.NodeRead.still memory.old memory.new }
{
    if more < u32::from(node.stride) {
        return Ok(0);
    }
    memory.child(node.number, bits)
}

// From what stands in a node above the row of the bits on a way on.
fn follow_above<A: Address, M: NodeRead>(
    memory: &mut M,
    way: Way,
    below: &[u8],
    path: Path<A>,
) -> Result<Option<Held<A>>, Fault>
    requires strides { in_range below.now ≡ true }
    requires fits { path.length + way.node.stride + sum below.now ≤ A.Address.WIDTH + 1 }
    requires more { way.more ≤ way.node.stride }
    requires bits { way.bits < 2 ^ way.more }
    requires stride { way.node.stride ≤ 6 }
    requires node { Reads (M.NodeRead.nodes memory.old) below.now way.node }
    ensures follows { (x : Bits) → length x ≡ way.more → number x ≡ way.bits → outcome (option_map (held_route A.Address.bits)) result ≡ follow_up (smallest_from (M.NodeRead.nodes memory.old) below.now) way.node.stride (path_bits A.Address.bits path) (above (standing (M.NodeRead.nodes memory.old) below.now way.node.number way.node.stride) x) }
    ensures still { M.NodeRead.still memory.old memory.new }
{
    let Way {
        node,
        bits,
        more,
        ..
    } = way;
    let entry = entry_above(memory, node, 1, node.stride, bits, more as u8)?;
    follow(memory, node.stride, below, path, entry)
}

// Reads a node.
fn read<M: NodeRead>(memory: &mut M, number: u32, stride: u8, leads_on: bool) -> Result<Node, Fault>
    ensures read { Read (M.NodeRead.nodes memory.old) number stride leads_on result }
    ensures still { M.NodeRead.still memory.old memory.new }
{
    let bitmap = memory.bitmap(number)?;
    Ok(Node {
        number,
        bitmap,
        stride,
        leads_on,
    })
}

// The first that stands in a node, with the strides below it.
fn first_in<M: NodeRead>(
    memory: &mut M,
    number: u32,
    stride: u8,
    below: &[u8],
) -> Result<Option<Entry>, Fault>
    requires stride { stride ≤ 6 }
    ensures first { FirstIn (M.NodeRead.nodes memory.old) below.now number stride result }
    ensures still { M.NodeRead.still memory.old memory.new }
{
    let node = read(memory, number, stride, !below.is_empty())?;
    first_entry(memory, node, 1, stride)
}

// The first that stands in a node at a row of bits or behind it, so many levels deep. The row is given by the position that it is, or would
// be if it were not as long as the stride.
fn first_entry<M: NodeRead>(
    memory: &mut M,
    node: Node,
    row: u8,
    levels: u8,
) -> Result<Option<Entry>, Fault>
    requires row { IsRow node.stride levels row }
    ensures first { First (M.NodeRead.nodes memory.old) node levels row result }
    ensures still { M.NodeRead.still memory.old memory.new }
{
    if levels == 0 {
        return child_entry(memory, node, row);
    }
    if node.bitmap >> row & 1 == 1 {
        let hop = memory.hop(node.number, row)?;
        return Ok(Some(Entry::Hop { position: row, hop }));
    }
    match first_entry(memory, node, 2 * row, levels - 1)? {
        None => first_entry(memory, node, 2 * row + 1, levels - 1),
        found => Ok(found),
    }
}

// The child behind a row as long as the stride.
fn child_entry<M: NodeRead>(memory: &mut M, node: Node, row: u8) -> Result<Option<Entry>, Fault>
    requires row { IsRow node.stride 0 row }
    ensures child { Behind (M.NodeRead.nodes memory.old) node row result }
    ensures still { M.NodeRead.still memory.old memory.new }
{
    if !node.leads_on {
        return Ok(None);
    }
    let index = row - (1 << node.stride);
    let child = memory.child(node.number, index)?;
    if child == 0 {
        return Ok(None);
    }
    Ok(Some(Entry::Child { index, node: child }))
}

// The first that stands in a node behind a row and above another, which goes on from that row by so many bits more.
fn entry_above<M: NodeRead>(
    memory: &mut M,
    node: Node,
    row: u8,
    levels: u8,
    bits: u8,
    more: u8,
) -> Result<Option<Entry>, Fault>
    requires row { IsRow node.stride levels row }
    requires more { more ≤ levels }
    requires bits { bits < 2 ^ more }
    ensures next { Next (M.NodeRead.nodes memory.old) node levels row bits more result }
    ensures still { M.NodeRead.still memory.old memory.new }
{
    if levels == 0 {
        return Ok(None);
    }
    let levels = levels - 1;
    if more == 0 {
        return match first_entry(memory, node, 2 * row, levels)? {
            None => first_entry(memory, node, 2 * row + 1, levels),
            found => Ok(found),
        };
    }
    let more = more - 1;
    let half = 1 << more;
    if bits < half {
        match entry_above(memory, node, 2 * row, levels, bits, more)? {
            None => first_entry(memory, node, 2 * row + 1, levels),
            found => Ok(found),
        }
    } else {
        entry_above(memory, node, 2 * row + 1, levels, bits - half, more)
    }
}

// A path and the bits of a child behind it.
fn longer<A: Address>(path: Path<A>, stride: u8, index: u8) -> Path<A>
    requires stride { stride ≤ 6 }
    requires fits { path.length + stride ≤ A.Address.WIDTH + 1 }
    ensures bits { (x : Bits) → length x ≡ stride → number x ≡ index → path.length + stride ≤ A.Address.WIDTH → path_bits A.Address.bits result ≡ path_bits A.Address.bits path ++ x }
    ensures length { result.length ≡ path.length + stride }
{
    let stride = u32::from(stride);
    Path {
        address: path.address.with_group(path.length, stride, index),
        length: path.length + stride,
    }
}

// The prefix at a position of a node to which a path leads, with its hop.
fn held<A: Address>(path: Path<A>, position: u8, hop: u16) -> Held<A>
    requires position { 0 < position }
    requires fits { path.length ≤ A.Address.WIDTH + 1 }
    ensures held { (x : Bits) → IsPosition position x → path.length + length x ≤ A.Address.WIDTH → length x ≤ 6 → held_route A.Address.bits result ≡ route (path_bits A.Address.bits path ++ x) hop }
{
    let rest = position.ilog2();
    let address = path
        .address
        .with_group(path.length, rest, position - (1 << rest));
    let prefix = SoundPrefix::of_first_bits(address, path.length + rest);
    Held { prefix, hop }
}
