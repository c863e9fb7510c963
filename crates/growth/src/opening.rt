ghost use Rattle.std.specs.Prelude.{◌≡◌, ◌<◌, true, cond, Ok, nat_lt};
ghost use Rattle.model.specs.Nodes.{Nodes};
ghost use Rattle.nodes.specs.Fields.{is_node};
ghost use Rattle.images.specs.Steps.{chained};
ghost use Rattle.growth.specs.Clearing.{cleared, first_link, without_children, without_hops};

use faults::Fault;
use nodes::{LAST_POSITION, MOST_CHILDREN, NodeWrite};

/// Sets every field of every node to 0, and chains all nodes but the root in ascending order; answers the front of that chain, 0 where it is empty.
pub fn open<M: NodeWrite>(memory: &mut M) -> Result<u32, Fault>
    ensures done { result ≡ Ok (cond (nat_lt 1 (M.NodeRead.nodes memory.old).size) 1 0) }
    ensures opened { M.NodeRead.nodes memory.new ≡ chained (M.NodeRead.nodes memory.old).size }
    ensures always { M.NodeRead.always memory.old memory.new }
{
    let size = memory.size();
    for node in 0..size {
        clear(memory, node, link_of(node, size))?;
    }
    Ok(u32::from(size > 1))
}

// The node behind another in the chain of a newly opened table, 0 behind the last and behind the root.
fn link_of(node: u32, size: u32) -> u32
    requires inside { node < size }
    ensures link { (m : Nodes) → m.size ≡ size → result ≡ first_link m node }
    ensures below { result < size }
{
    if node > 0 && node + 1 < size {
        node + 1
    } else {
        0
    }
}

// Sets all fields of a node to 0, but its child 0 to a link.
fn clear<M: NodeWrite>(memory: &mut M, node: u32, link: u32) -> Result<(), Fault>
    ensures done { is_node (M.NodeRead.nodes memory.old) node ≡ true → link < (M.NodeRead.nodes memory.old).size → (result ≡ Ok tt) × (M.NodeRead.nodes memory.new ≡ cleared (M.NodeRead.nodes memory.old) node link) }
    ensures always { M.NodeRead.always memory.old memory.new }
{
    memory.set_bitmap(node, 0)?;
    memory.set_count(node, 0)?;
    clear_children(memory, node)?;
    clear_hops(memory, node)?;
    memory.set_child(node, 0, link)
}

// Sets all children of a node to 0.
fn clear_children<M: NodeWrite>(memory: &mut M, node: u32) -> Result<(), Fault>
    ensures done { is_node (M.NodeRead.nodes memory.old) node ≡ true → (result ≡ Ok tt) × (M.NodeRead.nodes memory.new ≡ without_children (M.NodeRead.nodes memory.old) node 64) }
    ensures always { M.NodeRead.always memory.old memory.new }
{
    for index in 0..MOST_CHILDREN {
        memory.set_child(node, index, 0)?;
    }
    Ok(())
}

// Sets all hops of a node to 0.
fn clear_hops<M: NodeWrite>(memory: &mut M, node: u32) -> Result<(), Fault>
    ensures done { is_node (M.NodeRead.nodes memory.old) node ≡ true → (result ≡ Ok tt) × (M.NodeRead.nodes memory.new ≡ without_hops (M.NodeRead.nodes memory.old) node 64) }
    ensures always { M.NodeRead.always memory.old memory.new }
{
    for position in 1..=LAST_POSITION {
        memory.set_hop(node, position, 0)?;
    }
    Ok(())
}
