ghost use Rattle.std.specs.Prelude.{◌≡◌, ◌≤◌, ◌<◌, true, false, Ok, ◌==◌};
ghost use Rattle.nodes.specs.Fields.{is_child, is_node};
ghost use Rattle.images.specs.Steps.{taken_node, returned_node};

use faults::Fault;
use nodes::NodeWrite;

// Takes the node at the front of the chain, clears its link and sets it as a child of a node, whose count rises; answers the chain's new front.
pub fn take<M: NodeWrite>(memory: &mut M, front: u32, parent: u32, index: u8) -> Result<u32, Fault>
    ensures done { is_node (M.NodeRead.nodes memory.old) front ≡ true → is_child (M.NodeRead.nodes memory.old) parent index ≡ true → (parent == front) ≡ false → (M.NodeRead.nodes memory.old).count parent < 64 → (result ≡ Ok ((M.NodeRead.nodes memory.old).child front 0)) × (M.NodeRead.nodes memory.new ≡ taken_node (M.NodeRead.nodes memory.old) front parent index) }
    ensures always { M.NodeRead.always memory.old memory.new }
{
    let count = memory.count(parent)?;
    let link = memory.child(front, 0)?;
    memory.set_child(front, 0, 0)?;
    memory.set_child(parent, index, front)?;
    memory.set_count(parent, count.saturating_add(1))?;
    Ok(link)
}

// Returns a node, a child of another, to the front of the chain; the other's count is lowered.
pub fn give_back<M: NodeWrite>(
    memory: &mut M,
    front: u32,
    node: u32,
    parent: u32,
    index: u8,
) -> Result<(), Fault>
    ensures done { is_node (M.NodeRead.nodes memory.old) front ≡ true → is_node (M.NodeRead.nodes memory.old) node ≡ true → is_child (M.NodeRead.nodes memory.old) parent index ≡ true → (parent == node) ≡ false → (M.NodeRead.nodes memory.old).count parent ≤ 64 → (result ≡ Ok tt) × (M.NodeRead.nodes memory.new ≡ returned_node (M.NodeRead.nodes memory.old) node parent index front) }
    ensures always { M.NodeRead.always memory.old memory.new }
{
    let count = memory.count(parent)?;
    memory.set_child(parent, index, 0)?;
    memory.set_child(node, 0, front)?;
    memory.set_count(parent, count.saturating_sub(1))
}
