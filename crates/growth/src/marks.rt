ghost use Rattle.std.specs.Prelude.{◌≡◌, ◌≤◌, ◌<◌, true, false, is_ok};
ghost use Rattle.model.specs.Nodes.{marked};
ghost use Rattle.nodes.specs.Fields.{is_hop};
ghost use Rattle.images.specs.Steps.{marked_node, unmarked_node};

use faults::Fault;
use masks::{with_mark, without_mark};
use nodes::NodeWrite;

/// Marks a position of a node, with a hop.
#[tactic(auto, using(crate::proofs::Evens::marked_even))]
pub fn mark<M: NodeWrite>(memory: &mut M, node: u32, position: u8, hop: u16) -> Result<(), Fault>
    ensures done { is_hop (M.NodeRead.nodes memory.old) node position ≡ true → marked ((M.NodeRead.nodes memory.old).bitmap node) 0 ≡ false → hop ≤ 4095 → (is_ok result ≡ true) × (M.NodeRead.nodes memory.new ≡ marked_node (M.NodeRead.nodes memory.old) node position hop) }
    ensures always { M.NodeRead.always memory.old memory.new }
{
    let bitmap = memory.bitmap(node)?;
    memory.set_bitmap(node, with_mark(bitmap, position))?;
    memory.set_hop(node, position, hop)
}

/// Unmarks a position of a node, and clears its hop.
#[tactic(auto, using(crate::proofs::Evens::unmarked_even))]
pub fn unmark<M: NodeWrite>(memory: &mut M, node: u32, position: u8) -> Result<(), Fault>
    ensures done { is_hop (M.NodeRead.nodes memory.old) node position ≡ true → marked ((M.NodeRead.nodes memory.old).bitmap node) 0 ≡ false → (is_ok result ≡ true) × (M.NodeRead.nodes memory.new ≡ unmarked_node (M.NodeRead.nodes memory.old) node position) }
    ensures always { M.NodeRead.always memory.old memory.new }
{
    let bitmap = memory.bitmap(node)?;
    memory.set_bitmap(node, without_mark(bitmap, position))?;
    memory.set_hop(node, position, 0)
}
