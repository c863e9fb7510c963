ghost use Rattle.std.specs.Prelude.{◌≡◌, ℕ, ◌≤◌, List, Ok};
ghost use Rattle.bits.specs.Rows.{Bits};
ghost use Rattle.model.specs.Places.{position_of};
ghost use Rattle.model.specs.Placements as placements;
ghost use Rattle.model.specs.Placements.{Placement, after_insert, image};
ghost use Rattle.model.specs.Routes.{Routes, put};
ghost use Rattle.growth.specs.Ways.{Attaches};

use crate::attaching::{Attached, attach};
use crate::marks::mark;
use faults::Fault;
use nodes::NodeWrite;

/// Gives nodes to the paths of a prefix that have none, from a node on, and marks its position with a hop; answers the chain's new front.
pub fn enter<M: NodeWrite>(
    memory: &mut M,
    front: u32,
    node: u32,
    missing: &[u8],
    position: u8,
    hop: u16,
) -> Result<u32, Fault>
    ensures entered { (W : ℕ) (plan : List ℕ) (routes : Routes) (at : Placement) (p : Bits) (k : ℕ) → Attaches W (M.NodeRead.nodes memory.old) plan routes at p k front node missing.now → position ≡ position_of plan p → hop ≤ 4095 → (result ≡ Ok (placements.front (after_insert plan p at).free)) × (M.NodeRead.nodes memory.new ≡ image (M.NodeRead.nodes memory.old).size plan (put routes p hop) (after_insert plan p at)) }
    ensures always { M.NodeRead.always memory.old memory.new }
{
    let Attached { node, front } = attach(memory, front, node, missing)?;
    mark(memory, node, position, hop)?;
    Ok(front)
}
