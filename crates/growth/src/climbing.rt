ghost use Rattle.std.specs.Prelude.{◌≡◌, ℕ, ◌-◌, ◌&&◌, true, List, Ok, ◌==◌};
ghost use Rattle.bits.specs.Rows.{Bits};
ghost use Rattle.model.specs.Placements as placements;
ghost use Rattle.model.specs.Placements.{Placement, after_delete, image};
ghost use Rattle.model.specs.Required.{required};
ghost use Rattle.model.specs.Routes.{Routes, without};
ghost use Rattle.nodes.specs.Fields.{is_node};
ghost use Rattle.growth.specs.Ways.{Climbs};

use crate::chain::give_back;
use faults::Fault;
use nodes::NodeWrite;

/// What a climb comes to: the front of the chain, and how many nodes were returned to it.
#[derive(Clone, Copy)]
pub struct Climbed {
    pub front: u32,
    pub returned: usize,
}

/// Returns the nodes on a way to the front of the chain, from the deepest up, as long as they have no mark and no child; the root stays.
pub fn climb<M: NodeWrite>(
    memory: &mut M,
    front: u32,
    way: &[u32],
    indexes: &[u8],
) -> Result<Climbed, Fault>
    ensures climbed { (W : ℕ) (plan : List ℕ) (routes : Routes) (at : Placement) (p : Bits) → Climbs W (M.NodeRead.nodes memory.old) plan routes at p front way.now indexes.now → (result ≡ Ok (record { front = placements.front (after_delete plan (without routes p) p at).free; returned = required plan routes - required plan (without routes p) })) × (M.NodeRead.nodes memory.new ≡ image (M.NodeRead.nodes memory.old).size plan (without routes p) (after_delete plan (without routes p) p at)) }
    ensures always { M.NodeRead.always memory.old memory.new }
{
    let mut climbed = Climbed { front, returned: 0 };
    for level in (0..indexes.len()).rev() {
        let (Some(parent), Some(node)) = (way.get(level), way.get(level + 1)) else {
            break;
        };
        if !is_empty(memory, *node)? {
            break;
        }
        give_back(memory, climbed.front, *node, *parent, indexes[level])?;
        climbed = Climbed {
            front: *node,
            returned: climbed.returned + 1,
        };
    }
    Ok(climbed)
}

// Whether a node has no marked position and no child.
fn is_empty<M: NodeWrite>(memory: &mut M, node: u32) -> Result<bool, Fault>
    ensures value { is_node (M.NodeRead.nodes memory.old) node ≡ true → result ≡ Ok ((M.NodeRead.nodes memory.old).bitmap node == 0 && (M.NodeRead.nodes memory.old).count node == 0) }
    ensures still { M.NodeRead.still memory.old memory.new }
{
    let bitmap = memory.bitmap(node)?;
    let count = memory.count(node)?;
    Ok(bitmap == 0 && count == 0)
}
