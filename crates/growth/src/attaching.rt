ghost use Rattle.std.specs.Prelude.{◌≡◌, ℕ, List, Ok};
ghost use Rattle.bits.specs.Rows.{Bits};
ghost use Rattle.model.specs.Places.{path_to};
ghost use Rattle.model.specs.Placements as placements;
ghost use Rattle.model.specs.Placements.{Placement, after_insert, image, node_at};
ghost use Rattle.model.specs.Routes.{Routes};
ghost use Rattle.growth.specs.Ways.{Attaches};

use crate::chain::take;
use faults::Fault;
use nodes::NodeWrite;

/// What attaching nodes comes to: the last of them, and the front of the chain.
#[derive(Clone, Copy)]
pub struct Attached {
    pub node: u32,
    pub front: u32,
}

/// Takes a node from the front of the chain for each of some child indexes, one below the other, from a node on.
pub fn attach<M: NodeWrite>(
    memory: &mut M,
    front: u32,
    node: u32,
    missing: &[u8],
) -> Result<Attached, Fault>
    ensures attached { (W : ℕ) (plan : List ℕ) (routes : Routes) (at : Placement) (p : Bits) (k : ℕ) → Attaches W (M.NodeRead.nodes memory.old) plan routes at p k front node missing.now → (result ≡ Ok (record { node = node_at (after_insert plan p at).used (path_to plan p); front = placements.front (after_insert plan p at).free })) × (M.NodeRead.nodes memory.new ≡ image (M.NodeRead.nodes memory.old).size plan routes (after_insert plan p at)) }
    ensures always { M.NodeRead.always memory.old memory.new }
{
    let mut end = Attached { node, front };
    for index in missing {
        let link = take(memory, end.front, end.node, *index)?;
        end = Attached {
            node: end.front,
            front: link,
        };
    }
    Ok(end)
}
