ghost use Rattle.std.specs.Prelude.{◌≡◌};
ghost use Rattle.std.specs.Option.{option_map, option_to_list};
ghost use Rattle.model.specs.Plans.{offsets};
ghost use Rattle.laws.specs.Counts.{count, missing};
ghost use Rattle.plan.specs.Strides.{strides_of};
ghost use Rattle.routes.specs.Meant.{meant};

use address::Address;
use plan::Plan;
use routes::Route;

// How many nodes on the way to a route the route before it does not require, or none before it. Beside the bits that the two share no path of the
// second is one of the first.
pub(crate) fn newly_required<A: Address>(
    plan: &Plan<A>,
    last: &Option<Route<A>>,
    route: &Route<A>,
) -> usize
    ensures { result ≡ count (missing (option_to_list (option_map (meant A.Address.bits) last.now)) (A.Address.bits route.now.prefix.address) route.now.prefix.length) (offsets (strides_of plan.now)) }
{
    let prefix = &route.prefix;
    let (before, held) = match last {
        Some(last) => (last.prefix.address, last.prefix.length),
        None => (prefix.address, 0),
    };
    let mut offset: u32 = 0;
    let mut same = true;
    let mut nodes: usize = 0;
    for stride in plan.strides() {
        let stride = u32::from(*stride);
        let shared = offset == 0 || same && offset <= held;
        if offset <= prefix.length && !shared {
            nodes += 1;
        }
        same = same && before.group(offset, stride) == prefix.address.group(offset, stride);
        offset += stride;
    }
    nodes
}
