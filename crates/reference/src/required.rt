ghost use Rattle.std.specs.Prelude.{◌≡◌, ℕ, ◌&&◌, Bool, nat_le};
ghost use Rattle.std.specs.List.{list_any};
ghost use Rattle.bits.specs.Order.{begins};
ghost use Rattle.model.specs.Plans.{offsets};
ghost use Rattle.laws.specs.Counts.{count, missing, needed, shared};
ghost use Rattle.plan.specs.Strides.{strides_of};
ghost use Rattle.routes.specs.Meant.{prefix_bits};

use address::Address;
use address::prefix::Prefix;
use plan::Plan;
use routes::Route;
use routes::set::RouteSet;

// Whether a route has a prefix of at least so many bits that the front begins.
fn goes_through<A: Address>(route: &Route<A>, front: &Prefix<A>) -> bool
    ensures { result ≡ (nat_le front.now.length route.now.prefix.length && begins (prefix_bits A.Address.bits front.now) (A.Address.bits route.now.prefix.address)) }
{
    route.prefix.length >= front.length && front.matches(&route.prefix.address)
}

// Whether there is such a route.
fn passed_by_one<A: Address>(routes: &[Route<A>], front: &Prefix<A>) -> bool
    ensures { result ≡ list_any (λ r. nat_le front.now.length r.prefix.length && begins (prefix_bits A.Address.bits front.now) (A.Address.bits r.prefix.address)) routes.now }
{
    routes.iter().any(|route| goes_through(route, front))
}

// Whether one of the routes has a prefix of at least so many bits that begins as the address does.
fn shares<A: Address>(routes: &RouteSet<A>, address: &A, offset: u32) -> bool
    ensures { result ≡ shared routes.now.routes (A.Address.bits address.now) offset }
{
    let front = Prefix {
        address: *address,
        length: offset,
    };
    passed_by_one(routes.as_slice(), &front)
}

// Whether the routes require the node that the first bits of an address lead to, so many: the root, or one that is shared.
fn needs<A: Address>(routes: &RouteSet<A>, address: &A, offset: u32) -> bool
    ensures { result ≡ needed routes.now.routes (A.Address.bits address.now) offset }
{
    offset == 0 || shares(routes, address, offset)
}

// How many of the offsets of a plan pass a test. Offset and nodes grow together, so a fold would carry them as a pair.
fn count_offsets<A: Address, F: Fn(u32) -> bool>(plan: &Plan<A>, test: &F) -> usize
    requires { F.IsAlwaysCallable test.now }
    ensures { (passes : ℕ → Bool) → ((o : ℕ) (b : Bool) → F.post test.now o b → b ≡ passes o) → result ≡ count passes (offsets (strides_of plan.now)) }
{
    let mut offset: u32 = 0;
    let mut nodes: usize = 0;
    for stride in plan.strides() {
        if test(offset) {
            nodes += 1;
        }
        offset += u32::from(*stride);
    }
    nodes
}

// How many of the nodes on the way to a prefix the routes do not require.
pub(crate) fn missing_nodes<A: Address>(
    routes: &RouteSet<A>,
    plan: &Plan<A>,
    prefix: &Prefix<A>,
) -> usize
    ensures { result ≡ count (missing routes.now.routes (A.Address.bits prefix.now.address) prefix.now.length) (offsets (strides_of plan.now)) }
{
    count_offsets(
        plan,
        &|offset| { offset <= prefix.length && !needs(routes, &prefix.address, offset) },
    )
}

// How many of the nodes that the routes require lie on the way of an address.
pub(crate) fn path_nodes<A: Address>(routes: &RouteSet<A>, plan: &Plan<A>, address: &A) -> usize
    ensures { result ≡ count (needed routes.now.routes (A.Address.bits address.now)) (offsets (strides_of plan.now)) }
{
    count_offsets(plan, &|offset| needs(routes, address, offset))
}
