ghost use Rattle.std.specs.Prelude.{◌≡◌, ◌≤◌, [], length, map, is_ok, if◌then◌else◌, false, IfNone, MatchOption, MatchResult};
ghost use Rattle.std.specs.List.{All};
ghost use Rattle.std.specs.Option.{option_map};
ghost use Rattle.bits.specs.Order.{order, begins};
ghost use Rattle.model.specs.Routes.{find, put, without, longest, smallest, above};
ghost use Rattle.routes.specs.Meant.{meant, prefix_bits};
ghost use Rattle.routes.specs.Found.{Hit, Miss, LastMatch};
ghost use Rattle.routes.specs.InOrder.{InOrder};

use crate::{Route, SoundPrefix};
use address::Address;
use std::alloc::{AllocError, Global};
use std::cmp::Ordering;
use std::marker::Model;

/// A set of routes, at most one to a prefix, in ascending order.
#[derive(Drop)]
pub struct RouteSet<A: Address> {
    routes: Vec<Route<A>>,
}

impl<A: Address> Model for RouteSet<A> {
    ghost use Rattle.std.specs.Prelude.{map, vec_capacity};
    ghost use Rattle.routes.specs.InOrder.{InOrder};
    ghost use Rattle.routes.specs.Kept.{Kept};

    ghost Value = { Kept };

    ghost use Rattle.routes.specs.Meant.{meant};

    ghost view = { λ s. record { routes = map (meant A.Address.bits) s.routes.items; room = vec_capacity s.routes } };

    ghost invariant = { λ s. InOrder A.Address.WIDTH (map (meant A.Address.bits) s.routes.items) };
}

// A route's prefix beside another, by address, then shorter first.
fn ordered<A: Address>(route: &Route<A>, prefix: &SoundPrefix<A>) -> Ordering
    ensures { result ≡ order (prefix_bits A.Address.bits route.now.prefix) (prefix_bits A.Address.bits prefix.now.prefix) }
{
    route.prefix.compare(&prefix.prefix)
}

// The last of the routes that matches the address.
fn last_match<'a, A: Address>(routes: &'a [Route<A>], address: &A) -> Option<&'a Route<A>>
    ensures { MatchOption result (All (λ r. begins (prefix_bits A.Address.bits r.prefix) (A.Address.bits address.now) ≡ false) routes.now) (λ r. LastMatch A.Address.bits routes.now (A.Address.bits address.now) r.now) }
{
    routes.iter().rfind(|route| route.prefix.matches(address))
}

// What a contract sees of a set is a value; so that the routes are in order is said where they are given or changed, for what stands on a set.
impl<A: Address> RouteSet<A> {
    /// No routes.
    pub fn new(heap: Global) -> RouteSet<A>
        ensures { result.routes ≡ [] }
    {
        RouteSet {
            routes: Vec::new(heap),
        }
    }

    /// Lets go of all routes; the room stays.
    pub fn clear(&mut self)
        ensures routes { self.new.routes ≡ [] }
        ensures room { self.new.room ≡ self.old.room }
    {
        self.routes.clear();
    }

    /// The routes in ascending order.
    pub fn as_slice(&self) -> &[Route<A>]
        ensures routes { map (meant A.Address.bits) result.now ≡ self.now.routes }
        ensures ordered { InOrder A.Address.WIDTH self.now.routes }
    {
        self.routes.as_slice()
    }

    // The index of the route of a prefix, or else, as `Err`, the index at which it belongs: what the library's search answers.
    fn place(&self, prefix: SoundPrefix<A>) -> Result<usize, usize>
        ensures { MatchResult result (Hit self.now.routes (prefix_bits A.Address.bits prefix.prefix)) (Miss self.now.routes (prefix_bits A.Address.bits prefix.prefix)) }
    {
        self.routes.binary_search_by(|held| ordered(held, &prefix))
    }

    /// The hop of a prefix, or none.
    pub fn hop(&self, prefix: SoundPrefix<A>) -> Option<u16>
        ensures { result ≡ find self.now.routes (prefix_bits A.Address.bits prefix.prefix) }
    {
        match self.place(prefix) {
            Ok(i) => Some(self.routes[i].hop),
            Err(_) => None,
        }
    }

    /// Puts in a route or replaces its hop, and answers the old hop or none. For want of memory the routes stay as they were.
    pub fn put(&mut self, route: Route<A>) -> Result<Option<u16>, AllocError>
        ensures answer { MatchResult result (λ old. old ≡ find self.old.routes (prefix_bits A.Address.bits route.prefix)) (λ _. self.old.room ≤ length self.old.routes) }
        ensures after { self.new.routes ≡ (if is_ok result then put self.old.routes (prefix_bits A.Address.bits route.prefix) route.hop else self.old.routes) }
        ensures ordered { InOrder A.Address.WIDTH self.new.routes }
    {
        let prefix = SoundPrefix {
            prefix: route.prefix,
        };
        match self.place(prefix) {
            Ok(i) => {
                let old = self.routes[i].hop;
                self.routes[i] = route;
                Ok(Some(old))
            }
            Err(i) => {
                self.routes.insert(i, route)?;
                Ok(None)
            }
        }
    }

    /// Takes out the route of a prefix, and answers its hop or none; then nothing changes.
    pub fn remove(&mut self, prefix: SoundPrefix<A>) -> Option<u16>
        ensures answer { result ≡ find self.old.routes (prefix_bits A.Address.bits prefix.prefix) }
        ensures after { self.new.routes ≡ without self.old.routes (prefix_bits A.Address.bits prefix.prefix) }
        ensures absent { IfNone result (self.new ≡ self.old) }
        ensures ordered { InOrder A.Address.WIDTH self.new.routes }
    {
        match self.place(prefix) {
            Ok(i) => Some(self.routes.remove(i).hop),
            Err(_) => None,
        }
    }

    /// The route with the longest prefix that matches the address, or none: the last in the order that matches.
    pub fn longest_match(&self, address: &A) -> Option<Route<A>>
        ensures { option_map (meant A.Address.bits) result ≡ longest self.now.routes (A.Address.bits address.now) }
    {
        last_match(self.as_slice(), address).copied()
    }

    /// The smallest route, or none.
    pub fn first(&self) -> Option<Route<A>>
        ensures { option_map (meant A.Address.bits) result ≡ smallest self.now.routes }
    {
        self.routes.first().copied()
    }

    /// The smallest route above a prefix, or none.
    pub fn above(&self, prefix: SoundPrefix<A>) -> Option<Route<A>>
        ensures { option_map (meant A.Address.bits) result ≡ above self.now.routes (prefix_bits A.Address.bits prefix.prefix) }
    {
        let routes = self.as_slice();
        let from = match self.place(prefix) {
            Ok(i) => i + 1,
            Err(i) => i,
        };
        routes.get(from).copied()
    }
}
