// The answers of the list, each beside that of a table.
ghost use Rattle.std.specs.Prelude.{◌≡◌, true};
ghost use Rattle.std.specs.Option.{option_map};
ghost use Rattle.model.specs.Calls.{hop_is, opened, route_is};
ghost use Rattle.routes.specs.Meant.{meant, prefix_bits};
ghost use Rattle.descent.specs.Meant.{held_route};
ghost use Rattle.reference.specs.Shown as list;
ghost use Rattle.table.specs.Answers as table_answers;

use crate::compared::Alike;
use address::Address;
use descent::Held;
use reference::{Counted, Deleted, Inserted, Matched};
use routes::{Route, SoundPrefix};
use std::cmp::Ordering;

impl Alike<()> for () {
    ghost told = { λ _. opened };

    ghost beside = { λ _. opened };

    fn alike(&self, _other: &()) -> bool {
        true
    }
}

impl Alike<table::Inserted> for Inserted {
    ghost told = { list.insert_answer };

    ghost beside = { table_answers.insert_answer };

    fn alike(&self, other: &table::Inserted) -> bool {
        self.old == other.old && self.taken == other.taken
    }
}

impl Alike<table::Deleted> for Deleted {
    ghost told = { list.delete_answer };

    ghost beside = { table_answers.delete_answer };

    fn alike(&self, other: &table::Deleted) -> bool {
        self.hop == other.hop && self.returned == other.returned
    }
}

impl<A: Address> Alike<descent::Matched<A>> for Matched<A> {
    ghost told = { list.match_answer A.Address.bits };

    ghost beside = { table_answers.match_answer A.Address.bits };

    fn alike(&self, other: &descent::Matched<A>) -> bool {
        self.path == other.visits && self.route.alike(&other.found)
    }
}

impl Alike<Option<u16>> for Option<u16> {
    ghost told = { λ hop. hop_is hop };

    ghost beside = { λ hop. hop_is hop };

    fn alike(&self, other: &Option<u16>) -> bool {
        self == other
    }
}

impl<A: Address> Alike<Option<Held<A>>> for Option<Route<A>> {
    ghost told = { λ found. route_is (option_map (meant A.Address.bits) found) };

    ghost beside = { λ found. route_is (option_map (held_route A.Address.bits) found) };

    fn alike(&self, other: &Option<Held<A>>) -> bool {
        match (self, other) {
            (None, None) => true,
            (Some(route), Some(held)) => same_route(route, held),
            _ => false,
        }
    }
}

impl Alike<table::Counted> for Counted {
    ghost told = { list.count_answer };

    ghost beside = { table_answers.count_answer };

    fn alike(&self, other: &table::Counted) -> bool {
        self.routes == other.routes && self.required == other.required && self.free == other.free
    }
}

// Whether both are a route of the same prefix with the same hop.
fn same_route<A: Address>(route: &Route<A>, held: &Held<A>) -> bool
    ensures same { meant A.Address.bits route.now ≡ held_route A.Address.bits held.now → result ≡ true }
    ensures differ { result ≡ true → meant A.Address.bits route.now ≡ held_route A.Address.bits held.now }
{
    let prefix = SoundPrefix {
        prefix: route.prefix,
    };
    route.hop == held.hop && same_prefix(&prefix, &held.prefix)
}

// Whether both are the same bits.
#[tactic(auto, using(crate::proofs::Ordered::ordered_equal))]
fn same_prefix<A: Address>(one: &SoundPrefix<A>, other: &SoundPrefix<A>) -> bool
    ensures same { prefix_bits A.Address.bits one.now.prefix ≡ prefix_bits A.Address.bits other.now.prefix → result ≡ true }
    ensures differ { result ≡ true → prefix_bits A.Address.bits one.now.prefix ≡ prefix_bits A.Address.bits other.now.prefix }
{
    one.prefix.compare(&other.prefix) == Ordering::Equal
}
