ghost use Rattle.std.specs.Prelude.{◌≡◌, take};
ghost use Rattle.bits.specs.Order.{order, begins, by_address, Sound};

use crate::Address;
use std::cmp::Ordering;

/// The first `length` bits of an address. It is sound where the length is within the width and every bit from there on is 0.
#[derive(Clone, Copy, PartialEq, Eq, Hash, Debug)]
pub struct Prefix<A: Address> {
    pub address: A,
    pub length: u32,
}

// A prefix may be unsound, since calls refuse such a one by number; so soundness is a premise of `compare` and no fact of the type.
impl<A: Address> Prefix<A> {
    /// Whether the prefix begins the address.
    pub fn matches(&self, address: &A) -> bool
        ensures { result ≡ begins (take self.now.length (A.Address.bits self.now.address)) (A.Address.bits address.now) }
    {
        let front = address.first_bits(self.length);
        self.address.first_bits(self.length).compare(&front) == Ordering::Equal
    }

    // No `Ord`, as for addresses (`Address::compare`).
    /// By address, then shorter first; of sound prefixes, that is the order of their bits, a prefix before those that it begins.
    pub fn compare(&self, other: &Prefix<A>) -> Ordering
        ensures value { result ≡ by_address (A.Address.bits self.now.address) self.now.length (A.Address.bits other.now.address) other.now.length }
        ensures sound { Sound (A.Address.bits self.now.address) self.now.length → Sound (A.Address.bits other.now.address) other.now.length → result ≡ order (take self.now.length (A.Address.bits self.now.address)) (take other.now.length (A.Address.bits other.now.address)) }
    {
        self.address
            .compare(&other.address)
            .then(self.length.cmp(&other.length))
    }
}
