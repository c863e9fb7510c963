//! Routes, and ascending sets of them.
#![tactic(auto)]

ghost use Rattle.std.specs.Prelude.{◌≡◌, ◌≤◌, ⊤};
ghost use Rattle.bits.specs.Order.{Sound};

use address::Address;
use address::prefix::Prefix;
use std::alloc::AllocError;

pub mod admit;
pub mod failure;
pub mod set;

/// The largest hop.
pub const LAST_HOP: u16 = 4095;

/// A prefix whose length is within the width, with no bit set behind it.
pub struct SoundPrefix<A: Address> {
    pub prefix: Prefix<A>,
    pub ghost sound: { Sound (A.Address.bits prefix.address) prefix.length },
}

/// A sound prefix and the hop, 0 to 4095, for the addresses that it matches.
pub struct Route<A: Address> {
    pub prefix: Prefix<A>,
    pub hop: u16,
    pub ghost sound: { Sound (A.Address.bits prefix.address) prefix.length },
    pub ghost small: { hop ≤ 4095 },
}

// A derive of `Clone` is refused beside a ghost field where the type has a parameter; so here and below.
impl<A: Address> Clone for SoundPrefix<A> {
    ghost is_clone = { λ a b. b ≡ a };

    ghost is_infallible = { λ _. ⊤ };

    fn clone(&self) -> Result<Self, AllocError> {
        Ok(*self)
    }
}

impl<A: Address> Copy for SoundPrefix<A> {}

impl<A: Address> Clone for Route<A> {
    ghost is_clone = { λ a b. b ≡ a };

    ghost is_infallible = { λ _. ⊤ };

    fn clone(&self) -> Result<Self, AllocError> {
        Ok(*self)
    }
}

impl<A: Address> Copy for Route<A> {}
