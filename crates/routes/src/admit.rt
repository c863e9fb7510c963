ghost use Rattle.std.specs.Prelude.{◌≡◌, min, take, Err, MatchResult};
ghost use Rattle.routes.specs.Admitted.{prefix_admitted, route_admitted};
ghost use Rattle.routes.specs.Meant.{prefix_bits};

use crate::{LAST_HOP, Route, SoundPrefix};
use address::Address;
use address::prefix::Prefix;
use faults::{Fault, Refusal};

impl<A: Address> SoundPrefix<A> {
    /// The prefix, where it is sound; else the first test that it fails.
    pub fn new(prefix: Prefix<A>) -> Result<SoundPrefix<A>, Fault>
        ensures { MatchResult result (λ s. s.prefix ≡ prefix) (λ f. Err f ≡ prefix_admitted A.Address.WIDTH (A.Address.bits prefix.address) prefix.length) }
    {
        if prefix.length > A::WIDTH {
            return Err(Fault::of_table(Refusal::Length));
        }
        if !prefix.address.clear_from(prefix.length) {
            return Err(Fault::of_table(Refusal::Stray));
        }
        Ok(SoundPrefix { prefix })
    }

    /// The prefix of the first bits of an address, so many, or all where it has no more.
    pub fn of_first_bits(address: A, length: u32) -> SoundPrefix<A>
        ensures bits { prefix_bits A.Address.bits result.prefix ≡ take length (A.Address.bits address) }
        ensures length { result.prefix.length ≡ min length A.Address.WIDTH }
    {
        let length = length.min(A::WIDTH);
        SoundPrefix {
            prefix: Prefix {
                address: address.first_bits(length),
                length,
            },
        }
    }
}

impl<A: Address> Route<A> {
    /// The route, where its prefix is sound and its hop in range; else the first test that it fails.
    pub fn new(prefix: Prefix<A>, hop: u16) -> Result<Route<A>, Fault>
        ensures { MatchResult result (λ r. (r.prefix ≡ prefix) × (r.hop ≡ hop)) (λ f. Err f ≡ route_admitted A.Address.WIDTH (A.Address.bits prefix.address) prefix.length hop) }
    {
        let SoundPrefix { prefix } = SoundPrefix::new(prefix)?;
        if hop > LAST_HOP {
            return Err(Fault::of_table(Refusal::Hop));
        }
        Ok(Route { prefix, hop })
    }
}
