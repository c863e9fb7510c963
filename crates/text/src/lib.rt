//! Addresses and prefixes as people type them.
#![tactic(auto)]

ghost use Rattle.std.specs.Prelude.{◌≡◌, ℕ, ◌+◌, ◌^◌, ◌<◌, ◌≤◌, List, length, IfOk, IfErr, IsErrAnd, string_bytes, MatchResult};

use address::Address;
use std::alloc::{AllocError, Global};

pub mod ipv4;
pub mod ipv6;
mod number;
pub mod prefix;

/// A text that cannot be read, with the place of the byte at which reading it stopped: its length where more was expected.
#[derive(Clone, Copy, PartialEq, Eq, Debug)]
pub struct Unreadable {
    pub place: usize,
}

// What was read behind the first bytes of a text, in the whole text: a refusal stands so many bytes further on.
fn behind<T>(bytes: usize, read: Result<T, Unreadable>) -> Result<T, Unreadable>
    requires { IfErr read (λ e. bytes + e.place < 2 ^ 64) }
    ensures { MatchResult read (λ x. result ≡ Ok x) (λ e. IsErrAnd result (λ d. d.place ≡ bytes + e.place)) }
{
    read.map_err(|stop| Unreadable {
        place: bytes + stop.place,
    })
}

/// An address kind that people read and write.
pub trait AddressText: Address {
    // the text that is written of an address
    ghost spelled: { Self → List ℕ };

    // the text stands for the address
    ghost reads: { List ℕ → Self → Type 0 };

    /// The address that a text stands for.
    fn read(text: &[u8]) -> Result<Self, Unreadable>
        ensures { MatchResult result (λ a. reads text.now a) (λ e. (e.place ≤ length text.now) × ((a : Self) → reads text.now a → ⊥)) };

    // No `Display`, which is of another crate as the kinds are: a type around each kind would only call this.
    /// The text of the address.
    fn text(&self, heap: Global) -> Result<String, AllocError>
        ensures { IfOk result (λ s. string_bytes s ≡ spelled self.now) };

    // what is written reads back
    ghost back: { (a : Self) → reads (spelled a) a };

    // a text stands for one address at most
    ghost one: { (t : List ℕ) (a b : Self) → reads t a → reads t b → Self.bits a ≡ Self.bits b };
}
