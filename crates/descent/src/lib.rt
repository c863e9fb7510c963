//! The way down the tree: everything that only reads it. Each function is stated on any memory, safe there and finished, and on the nodes of a
//! table it answers as the plain list of routes does.
#![tactic(auto)]

use address::Address;
use routes::SoundPrefix;

mod ascending;
mod trails;
mod walk;

pub use ascending::{first, next};
pub use trails::{Trail, exact, trail_to};
pub use walk::{Matched, lookup};

/// A prefix and the hop that the memory holds for it.
#[derive(Clone, Copy)]
pub struct Held<A: Address> {
    pub prefix: SoundPrefix<A>,
    pub hop: u16,
}
