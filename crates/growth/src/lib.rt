//! What changes the tree: opening, taking and returning nodes, marking and unmarking. Each function is safe and ends on any memory; where its premises
//! hold, it is done, and every field is then what its contract says.
#![tactic(auto)]

mod attaching;
mod chain;
mod climbing;
mod entering;
mod marks;
mod opening;

pub use climbing::{Climbed, climb};
pub use entering::enter;
pub use marks::unmark;
pub use opening::open;
