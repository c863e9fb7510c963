//! The commands of a console over both engines: how a line is read as one, what it does, and what is answered.
#![tactic(auto)]

mod command;
pub mod console;
mod drawing;
mod line;
mod session;
