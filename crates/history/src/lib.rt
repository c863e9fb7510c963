//! Histories: lists of calls put to a table, and two tables that cannot be told apart by what they were asked before.
#![tactic(auto)]

use address::Address;
use address::prefix::Prefix;
use descent::{Held, Matched};
use table::{Counted, Deleted, Inserted};

mod course;
mod promise;

pub use course::{perform, run};
pub use promise::{Both, twins};

/// What is asked of a table.
#[derive(Clone, Copy)]
pub enum Call<'a, A: Address> {
    Open(&'a [u8]),
    Insert(Prefix<A>, u16),
    Delete(Prefix<A>),
    Lookup(A),
    Exact(Prefix<A>),
    First,
    Next(Prefix<A>),
    Counts,
}

/// What a call that is granted answers.
#[derive(Clone, Copy)]
pub enum Granted<A: Address> {
    Opened,
    Inserted(Inserted),
    Deleted(Deleted),
    Matched(Matched<A>),
    HopIs(Option<u16>),
    RouteIs(Option<Held<A>>),
    Counted(Counted),
}
