//! Sheets: all routes of a table in one message. A number in 8 bytes, the count of strides in 1 and each stride in 1, the count of routes in 4 and
//! the routes, ascending, each a prefix and its hop in 2 bytes.
#![tactic(auto)]

use address::Address;
use messages::reader::Reader;
use routes::Route;

pub mod read;
mod required;
pub mod write;

/// The largest number of a message.
pub const LAST_NUMBER: u64 = 1 << 62;

/// The routes of a message, one after the other from a place in its bytes, each above the one before.
#[derive(Clone, Copy)]
pub struct Routes<'a, A: Address> {
    reader: Reader<'a>,
    last: Option<Route<A>>,
}

/// A sheet that was read whole: its number, how many routes it has, how many nodes they require, and the routes, which are in the bytes that were lent.
#[derive(Clone, Copy)]
pub struct Sheet<'a, A: Address> {
    pub number: u64,
    pub count: u32,
    pub required: usize,
    pub routes: Routes<'a, A>,
}
