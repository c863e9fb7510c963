ghost use Rattle.std.specs.Prelude.{◌≡◌, ◌≤◌, [], length, IfNone, IfSome, not, sum, filter};
ghost use Rattle.std.specs.List.{list_all};
ghost use Rattle.bits.specs.Rows.{row, number};
ghost use Rattle.trials.specs.Lines.{front, begins, names, admitted, is_above, matching, hop_of, IsLongest, IsSmallest, is_stride, is_plan};

use crate::numbers::Numbered;
use address::prefix::Prefix;
use faults::{Fault, Refusal};
use routes::Route;
use std::alloc::Global;

/// The first bits of an address: the address as a number, and how many bits.
#[derive(Clone, Copy, PartialEq, Eq, PartialOrd, Ord)]
pub struct Network {
    pub value: u128,
    pub length: u32,
}

/// A route by the number of its address.
#[derive(Clone, Copy, PartialEq, Eq, PartialOrd, Ord)]
pub struct Line {
    pub network: Network,
    pub hop: u16,
}

/// Routes in no order, for addresses of so many bits.
#[derive(Drop)]
pub struct Lines {
    pub width: u32,
    pub lines: Vec<Line>,
}

// Whether each stride is 1 to 6.
fn are_strides(strides: &[u8]) -> bool
    ensures { result ≡ list_all is_stride strides.now }
{
    strides.iter().all(|stride| *stride >= 1 && *stride <= 6)
}

// The sum of at most 32 strides.
fn sum_of(strides: &[u8]) -> u32
    requires { length strides.now ≤ 32 }
    ensures { result ≡ sum strides.now }
{
    strides.iter().map(|stride| u32::from(*stride)).sum()
}

// Written anew, and not taken from what it is compared with.
/// Whether strides are a plan for addresses of so many bits: 1 to 32 of them, each 1 to 6, of the sum of one above the width.
pub fn is_plan(width: u32, strides: &[u8]) -> bool
    ensures { result ≡ is_plan width strides.now }
{
    !strides.is_empty()
        && strides.len() <= 32
        && are_strides(strides)
        && u64::from(sum_of(strides)) == u64::from(width) + 1
}

impl Network {
    /// The first `length` of the `width` bits of a number, zeros behind them.
    pub fn cut(width: u32, value: u128, length: u32) -> Network
        ensures value { result.value ≡ front width length value }
        ensures length { result.length ≡ length }
    {
        let free = width.saturating_sub(length);
        let value = if free < 128 { value >> free << free } else { 0 };
        Network { value, length }
    }

    /// Whether its bits begin the number of an address of so many bits.
    pub fn begins(self, width: u32, value: u128) -> bool
        ensures { result ≡ begins width self value }
    {
        Network::cut(width, value, self.length) == self
    }

    /// The prefix of these bits.
    pub fn prefix<A: Numbered>(self) -> Prefix<A>
        ensures bits { A.bits result.address ≡ row A.WIDTH self.value }
        ensures length { result.length ≡ self.length }
    {
        Prefix {
            address: A::from_value(self.value),
            length: self.length,
        }
    }
}

impl<A: Numbered> From<Prefix<A>> for Network {
    ghost from_gives = { λ p n. (n.value ≡ number (A.bits p.address)) × (n.length ≡ p.length) };

    fn from(prefix: Prefix<A>) -> Network {
        Network {
            value: prefix.address.value(),
            length: prefix.length,
        }
    }
}

impl<A: Numbered> From<Route<A>> for Line {
    ghost from_gives = { λ r l. (l.network.value ≡ number (A.bits r.prefix.address)) × (l.network.length ≡ r.prefix.length) × (l.hop ≡ r.hop) };

    fn from(route: Route<A>) -> Line {
        Line {
            network: Network::from(route.prefix),
            hop: route.hop,
        }
    }
}

impl Lines {
    /// No routes.
    pub fn new(heap: Global, width: u32) -> Lines
        ensures width { result.width ≡ width }
        ensures lines { result.lines.items ≡ [] }
    {
        Lines {
            width,
            lines: Vec::new(heap),
        }
    }

    /// The tests that come first where a prefix is named.
    pub fn admit(&self, network: Network) -> Result<(), Fault>
        ensures { result ≡ admitted self.now.width network }
    {
        if network.length > self.width {
            return Err(Fault::of_table(Refusal::Length));
        }
        if !network.begins(self.width, network.value) {
            return Err(Fault::of_table(Refusal::Stray));
        }
        Ok(())
    }

    /// The hop of a prefix, or none.
    pub fn hop(&self, network: Network) -> Option<u16>
        ensures { result ≡ hop_of network self.now.lines.items }
    {
        self.lines
            .iter()
            .find(|line| line.network == network)
            .map(|line| line.hop)
    }

    /// Takes a prefix out, and answers its hop, or none.
    pub fn take(&mut self, network: Network) -> Option<u16>
        ensures answer { result ≡ hop_of network self.old.lines.items }
        ensures rest { self.new.lines.items ≡ filter (λ l. not (names network l)) self.old.lines.items }
        ensures width { self.new.width ≡ self.old.width }
    {
        let hop = self.hop(network);
        self.lines.retain(|line| line.network != network);
        hop
    }

    /// The longest of the routes that match the number of an address, or none.
    pub fn longest(&self, value: u128) -> Option<Line>
        ensures none { IfNone result (matching self.now.width value self.now.lines.items ≡ []) }
        ensures longest { IfSome result (IsLongest (matching self.now.width value self.now.lines.items)) }
    {
        self.lines
            .iter()
            .copied()
            .filter(|line| line.network.begins(self.width, value))
            .max_by_key(|line| line.network.length)
    }

    /// The smallest of the routes above a prefix, or of all.
    pub fn smallest(&self, above: Option<Network>) -> Option<Line>
        ensures none { IfNone result (filter (is_above above) self.now.lines.items ≡ []) }
        ensures smallest { IfSome result (IsSmallest (filter (is_above above) self.now.lines.items)) }
    {
        self.lines
            .iter()
            .copied()
            .filter(|line| above.is_none_or(|network| line.network > network))
            .min_by_key(|line| line.network)
    }
}
