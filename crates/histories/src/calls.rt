use crate::scan::Scan;
use std::alloc::{AllocError, Global};
use trials::dice::Dice;
use trials::lines::{Line, Network};
use trials::tally::{hop_number, route_number, sum_with};

// a call on a list of routes
#[derive(Drop)]
pub(crate) enum Call {
    Open(Vec<u8>),
    Insert(Network, u16),
    Delete(Network),
    Lookup(u128),
    Exact(Network),
    First,
    Next(Network),
    Counts,
}

// what is answered to a call that is not refused
#[derive(Clone, Copy, PartialEq, Eq)]
pub(crate) enum Answer {
    Opened,
    Inserted {
        old: Option<u16>,
        taken: usize,
    },
    Deleted {
        hop: u16,
        returned: usize,
    },
    Matched {
        route: Option<Line>,
        path: usize,
    },
    Hop(Option<u16>),
    Route(Option<Line>),
    Counted {
        routes: usize,
        required: usize,
        free: usize,
    },
}

// A prefix out of few, so that they meet often: sometimes too long, sometimes with stray bits.
// It has no contract: one that pins it would be these rolls once more.
fn network(dice: &mut Dice, width: u32) -> Network {
    let length = dice.roll(width.saturating_add(3));
    let mut value: u128 = 0;
    // By an index, which the rolls of a bit, drawn in order, ask for.
    for i in 0..width.min(128) {
        let set = matches!(i, 0..=2 | 9 | 23 | 30 | 77);
        let bit = set && dice.roll(2) == 1 && (i < length || dice.roll(8) == 0);
        value = value << 1 | u128::from(bit);
    }
    Network { value, length }
}

// Strides of 6 and one other, at any place, and perhaps without the last: with a 3 and none left out they sum to one above the width of
// either kind; with a 9 and another left out they do so too, but the 9 is too much.
fn strides(heap: Global, dice: &mut Dice, width: u32) -> Result<Vec<u8>, AllocError> {
    let count = width / 6 + 1;
    let place = dice.roll(count);
    let odd = if dice.roll(2) == 0 { 3 } else { 9 };
    let left_out = dice.roll(2);
    (0..count - left_out)
        .map(|i| if i == place { odd } else { 6 })
        .collect(heap)
}

impl Call {
    // A random call for a scan's addresses, one time in three of a prefix that the scan holds.
    pub(crate) fn random(heap: Global, dice: &mut Dice, scan: &Scan) -> Result<Call, AllocError> {
        let rolled = dice.roll(200);
        let mut network = network(dice, scan.width);
        if dice.roll(3) == 0 {
            network = scan.held_above(network);
        }
        Ok(match rolled {
            0..=1 => Call::Open(strides(heap, dice, scan.width)?),
            2..=91 => Call::Insert(network, dice.roll(4200) as u16),
            92..=124 => Call::Delete(network),
            125..=154 => Call::Lookup(network.value),
            155..=164 => Call::Exact(network),
            165..=169 => Call::First,
            170..=184 => Call::Next(network),
            _ => Call::Counts,
        })
    }
}

impl Answer {
    // As a number, so that a sum can be taken over all.
    pub(crate) fn number(self) -> u64 {
        match self {
            Answer::Opened => 100,
            Answer::Inserted { old, taken } => sum_with(hop_number(old), taken as u64),
            Answer::Deleted { hop, returned } => sum_with(u64::from(hop), returned as u64),
            Answer::Matched { route, path } => sum_with(route_number(route), path as u64),
            Answer::Hop(hop) => hop_number(hop),
            Answer::Route(route) => route_number(route),
            Answer::Counted {
                routes,
                required,
                free,
            } => sum_with(sum_with(routes as u64, required as u64), free as u64),
        }
    }
}
