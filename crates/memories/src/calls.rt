//! The calls of a node memory as values, and what a memory answers to one.
use faults::Fault;
use nodes::NodeWrite;
use trials::dice::Dice;

#[derive(Clone, Copy, PartialEq, Eq, Debug)]
pub(crate) enum Call {
    Size,
    Bitmap(u32),
    Count(u32),
    Child(u32, u8),
    Hop(u32, u8),
    SetBitmap(u32, u64),
    SetCount(u32, u8),
    SetChild(u32, u8, u32),
    SetHop(u32, u8, u16),
}

// A number of 64 random bits.
fn bits(dice: &mut Dice) -> u64 {
    let high = u64::from(dice.roll(1 << 31));
    let low = u64::from(dice.roll(1 << 31));
    let last = u64::from(dice.roll(4));
    (high << 33) | (low << 2) | last
}

impl Call {
    // A random call: of a node, an index and a value of which some are just outside what is taken.
    pub(crate) fn random(dice: &mut Dice, size: u32) -> Call {
        let rolled = dice.roll(9);
        let node = dice.roll(size.saturating_add(1));
        let index = dice.roll(66) as u8;
        match rolled {
            0 => Call::Size,
            1 => Call::Bitmap(node),
            2 => Call::Count(node),
            3 => Call::Child(node, index),
            4 => Call::Hop(node, index),
            5 => Call::SetBitmap(node, bits(dice)),
            6 => Call::SetCount(node, dice.roll(67) as u8),
            7 => Call::SetChild(node, index, dice.roll(size.saturating_add(1))),
            _ => Call::SetHop(node, index, dice.roll(4200) as u16),
        }
    }

    // What a memory answers, as a number.
    pub(crate) fn answer<M: NodeWrite>(self, memory: &mut M) -> Result<u64, Fault> {
        let nothing = 0;
        match self {
            Call::Size => Ok(u64::from(memory.size())),
            Call::Bitmap(node) => memory.bitmap(node),
            Call::Count(node) => memory.count(node).map(u64::from),
            Call::Child(node, index) => memory.child(node, index).map(u64::from),
            Call::Hop(node, position) => memory.hop(node, position).map(u64::from),
            Call::SetBitmap(node, bitmap) => memory.set_bitmap(node, bitmap).map(|_| nothing),
            Call::SetCount(node, count) => memory.set_count(node, count).map(|_| nothing),
            Call::SetChild(node, index, child) => memory
                .set_child(node, index, child)
                .map(|_| nothing),
            Call::SetHop(node, position, hop) => memory
                .set_hop(node, position, hop)
                .map(|_| nothing),
        }
    }
}
