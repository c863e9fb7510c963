//! Random sheets.
use crate::message::{Entry, Front, LARGEST, Message};
use std::alloc::{AllocError, Global};
use std::collections::BTreeMap;
use trials::dice::Dice;

// Any bits.
fn word(dice: &mut Dice) -> u128 {
    let mut word: u128 = 0;
    for _ in 0..8 {
        word = word << 16 | u128::from(dice.roll(1 << 16));
    }
    word
}

// A random prefix: any bits, or few, or those of the prefix before, so that one is within the other, or with one bit changed.
fn front(dice: &mut Dice, width: u32, before: Front) -> Front {
    let top = match dice.roll(5) {
        0 => word(dice),
        1 => word(dice) & word(dice) & word(dice),
        2 => before.top,
        3 => before.top ^ 1u128.wrapping_shl(127u32.saturating_sub(dice.roll(width))),
        _ => before.top >> 1,
    };
    let length = match dice.roll(10) {
        0 => 0,
        1 => width,
        2 => before.length,
        3 => before.length.saturating_add(1).min(width),
        4 => before.length.saturating_sub(1),
        _ => dice.roll(width.saturating_add(1)),
    };
    Front::cut(top, length)
}

fn hop(dice: &mut Dice) -> u16 {
    match dice.roll(8) {
        0 => 0,
        1 => 4095,
        _ => dice.roll(4096) as u16,
    }
}

fn number(dice: &mut Dice) -> u64 {
    match dice.roll(8) {
        0 => 0,
        1 => LARGEST,
        _ => (word(dice) % u128::from(LARGEST)) as u64,
    }
}

/// A random sheet of a plan, for addresses of so many bits; a prefix that is drawn again replaces the route before, so the routes may be fewer.
pub(crate) fn any_message(
    heap: Global,
    dice: &mut Dice,
    width: u32,
    strides: &[u8],
    drawn: u32,
) -> Result<Message, AllocError> {
    let mut held = BTreeMap::new(heap);
    let mut last = Front::cut(0, 0);
    for _ in 0..drawn {
        last = front(dice, width, last);
        held.insert(last, hop(dice))?;
    }
    let mut entries = Vec::new(heap);
    let mut count: u32 = 0;
    for (front, hop) in held.iter() {
        entries.push(Entry {
            front: *front,
            hop: *hop,
        })?;
        count = count.saturating_add(1);
    }
    let mut copied = Vec::new(heap);
    copied.extend_from_slice(strides)?;
    Ok(Message {
        number: number(dice),
        strides: copied,
        count,
        entries,
    })
}
