//! What can be wrong with a message, each in a random place.
use crate::message::{Entry, LARGEST, Message};
use std::alloc::{AllocError, Global};
use trials::dice::Dice;

#[derive(Clone, Copy, PartialEq, Eq)]
pub(crate) enum Damage {
    CutShort,
    LeftOver,
    ByteChanged,
    BitTurned,
    BytesSwapped,
    StrideCount,
    StrideChanged,
    StridesSwapped,
    StrideMore,
    StrideLess,
    NumberAbove,
    CountMore,
    CountLess,
    LengthAbove,
    StrayBit,
    HopAbove,
    RoutesSwapped,
    RouteRepeated,
}

pub(crate) const KINDS: usize = 18;

pub(crate) const DAMAGES: [Damage; KINDS] = [
    Damage::CutShort,
    Damage::LeftOver,
    Damage::ByteChanged,
    Damage::BitTurned,
    Damage::BytesSwapped,
    Damage::StrideCount,
    Damage::StrideChanged,
    Damage::StridesSwapped,
    Damage::StrideMore,
    Damage::StrideLess,
    Damage::NumberAbove,
    Damage::CountMore,
    Damage::CountLess,
    Damage::LengthAbove,
    Damage::StrayBit,
    Damage::HopAbove,
    Damage::RoutesSwapped,
    Damage::RouteRepeated,
];

// The index of any of so many.
fn any_index(dice: &mut Dice, size: usize) -> usize {
    dice.roll(u32::try_from(size).unwrap_or(u32::MAX)) as usize
}

// How much something is above the largest that is taken: one time in two just 1, else 1 more than any number below this one.
fn any_above(dice: &mut Dice, sides: u32) -> u32 {
    match dice.roll(2) {
        0 => 1,
        _ => dice.roll(sides).saturating_add(1),
    }
}

// Swaps any two, which may be the same.
fn swap<T: Copy>(dice: &mut Dice, items: &mut [T]) {
    let one = any_index(dice, items.len());
    let other = any_index(dice, items.len());
    if one < items.len() && other < items.len() {
        items.swap(one, other);
    }
}

// Sets one of the bits that the last byte of a prefix has behind its length, if any.
fn set_stray(dice: &mut Dice, entry: &mut Entry) {
    let length = entry.front.length;
    let unused = length.div_ceil(8).saturating_mul(8).saturating_sub(length);
    if unused > 0 {
        let place = length.saturating_add(dice.roll(unused));
        entry.front.top |= 1u128.wrapping_shl(127u32.saturating_sub(place));
    }
}

impl Damage {
    /// What it is, in a few words.
    pub(crate) fn name(self) -> &'static str {
        match self {
            Damage::CutShort => "cut short",
            Damage::LeftOver => "bytes left over",
            Damage::ByteChanged => "a byte changed",
            Damage::BitTurned => "a bit turned",
            Damage::BytesSwapped => "two bytes swapped",
            Damage::StrideCount => "another count of strides",
            Damage::StrideChanged => "a stride changed",
            Damage::StridesSwapped => "two strides swapped",
            Damage::StrideMore => "a stride more",
            Damage::StrideLess => "a stride less",
            Damage::NumberAbove => "a number above the largest",
            Damage::CountMore => "a count one more",
            Damage::CountLess => "a count one less",
            Damage::LengthAbove => "a length above the width",
            Damage::StrayBit => "a stray bit",
            Damage::HopAbove => "a hop above the largest",
            Damage::RoutesSwapped => "two routes swapped",
            Damage::RouteRepeated => "a route repeated",
        }
    }

    // What it does to one entry, for addresses of so many bits.
    fn harm_entry(self, dice: &mut Dice, width: u32, entry: &mut Entry) {
        match self {
            Damage::LengthAbove => {
                let above = any_above(dice, 255u32.saturating_sub(width));
                entry.front.length = width.saturating_add(above);
            }
            Damage::StrayBit => set_stray(dice, entry),
            Damage::HopAbove => {
                let hop = any_above(dice, 61_440).saturating_add(4095);
                entry.hop = u16::try_from(hop).unwrap_or(u16::MAX);
            }
            _ => {}
        }
    }

    // What it does to the fields.
    fn harm_fields(
        self,
        dice: &mut Dice,
        width: u32,
        message: &mut Message,
    ) -> Result<(), AllocError> {
        let index = any_index(dice, message.entries.len());
        match self {
            Damage::StrideChanged => {
                let index = any_index(dice, message.strides.len());
                if let Some(stride) = message.strides.get_mut(index) {
                    *stride = dice.roll(8) as u8;
                }
            }
            Damage::StridesSwapped => swap(dice, message.strides.as_mut_slice()),
            Damage::StrideMore => message.strides.push(1)?,
            Damage::StrideLess => {
                message.strides.pop();
            }
            Damage::NumberAbove => {
                let above = u64::from(any_above(dice, 1 << 31)) << (31 * dice.roll(2));
                message.number = LARGEST.saturating_add(above);
            }
            Damage::CountMore => message.count = message.count.wrapping_add(1),
            // of none, the largest
            Damage::CountLess => message.count = message.count.wrapping_sub(1),
            Damage::RoutesSwapped => swap(dice, message.entries.as_mut_slice()),
            Damage::RouteRepeated => {
                let other = any_index(dice, message.entries.len());
                if let Some(entry) = message.entries.get(other).copied()
                    && index < message.entries.len()
                {
                    message.entries.insert(index, entry)?;
                    message.count = message.count.wrapping_add(1);
                }
            }
            _ => {
                if let Some(entry) = message.entries.get_mut(index) {
                    self.harm_entry(dice, width, entry);
                }
            }
        }
        Ok(())
    }

    // What it does to the bytes.
    fn harm_bytes(self, dice: &mut Dice, bytes: &mut Vec<u8>) -> Result<(), AllocError> {
        let index = any_index(dice, bytes.len());
        match self {
            Damage::CutShort => bytes.truncate(index),
            Damage::LeftOver => {
                for _ in 0..dice.roll(3).saturating_add(1) {
                    bytes.push(dice.roll(256) as u8)?;
                }
            }
            Damage::BytesSwapped => swap(dice, bytes.as_mut_slice()),
            Damage::ByteChanged => {
                if let Some(byte) = bytes.get_mut(index) {
                    *byte = dice.roll(256) as u8;
                }
            }
            Damage::BitTurned => {
                if let Some(byte) = bytes.get_mut(index) {
                    *byte ^= 1u8.wrapping_shl(dice.roll(8));
                }
            }
            Damage::StrideCount => {
                if let Some(byte) = bytes.get_mut(8) {
                    *byte = dice.roll(256) as u8;
                }
            }
            _ => {}
        }
        Ok(())
    }
}

/// The bytes of a message, for addresses of so many bits, with these damages.
pub(crate) fn harmed(
    heap: Global,
    dice: &mut Dice,
    width: u32,
    message: &Message,
    damages: &[Damage],
) -> Result<Vec<u8>, AllocError> {
    let mut message = Message {
        number: message.number,
        strides: message.strides.clone()?,
        count: message.count,
        entries: message.entries.clone()?,
    };
    for damage in damages {
        damage.harm_fields(dice, width, &mut message)?;
    }
    let mut bytes = message.bytes(heap)?;
    for damage in damages {
        damage.harm_bytes(dice, &mut bytes)?;
    }
    Ok(bytes)
}

/// Any of the damages.
pub(crate) fn any_damage(dice: &mut Dice) -> Damage {
    let index = any_index(dice, DAMAGES.len());
    DAMAGES.get(index).copied().unwrap_or(Damage::CutShort)
}
