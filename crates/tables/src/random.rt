//! Random calls, and random fields for memories before they are opened.
use crate::calls::Call;
use nodes::MOST_NODES;
use records::Record;
use reference::RouteList;
use std::alloc::{AllocError, Global};
use trials::dice::Dice;
use trials::lines::Network;
use trials::numbers::Numbered;

// A random word.
fn word(dice: &mut Dice) -> u64 {
    let mut value: u64 = 0;
    for _ in 0..4 {
        value = value << 16 | u64::from(dice.roll(1 << 16));
    }
    value
}

// Random words for so many nodes, and a few behind them.
pub(crate) fn any_words(
    heap: Global,
    dice: &mut Dice,
    size: usize,
) -> Result<Vec<u64>, AllocError> {
    let mut words = vec![in heap; 0; size.saturating_mul(36).saturating_add(5)]?;
    for place in words.iter_mut() {
        *place = word(dice);
    }
    Ok(words)
}

// A record with random fields.
fn any_record(dice: &mut Dice) -> Record {
    let mut record = Record {
        bitmap: word(dice),
        count: dice.roll(256) as u8,
        children: [0; 64],
        hops: [0; 63],
    };
    for child in record.children.iter_mut() {
        *child = dice.roll(MOST_NODES);
    }
    for hop in record.hops.iter_mut() {
        *hop = dice.roll(1 << 16) as u16;
    }
    record
}

// So many records with random fields.
pub(crate) fn any_records(
    heap: Global,
    dice: &mut Dice,
    size: usize,
) -> Result<Vec<Record>, AllocError> {
    let mut records = Vec::new(heap);
    for _ in 0..size {
        records.push(any_record(dice))?;
    }
    Ok(records)
}

// Strides of the right sum, at most 32: as large as can be, or as small, or any.
fn sound_strides(heap: Global, dice: &mut Dice, width: u32) -> Result<Vec<u8>, AllocError> {
    let style = dice.roll(3);
    let mut strides = Vec::new(heap);
    let mut rest = width.saturating_add(1);
    for place in 0..32 {
        if rest == 0 {
            break;
        }
        let behind: u32 = 6 * (31 - place);
        let least = rest.saturating_sub(behind).max(1);
        let most = rest.min(6);
        let stride = match style {
            0 => most,
            1 => least,
            _ => least.saturating_add(dice.roll(most.saturating_sub(least).saturating_add(1))),
        };
        strides.push((stride % 256) as u8)?;
        rest = rest.saturating_sub(stride);
    }
    Ok(strides)
}

// Strides that are a plan two times in three; else one is added, left out or changed, or there are none, or too many of the right sum or not.
fn strides(heap: Global, dice: &mut Dice, width: u32) -> Result<Vec<u8>, AllocError> {
    let mut strides = sound_strides(heap, dice, width)?;
    match dice.roll(21) {
        0 => strides.push(1)?,
        1 => strides.push(0)?,
        2 => {
            strides.pop();
        }
        3 => strides.clear(),
        4 => {
            strides.clear();
            for _ in 0..33 {
                strides.push(1)?;
            }
        }
        5 | 6 => {
            let count = u32::try_from(strides.len()).unwrap_or(u32::MAX);
            let place = dice.roll(count) as usize;
            if let Some(stride) = strides.get_mut(place) {
                *stride = dice.roll(256) as u8;
            }
        }
        _ => {}
    }
    Ok(strides)
}

// A prefix of few set bits, so that they meet often: sometimes too long, sometimes with bits behind its length.
fn network(dice: &mut Dice, width: u32) -> Network {
    let length = match dice.roll(40) {
        0 => width.saturating_add(1).saturating_add(dice.roll(300)),
        1 => u32::MAX,
        2 | 3 => 0,
        4..=8 => width,
        _ => dice.roll(width.saturating_add(1)),
    };
    let stray = dice.roll(12) == 0;
    let mut value: u128 = 0;
    for place in 0..width.min(128) {
        let few = matches!(place, 0 | 1 | 4 | 9 | 16 | 23 | 30 | 31 | 77 | 126 | 127);
        let set = few && dice.roll(2) == 1 && (place < length || stray);
        value = value << 1 | u128::from(set);
    }
    Network { value, length }
}

// A hop, sometimes above the largest.
fn hop(dice: &mut Dice) -> u16 {
    match dice.roll(16) {
        0 => dice.roll(1 << 16) as u16,
        1 => 4095,
        2 => 4096,
        _ => dice.roll(4096) as u16,
    }
}

// The smallest prefix that is held above a prefix, or the same where there is none.
fn held_above<A: Numbered>(list: &RouteList<A>, network: Network) -> Network {
    match list.next(network.prefix()) {
        Ok(Some(route)) => Network::from(route.prefix),
        _ => network,
    }
}

// A random call, one time in two of a prefix that is held; a list that is shut is soon opened.
pub(crate) fn any_call<A: Numbered>(
    heap: Global,
    dice: &mut Dice,
    list: &RouteList<A>,
) -> Result<Call, AllocError> {
    let soon = dice.roll(15) == 0 && list.counts().is_err();
    let rolled = if soon { 0 } else { dice.roll(200) };
    let mut network = network(dice, A::WIDTH);
    if dice.roll(2) == 0 {
        network = held_above(list, network);
    }
    Ok(match rolled {
        0 => Call::Open(strides(heap, dice, A::WIDTH)?),
        1..=90 => Call::Insert(network, hop(dice)),
        91..=129 => Call::Delete(network),
        130..=157 => Call::Lookup(network.value),
        158..=167 => Call::Exact(network),
        168..=172 => Call::First,
        173..=187 => Call::Next(network),
        _ => Call::Counts,
    })
}
