//! Fields of a tree with random damage, in records and in words.
use crate::layout::{Layout, set_child};
use crate::random::{one_of, word};
use nodes::{LAST_POSITION, MOST_CHILDREN, MOST_NODES};
use records::Record;
use trials::dice::Dice;
use trials::lines::Line;

// A number for a child: 0, or one just outside, or any that a memory may hold, or that of a node on the way to an address, so that the way may
// lead in a circle, or that of any node.
fn any_child(dice: &mut Dice, layout: &Layout, value: u128) -> u32 {
    let size = layout.size;
    let any = dice.roll(size);
    match dice.roll(8) {
        0 => 0,
        1 => size.saturating_add(dice.roll(3)).min(MOST_NODES - 1),
        2 => dice.roll(MOST_NODES),
        3..=4 => one_of(dice, layout.levels.as_slice())
            .and_then(|level| layout.node(value, *level))
            .unwrap_or(any),
        _ => any,
    }
}

// Damages a node on the way to a route, or any node.
pub(crate) fn damage(dice: &mut Dice, layout: &Layout, lines: &[Line], fields: &mut [Record]) {
    let value = one_of(dice, lines).map_or(0, |line| line.network.value);
    let any = dice.roll(layout.size);
    let Some(level) = one_of(dice, layout.levels.as_slice()) else {
        return;
    };
    let node = layout.node(value, *level).unwrap_or(any);
    let kind = dice.roll(6);
    if kind < 3 {
        let child = any_child(dice, layout, value);
        set_child(fields, node, layout.index(value, *level), child);
        return;
    }
    let Some(record) = fields.get_mut(node as usize) else {
        return;
    };
    match kind {
        3 => record.bitmap = word(dice),
        4 => {
            for child in record.children.iter_mut() {
                *child = any_child(dice, layout, value);
            }
        }
        _ => {
            record.count = dice.roll(128) as u8;
            for hop in record.hops.iter_mut() {
                *hop = dice.roll(4096) as u16;
            }
        }
    }
}

// Sets so many bits of a word, from a place on.
fn set_bits(words: &mut [u64], word: u8, place: u8, count: u32, value: u64) {
    let place = u32::from(place);
    let mask = 1u64.wrapping_shl(count).wrapping_sub(1).wrapping_shl(place);
    if let Some(held) = words.get_mut(usize::from(word)) {
        *held = (*held & !mask) | (value.wrapping_shl(place) & mask);
    }
}

// Sets the fields of a node in its words, whatever they are.
fn set_node(words: &mut [u64], record: &Record) {
    if let Some(bitmap) = words.first_mut() {
        *bitmap = record.bitmap;
    }
    set_bits(words, 22, 18, 7, u64::from(record.count));
    for index in 0..MOST_CHILDREN {
        let child = record.children.get(usize::from(index)).copied();
        let value = u64::from(child.unwrap_or(0));
        set_bits(words, 1 + index / 3, 18 * (index % 3), 18, value);
    }
    for position in 1..=LAST_POSITION {
        let hop = record
            .hops
            .get(usize::from(position).wrapping_sub(1))
            .copied();
        let value = u64::from(hop.unwrap_or(0));
        set_bits(words, 23 + position / 5, 12 * (position % 5), 12, value);
    }
}

// Sets the fields of every node, 36 words to each; no call of a memory could, since it takes no child that is no node.
pub(crate) fn set_all(words: &mut [u64], fields: &[Record]) {
    for (node, record) in words.chunks_exact_mut(36).zip(fields) {
        set_node(node, record);
    }
}
