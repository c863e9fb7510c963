//! Random numbers, items, addresses and prefixes.
use trials::dice::Dice;
use trials::lines::{Line, Network};

// A number of so many random bits, a multiple of 16.
pub(crate) fn bits(dice: &mut Dice, width: u32) -> u128 {
    let mut value: u128 = 0;
    for _ in 0..width / 16 {
        value = value << 16 | u128::from(dice.roll(1 << 16));
    }
    value
}

// A random word.
pub(crate) fn word(dice: &mut Dice) -> u64 {
    (bits(dice, 64) % (1 << 64)) as u64
}

// One of the items, or none where there are none.
pub(crate) fn one_of<'a, T>(dice: &mut Dice, items: &'a [T]) -> Option<&'a T> {
    let count = u32::try_from(items.len()).unwrap_or(u32::MAX);
    items.get(dice.roll(count) as usize)
}

// The first bits of a number, so many, and random ones behind them.
fn gone_on(dice: &mut Dice, width: u32, value: u128, length: u32) -> u128 {
    let random = bits(dice, width);
    let front = Network::cut(width, value, length).value;
    let other_front = Network::cut(width, random, length).value;
    front | (random ^ other_front)
}

// An address: one time in two any, else one under one of the routes.
pub(crate) fn address(dice: &mut Dice, width: u32, lines: &[Line]) -> u128 {
    let any = dice.roll(2) == 0;
    match one_of(dice, lines) {
        Some(line) if !any => gone_on(dice, width, line.network.value, line.network.length),
        _ => bits(dice, width),
    }
}

// A prefix that begins as one of the routes does, for some bits, so that routes made of such share paths; often of no bits or of all.
pub(crate) fn network(dice: &mut Dice, width: u32, lines: &[Line]) -> Network {
    let shared = dice.roll(width.saturating_add(1));
    let value = match one_of(dice, lines) {
        Some(line) => gone_on(dice, width, line.network.value, shared),
        None => bits(dice, width),
    };
    let length = match dice.roll(16) {
        0 => 0,
        1 | 2 => width,
        _ => dice.roll(width.saturating_add(1)),
    };
    Network::cut(width, value, length)
}
