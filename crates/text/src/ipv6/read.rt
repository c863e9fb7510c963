//! Reading an IPv6 address: words between colons, and two colons in a row for the zero groups left out.
ghost use Rattle.std.specs.Prelude.{◌≡◌, ℕ, ◌+◌, ◌-◌, ◌*◌, ◌^◌, ◌<◌, ◌≤◌, length, take, drop, Some, None, MatchOption, MatchResult};
ghost use Rattle.text.specs.Colons.{low_groups, groups};
ghost use Rattle.text.specs.Words.{word, side, whole, filled, read_colons, Beyond, TwoColons};

use crate::{Unreadable, behind};
use address::ipv6::Ipv6;

// A group has no more hexadecimal digits.
const MOST_DIGITS: usize = 4;

// The number of a word of one to four hexadecimal digits.
fn read_word(text: &[u8]) -> Result<u16, Unreadable>
    ensures { MatchResult result (λ n. word text.now ≡ Some n) (λ e. (e.place ≤ length text.now) × (word text.now ≡ None)) }
{
    if text.is_empty() {
        return Err(Unreadable { place: 0 });
    }
    let mut number: u16 = 0;
    for (place, byte) in text.iter().enumerate() {
        if place == MOST_DIGITS {
            return Err(Unreadable { place });
        }
        let Some(digit) = char::from(*byte).to_digit(16) else {
            return Err(Unreadable { place });
        };
        number = number * 16 + digit as u16;
    }
    Ok(number)
}

// Groups that were read, the first the most significant of the number; how many they are does not show in it where the first are 0.
#[derive(Clone, Copy)]
struct Side {
    number: u128,
    count: u32,
    ghost few: { count ≤ 8 },
    ghost small: { number < 2 ^ (16 * count) },
}

impl Side {
    // One group more.
    fn with(self, group: u16) -> Side
        requires { self.count < 8 }
        ensures number { result.number ≡ self.number * 65536 + group }
        ensures count { result.count ≡ self.count + 1 }
    {
        Side {
            number: self.number * 65536 + u128::from(group),
            count: self.count + 1,
        }
    }
}

// The groups of a text with no two colons in a row, at most so many.
fn read_side(text: &[u8], most: u32) -> Result<Side, Unreadable>
    requires { most ≤ 8 }
    ensures { MatchResult result (λ s. (side text.now ≡ Some (low_groups s.count s.number)) × (s.count ≤ most)) (λ e. (e.place ≤ length text.now) × Beyond most (side text.now)) }
{
    let mut groups = Side {
        number: 0,
        count: 0,
    };
    if text.is_empty() {
        return Ok(groups);
    }
    let mut place = 0;
    for word in text.split(|byte| *byte == b':') {
        if groups.count == most {
            return Err(Unreadable { place });
        }
        groups = groups.with(behind(place, read_word(word))?);
        place += word.len() + 1;
    }
    Ok(groups)
}

// The place of the first two colons in a row.
fn two_colons(text: &[u8]) -> Option<usize>
    ensures { MatchOption result ((k : ℕ) → k + 1 < length text.now → TwoColons text.now k → ⊥) (λ p. (p + 2 ≤ length text.now) × TwoColons text.now p × ((k : ℕ) → k < p → TwoColons text.now k → ⊥)) }
{
    text.windows(2).position(|pair| matches!(pair, b"::"))
}

// The number of eight groups: those on the left, zeros, and those on the right.
fn spread(left: Side, right: Side) -> u128
    requires { left.count + right.count ≤ 7 }
    ensures { result ≡ left.number * 2 ^ (16 * (8 - left.count)) + right.number }
{
    ((left.number << (16 * (7 - left.count))) << 16) | right.number
}

// The address of a text with no two colons in a row.
fn read_whole(text: &[u8]) -> Result<Ipv6, Unreadable>
    ensures { MatchResult result (λ a. whole (side text.now) ≡ Some (groups a.high a.low)) (λ e. (e.place ≤ length text.now) × (whole (side text.now) ≡ None)) }
{
    let all = read_side(text, 8)?;
    if all.count == 8 {
        Ok(Ipv6::from(all.number))
    } else {
        Err(Unreadable { place: text.len() })
    }
}

// The address of a text with two colons at a place.
fn read_parted(text: &[u8], place: usize) -> Result<Ipv6, Unreadable>
    requires { place + 2 ≤ length text.now }
    ensures { MatchResult result (λ a. filled (side (take place text.now)) (side (drop (place + 2) text.now)) ≡ Some (groups a.high a.low)) (λ e. (e.place ≤ length text.now) × (filled (side (take place text.now)) (side (drop (place + 2) text.now)) ≡ None)) }
{
    let left = read_side(&text[..place], 7)?;
    let start = place + 2;
    let right = behind(start, read_side(&text[start..], 7 - left.count))?;
    Ok(Ipv6::from(spread(left, right)))
}

// The address that a text stands for.
pub(super) fn read_address(text: &[u8]) -> Result<Ipv6, Unreadable>
    ensures { MatchResult result (λ a. read_colons text.now ≡ Some (groups a.high a.low)) (λ e. (e.place ≤ length text.now) × (read_colons text.now ≡ None)) }
{
    match two_colons(text) {
        Some(place) => read_parted(text, place),
        None => read_whole(text),
    }
}
