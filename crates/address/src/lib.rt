//! Addresses: rows of bits of a fixed width, the most significant first. Two kinds, and prefixes of either.
#![tactic(auto)]

ghost use Rattle.std.specs.Prelude.{◌≡◌, ℕ, ◌+◌, ◌%◌, ◌^◌, ◌≤◌, min, Bool, false, List, length, take, drop, replicate};
ghost use Rattle.bits.specs.Rows.{read_group, write_group, clear, padded};
ghost use Rattle.bits.specs.Order.{order};

use std::cmp::Ordering;

pub mod ipv4;
pub mod ipv6;
pub mod prefix;
mod rows;

/// A kind of address. Every call is total: any place, length and value are taken.
pub trait Address: Copy {
    /// The number of bits, 1 to 128.
    const WIDTH: u32;

    // the same number, as clauses name it
    ghost WIDTH: { ℕ };

    // what an address means: its row of bits
    ghost bits: { Self → List Bool };

    /// The width.
    fn bit_count() -> u32
        ensures { result ≡ WIDTH }
    {
        Self::WIDTH
    }

    /// The address whose bits are all 0.
    fn zero() -> Self
        ensures { bits result ≡ replicate WIDTH false };

    /// The number that `len` bits from `place` form, at most 6 of them; bits behind the last read 0.
    fn group(&self, place: u32, len: u32) -> u8
        ensures { result ≡ read_group (bits self.now) place len };

    /// The address with the low `len` bits of `value` written from `place`, at most 6 of them; what falls behind the last bit is dropped.
    fn with_group(self, place: u32, len: u32, value: u8) -> Self
        ensures { bits result ≡ write_group (bits self) place len value };

    /// The address with its first `len` bits, and 0 behind them.
    fn first_bits(self, len: u32) -> Self
        ensures { bits result ≡ padded WIDTH (take len (bits self)) };

    /// Whether all bits from `place` on are 0.
    fn clear_from(&self, place: u32) -> bool
        ensures { result ≡ clear (drop place (bits self.now)) };

    // No `Ord`: its laws hold at every number in a field, also at one too large for it, so each kind would need four impls with laws by hand.
    /// Two addresses by the first bit that differs.
    fn compare(&self, other: &Self) -> Ordering
        ensures { result ≡ order (bits self.now) (bits other.now) };

    ghost wide: { (1 ≤ WIDTH) × (WIDTH ≤ 128) };

    ghost long: { (a : Self) → length (bits a) ≡ WIDTH };

    // a group written inside the width reads back
    ghost back: { (a : Self) (place len v : ℕ) → place + min len 6 ≤ WIDTH → read_group (write_group (bits a) place len v) place len ≡ v % 2 ^ min len 6 };
}
