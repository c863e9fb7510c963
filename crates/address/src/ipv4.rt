ghost use Rattle.std.specs.Prelude.{◌≡◌, ◌+◌, ◌%◌, ◌^◌};
ghost use Rattle.bits.specs.Rows.{row};
ghost use Rattle.bits.proofs.Rows.{length_row};
ghost use Rattle.std.proofs.Common.{rules};
ghost use Rattle.bits.proofs.Groups.{row_reads_back};

use crate::Address;
use crate::rows::Row;
use std::cmp::Ordering;

/// An IPv4 address: 32 bits in one number.
#[derive(Clone, Copy, PartialEq, Eq, Hash, Debug)]
pub struct Ipv4 {
    pub bits: u32,
}

/// The number of the address.
impl From<Ipv4> for u32 {
    ghost from_gives = { λ a n. n ≡ a.bits };

    fn from(a: Ipv4) -> u32 {
        a.bits
    }
}

/// The address of a number.
impl From<u32> for Ipv4 {
    ghost from_gives = { λ n a. a.bits ≡ n };

    fn from(n: u32) -> Ipv4 {
        Ipv4 { bits: n }
    }
}

impl Ipv4 {
    fn row(self) -> Row<32>
        ensures { result.number ≡ self.bits }
    {
        Row {
            number: u128::from(self.bits),
        }
    }
}

// Each call hands its row on, alike in both kinds: no body in the trait can, since a row's width is a const argument and `Self::WIDTH` is computed.
impl Address for Ipv4 {
    const WIDTH: u32 = 32;

    ghost WIDTH = { 32 };

    ghost bits = { λ a. row 32 a.bits };

    ghost wide = { Prim.search rules };

    ghost long = { λ a. length_row 32 a.bits };

    ghost back = { λ a. row_reads_back 32 a.bits };

    fn zero() -> Self {
        Ipv4 { bits: 0 }
    }

    // Not by its row: a word of half the size is enough, and each step of a lookup reads a group.
    fn group(&self, place: u32, len: u32) -> u8 {
        let word = u64::from(self.bits) << 32 << place.min(32);
        (word >> 58 >> (6 - len.min(6))) as u8
    }

    fn with_group(self, place: u32, len: u32, value: u8) -> Self {
        Ipv4 {
            bits: self.row().with_group(place, len, value).number as u32,
        }
    }

    fn first_bits(self, len: u32) -> Self {
        Ipv4 {
            bits: self.row().first_bits(len).number as u32,
        }
    }

    fn clear_from(&self, place: u32) -> bool {
        self.row().is_clear(place)
    }

    fn compare(&self, other: &Self) -> Ordering {
        self.row().compare(&other.row())
    }
}
