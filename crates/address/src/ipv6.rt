ghost use Rattle.std.specs.Prelude.{◌≡◌, ◌+◌, ◌*◌, ◌%◌, ◌^◌};
ghost use Rattle.bits.specs.Rows.{row};
ghost use Rattle.bits.proofs.Rows.{length_row};
ghost use Rattle.std.proofs.Common.{rules};
ghost use Rattle.bits.proofs.Groups.{row_reads_back};

use crate::Address;
use crate::rows::Row;
use std::cmp::Ordering;

/// An IPv6 address: 128 bits in two numbers of 64.
#[derive(Clone, Copy, PartialEq, Eq, Hash, Debug)]
pub struct Ipv6 {
    pub high: u64,
    pub low: u64,
}

/// The two halves as one number.
impl From<Ipv6> for u128 {
    ghost from_gives = { λ a n. n ≡ a.high * 2 ^ 64 + a.low };

    fn from(a: Ipv6) -> u128 {
        (u128::from(a.high) << 64) + u128::from(a.low)
    }
}

/// The address whose halves form a number.
impl From<u128> for Ipv6 {
    ghost from_gives = { λ n a. a.high * 2 ^ 64 + a.low ≡ n };

    fn from(n: u128) -> Ipv6 {
        Ipv6 {
            high: (n >> 64) as u64,
            low: (n % (1 << 64)) as u64,
        }
    }
}

impl Ipv6 {
    fn row(self) -> Row<128>
        ensures { result.number ≡ self.high * 2 ^ 64 + self.low }
    {
        Row {
            number: u128::from(self),
        }
    }
}

// Each call hands its row on, alike in both kinds: no body in the trait can, since a row's width is a const argument and `Self::WIDTH` is computed.
impl Address for Ipv6 {
    const WIDTH: u32 = 128;

    ghost WIDTH = { 128 };

    ghost bits = { λ a. row 128 (a.high * 2 ^ 64 + a.low) };

    ghost wide = { Prim.search rules };

    ghost long = { λ a. length_row 128 (a.high * 2 ^ 64 + a.low) };

    ghost back = { λ a. row_reads_back 128 (a.high * 2 ^ 64 + a.low) };

    fn zero() -> Self {
        Ipv6 { high: 0, low: 0 }
    }

    fn group(&self, place: u32, len: u32) -> u8 {
        self.row().group(place, len)
    }

    fn with_group(self, place: u32, len: u32, value: u8) -> Self {
        Ipv6::from(self.row().with_group(place, len, value).number)
    }

    fn first_bits(self, len: u32) -> Self {
        Ipv6::from(self.row().first_bits(len).number)
    }

    fn clear_from(&self, place: u32) -> bool {
        self.row().is_clear(place)
    }

    fn compare(&self, other: &Self) -> Ordering {
        self.row().compare(&other.row())
    }
}
