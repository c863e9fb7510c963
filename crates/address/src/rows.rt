ghost use Rattle.std.specs.Prelude.{◌≡◌, ◌^◌, ◌<◌, ◌≤◌, min, take, drop};
ghost use Rattle.bits.specs.Rows.{row, read_group, write_group, clear, padded, top};
ghost use Rattle.bits.specs.Order.{order};

use std::cmp::Ordering;

// The row of the low `N` bits of a number.
#[derive(Clone, Copy)]
pub struct Row<const N: u32> {
    pub number: u128,
    ghost within_word: { N ≤ 128 },
    ghost small: { number < 2 ^ N },
}

impl<const N: u32> Row<N> {
    // The bits from a place on, at the top of a word, zeros behind them.
    fn from_place(&self, place: u32) -> u128
        ensures { result ≡ top 128 N (min place N) self.now.number }
    {
        if place < N {
            self.number << (128 - N) << place
        } else {
            0
        }
    }

    // The number of a group, at most 6 bits.
    pub fn group(&self, place: u32, len: u32) -> u8
        ensures { result ≡ read_group (row N self.now.number) place len }
    {
        (self.from_place(place) >> 122 >> (6 - len.min(6))) as u8
    }

    // The row with a group written.
    pub fn with_group(&self, place: u32, len: u32, value: u8) -> Row<N>
        ensures { row N result.number ≡ write_group (row N self.now.number) place len value }
    {
        let v = self.number;
        let n = len.min(6);
        if n == 0 || place >= N {
            return *self;
        }
        let kept = n.min(N - place);
        let behind = N - place - kept;
        let low = (value % (1 << n)) >> (n - kept);
        let head = v >> behind >> kept;
        let rest = v % (1 << behind);
        let number = (((head << kept) | low as u128) << behind) | rest;
        Row { number }
    }

    // The row with its first bits, and 0 behind them.
    pub fn first_bits(&self, len: u32) -> Row<N>
        ensures { row N result.number ≡ padded N (take len (row N self.now.number)) }
    {
        if len >= N {
            return *self;
        }
        let behind = N - 1 - len;
        let number = self.number >> behind >> 1 << 1 << behind;
        Row { number }
    }

    // Whether the bits are all 0 from a place on.
    pub fn is_clear(&self, place: u32) -> bool
        ensures { result ≡ clear (drop place (row N self.now.number)) }
    {
        self.from_place(place) == 0
    }

    // Two rows by the first bit that differs. No `Ord`, as for addresses (`Address::compare`).
    pub fn compare(&self, other: &Row<N>) -> Ordering
        ensures { result ≡ order (row N self.now.number) (row N other.now.number) }
    {
        self.number.cmp(&other.number)
    }
}
