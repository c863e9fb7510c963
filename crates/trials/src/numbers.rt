ghost use Rattle.std.specs.Prelude.{◌≡◌};
ghost use Rattle.bits.specs.Rows.{row, number};

use address::Address;
use address::ipv4::Ipv4;
use address::ipv6::Ipv6;

// No `From` or `TryFrom`: of a number, 128 bits, an IPv4 address has the low 32.
/// An address kind by the numbers of its addresses.
pub trait Numbered: Address {
    /// The address of the low bits of a number.
    fn from_value(value: u128) -> Self
        ensures { Self.bits result ≡ row Self.WIDTH value };

    /// The number that the bits of an address spell.
    fn value(&self) -> u128
        ensures { result ≡ number (Self.bits self.now) };
}

impl Numbered for Ipv4 {
    #[tactic(auto, using(bits::proofs::Rows::row_mod))]
    fn from_value(value: u128) -> Ipv4 {
        Ipv4 {
            bits: (value % (1 << 32)) as u32,
        }
    }

    #[tactic(auto, using(crate::proofs::RowNumbers::number_of_row))]
    fn value(&self) -> u128 {
        u128::from(self.bits)
    }
}

impl Numbered for Ipv6 {
    fn from_value(value: u128) -> Ipv6 {
        Ipv6::from(value)
    }

    #[tactic(auto, using(crate::proofs::RowNumbers::number_of_row))]
    fn value(&self) -> u128 {
        u128::from(*self)
    }
}
