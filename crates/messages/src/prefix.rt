ghost use Rattle.std.specs.Prelude.{◌≡◌, length as size, nat_le, IfOk};
ghost use Rattle.faults.specs.declared.Layer.TheVariants.{Reader as ByReader};
ghost use Rattle.faults.specs.Numbers.{too_long, stray_bits};
ghost use Rattle.bits.specs.Rows.{padded};
ghost use Rattle.model.specs.Bytes.{byte_count, unpack};
ghost use Rattle.model.specs.Outcomes.{granted, outcome, provided};
ghost use Rattle.model.specs.Routes.{prefix_of, sound};
ghost use Rattle.routes.specs.Meant.{prefix_bits};

use crate::fault;
use address::Address;
use address::prefix::Prefix;
use faults::{Fault, Refusal};
use routes::SoundPrefix;

/// A prefix as it stands in a message: the place of its length, its length, and the bytes that hold its bits, which are a part of the message.
#[derive(Clone, Copy)]
pub struct PrefixBytes<'a> {
    pub place: usize,
    pub length: u8,
    pub bytes: &'a [u8],
    pub ghost whole: { size bytes.now ≡ byte_count length },
}

impl<'a> PrefixBytes<'a> {
    /// Whether no bit is set behind the length, in the last byte.
    pub fn is_sound(&self) -> bool
        ensures { result ≡ sound (unpack self.now.bytes.now) self.now.length }
    {
        let used = self.length % 8;
        match self.bytes.last() {
            Some(last) if used > 0 => last << used == 0,
            _ => true,
        }
    }

    /// The address that begins with the bits of the bytes, as many as it has, and has 0 behind them.
    pub fn address<A: Address>(&self) -> A
        ensures { A.Address.bits result ≡ padded A.Address.WIDTH (unpack self.now.bytes.now) }
    {
        let mut address = A::zero();
        let mut place: u32 = 0;
        for byte in self.bytes {
            address = address
                .with_group(place, 4, byte >> 4)
                .with_group(place + 4, 4, *byte);
            place += 8;
        }
        address
    }

    /// The prefix. Refused, at the place of its length, as *length* where it has more bits than the addresses, and as *stray* where a bit is set
    /// behind them.
    pub fn prefix<A: Address>(&self) -> Result<SoundPrefix<A>, Fault>
        ensures prefix { outcome (λ s. prefix_bits A.Address.bits s.prefix) result ≡ provided (nat_le self.now.length A.Address.WIDTH) too_long ByReader self.now.place (provided (sound (unpack self.now.bytes.now) self.now.length) stray_bits ByReader self.now.place (granted (prefix_of (unpack self.now.bytes.now) self.now.length))) }
        ensures length { IfOk result (λ s. s.prefix.length ≡ self.now.length) }
    {
        let length = u32::from(self.length);
        if length > A::WIDTH {
            return Err(fault(Refusal::Length, self.place));
        }
        if !self.is_sound() {
            return Err(fault(Refusal::Stray, self.place));
        }
        let address = self.address();
        Ok(SoundPrefix {
            prefix: Prefix { address, length },
        })
    }
}
