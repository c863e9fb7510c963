ghost use Rattle.std.specs.Prelude.{◌≡◌, ◌≤◌, length, IfErr};
ghost use Rattle.model.specs.Outcomes.{outcome};
ghost use Rattle.model.specs.Reading as reading;
ghost use Rattle.model.specs.Sheets.{read_prefix};
ghost use Rattle.messages.specs.Meant.{as_read};

use crate::fault;
use crate::prefix::PrefixBytes;
use address::Address;
use faults::{Fault, Refusal};

/// Lent bytes, and the place of the next one to be read.
#[derive(Clone, Copy)]
pub struct Reader<'a> {
    bytes: &'a [u8],
    place: usize,
    ghost within: { place ≤ length bytes.now },
}

impl<'a> Reader<'a> {
    /// At the first of these bytes.
    pub fn new(bytes: &'a [u8]) -> Reader<'a>
        ensures bytes { result.bytes.now ≡ bytes.now }
        ensures place { result.place ≡ 0 }
    {
        Reader { bytes, place: 0 }
    }

    /// The place of the next byte.
    pub fn place(&self) -> usize
        ensures { result ≡ self.now.place }
    {
        self.place
    }

    /// The next bytes, so many, a part of those that were lent. Refused as *cut*, at the end, where there are fewer.
    pub fn take(&mut self, size: usize) -> Result<&'a [u8], Fault>
        ensures read { outcome (λ part. (part.now, self.new.place)) result ≡ reading.bytes size self.old.bytes.now self.old.place }
        ensures bytes { self.new.bytes.now ≡ self.old.bytes.now }
        ensures refused { IfErr result (λ _. self.new ≡ self.old) }
    {
        let bytes = self.bytes;
        let place = self.place;
        if size > bytes.len() - place {
            return Err(fault(Refusal::Cut, bytes.len()));
        }
        self.place = place + size;
        Ok(&bytes[place..place + size])
    }

    /// The number in the next byte.
    pub fn get_u8(&mut self) -> Result<u8, Fault>
        ensures read { outcome (λ n. (n, self.new.place)) result ≡ reading.number_in 1 self.old.bytes.now self.old.place }
        ensures bytes { self.new.bytes.now ≡ self.old.bytes.now }
        ensures refused { IfErr result (λ _. self.new ≡ self.old) }
    {
        let part = self.take(1)?;
        Ok(part[0])
    }

    /// The number in the next 2 bytes.
    pub fn get_u16(&mut self) -> Result<u16, Fault>
        ensures read { outcome (λ n. (n, self.new.place)) result ≡ reading.number_in 2 self.old.bytes.now self.old.place }
        ensures bytes { self.new.bytes.now ≡ self.old.bytes.now }
        ensures refused { IfErr result (λ _. self.new ≡ self.old) }
    {
        let part = self.take(2)?;
        Ok(u16::from_be_bytes([part[0], part[1]]))
    }

    /// The number in the next 4 bytes.
    pub fn get_u32(&mut self) -> Result<u32, Fault>
        ensures read { outcome (λ n. (n, self.new.place)) result ≡ reading.number_in 4 self.old.bytes.now self.old.place }
        ensures bytes { self.new.bytes.now ≡ self.old.bytes.now }
        ensures refused { IfErr result (λ _. self.new ≡ self.old) }
    {
        let part = self.take(4)?;
        Ok(u32::from_be_bytes([part[0], part[1], part[2], part[3]]))
    }

    /// The number in the next 8 bytes.
    pub fn get_u64(&mut self) -> Result<u64, Fault>
        ensures read { outcome (λ n. (n, self.new.place)) result ≡ reading.number_in 8 self.old.bytes.now self.old.place }
        ensures bytes { self.new.bytes.now ≡ self.old.bytes.now }
        ensures refused { IfErr result (λ _. self.new ≡ self.old) }
    {
        let part = self.take(8)?;
        Ok(u64::from_be_bytes([
            part[0], part[1], part[2], part[3], part[4], part[5], part[6], part[7],
        ]))
    }

    /// The next prefix, of at most as many bits as the addresses have; the bits behind its length are not looked at. Refused as *length*, at the place
    /// of its length, where it has more.
    #[tactic(auto, unfolding(model::specs::Sheets::read_prefix))]
    pub fn prefix<A: Address>(&mut self) -> Result<PrefixBytes<'a>, Fault>
        ensures read { outcome (λ p. (as_read p, self.new.place)) result ≡ read_prefix A.Address.WIDTH self.old.bytes.now self.old.place }
        ensures bytes { self.new.bytes.now ≡ self.old.bytes.now }
        ensures refused { IfErr result (λ _. self.new ≡ self.old) }
    {
        let mut ahead = *self;
        let place = ahead.place;
        let length = ahead.get_u8()?;
        if u32::from(length) > A::WIDTH {
            return Err(fault(Refusal::Length, place));
        }
        let bytes = ahead.take((length as usize + 7) / 8)?;
        *self = ahead;
        Ok(PrefixBytes {
            place,
            length,
            bytes,
        })
    }

    /// That the bytes end here. Refused as *cut*, at the first byte left over, where they do not.
    pub fn end(&self) -> Result<(), Fault>
        ensures { outcome (λ _. (tt, self.now.place)) result ≡ reading.end self.now.bytes.now self.now.place }
    {
        if self.place < self.bytes.len() {
            return Err(fault(Refusal::Cut, self.place));
        }
        Ok(())
    }
}
