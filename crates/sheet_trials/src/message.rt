//! A message in a form of the test's own, and how it is written, field by field.
use address::prefix::Prefix;
use faults::Fault;
use routes::Route;
use std::alloc::{AllocError, Global};
use std::collections::BTreeSet;
use trials::numbers::Numbered;

/// The largest number of a message.
pub(crate) const LARGEST: u64 = 1 << 62;

/// The first bits of an address, at the top of a number with zeros behind them, and how many they are. The order is by address, then shorter first.
#[derive(Clone, Copy, PartialEq, Eq, PartialOrd, Ord)]
pub(crate) struct Front {
    pub top: u128,
    pub length: u32,
}

#[derive(Clone, Copy, PartialEq, Eq)]
pub(crate) struct Entry {
    pub front: Front,
    pub hop: u16,
}

/// The fields of a message, sound or not.
#[derive(Drop)]
pub(crate) struct Message {
    pub number: u64,
    pub strides: Vec<u8>,
    pub count: u32,
    pub entries: Vec<Entry>,
}

// How many bits of a number are behind the address at its top.
fn behind<A: Numbered>() -> u32 {
    128u32.saturating_sub(A::WIDTH)
}

impl Front {
    /// The first bits, so many, of a number.
    pub(crate) fn cut(top: u128, length: u32) -> Front {
        let rest = 128u32.saturating_sub(length);
        let kept = top.checked_shr(rest).unwrap_or(0);
        Front {
            top: kept.checked_shl(rest).unwrap_or(0),
            length,
        }
    }
}

impl<A: Numbered> From<Route<A>> for Entry {
    fn from(route: Route<A>) -> Entry {
        let value = route.prefix.address.value();
        Entry {
            front: Front {
                top: value.checked_shl(behind::<A>()).unwrap_or(0),
                length: route.prefix.length,
            },
            hop: route.hop,
        }
    }
}

impl Entry {
    /// The route of an entry that is sound.
    pub(crate) fn route<A: Numbered>(self) -> Result<Route<A>, Fault> {
        let value = self.front.top.checked_shr(behind::<A>()).unwrap_or(0);
        let prefix = Prefix {
            address: A::from_value(value),
            length: self.front.length,
        };
        Route::new(prefix, self.hop)
    }
}

impl Message {
    /// The message as bytes. Of a prefix that is too long there are as many as its length asks for, or 16.
    pub(crate) fn bytes(&self, heap: Global) -> Result<Vec<u8>, AllocError> {
        let mut bytes = Vec::new(heap);
        bytes.extend_from_slice(&self.number.to_be_bytes())?;
        bytes.push((self.strides.len() % 256) as u8)?;
        bytes.extend_from_slice(self.strides.as_slice())?;
        bytes.extend_from_slice(&self.count.to_be_bytes())?;
        for entry in self.entries.iter() {
            let Front { top, length } = entry.front;
            bytes.push((length % 256) as u8)?;
            let size = (length as usize).div_ceil(8).min(16);
            bytes.extend_from_slice(&top.to_be_bytes()[..size])?;
            bytes.extend_from_slice(&entry.hop.to_be_bytes())?;
        }
        Ok(bytes)
    }

    /// How many nodes the entries require: the root, and one for each beginning of a prefix at which a level of the plan starts.
    pub(crate) fn required(&self, heap: Global) -> Result<usize, AllocError> {
        let mut nodes = BTreeSet::new(heap);
        nodes.insert(Front::cut(0, 0))?;
        for entry in self.entries.iter() {
            let mut offset: u32 = 0;
            for stride in self.strides.iter() {
                if offset <= entry.front.length {
                    nodes.insert(Front::cut(entry.front.top, offset))?;
                }
                offset = offset.saturating_add(u32::from(*stride));
            }
        }
        Ok(nodes.len())
    }
}
