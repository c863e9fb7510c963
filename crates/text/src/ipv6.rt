//! IPv6 addresses as text: canonical when written, any form of groups between colons when read.
ghost use Rattle.std.specs.Prelude.{◌≡◌, Some};
ghost use Rattle.text.specs.Colons.{groups, colons};
ghost use Rattle.text.specs.Words.{read_colons};
ghost use Rattle.text.specs.Back.{reads_back};
ghost use Rattle.text.specs.Groups.{one_row};

use crate::ipv6::read::read_address;
use crate::ipv6::write::write_address;
use crate::{AddressText, Unreadable};
use address::ipv6::Ipv6;
use std::alloc::{AllocError, Global};

mod read;
mod write;

impl AddressText for Ipv6 {
    ghost spelled = { λ a. colons (groups a.high a.low) };

    ghost reads = { λ t a. read_colons t ≡ Some (groups a.high a.low) };

    ghost back = { λ a. reads_back a.high a.low };

    ghost one = { λ t a b. one_row a.high a.low b.high b.low (read_colons t) };

    fn read(text: &[u8]) -> Result<Self, Unreadable> {
        read_address(text)
    }

    fn text(&self, heap: Global) -> Result<String, AllocError> {
        write_address(self, heap)
    }
}
