//! What is put into an output, from a place on. Nothing is written where it does not fit.
ghost use Rattle.std.specs.Prelude.{◌≡◌, ◌+◌, ◌≤◌, length, drop, IfErr, nat_le};
ghost use Rattle.bits.specs.Rows.{number, padded};
ghost use Rattle.model.specs.Bytes.{byte_count, prefix_bytes};
ghost use Rattle.model.specs.Outcomes.{outcome};
ghost use Rattle.model.specs.Sheets.{route_bytes};
ghost use Rattle.routes.specs.Meant.{meant, prefix_bits};
ghost use Rattle.messages.specs.Puts.{beside, put_at, put_in};

use address::Address;
use address::prefix::Prefix;
use faults::{Fault, Refusal};
use routes::{Route, SoundPrefix};

// Whether so many bytes from a place on are within the output.
fn fits(output: &[u8], place: usize, size: usize) -> bool
    ensures { result ≡ nat_le (place + size) (length output.now) }
{
    place <= output.len() && size <= output.len() - place
}

// The 8 bits of an address from a place on, zeros behind its last.
fn byte<A: Address>(address: &A, place: u32) -> u8
    requires { place ≤ 256 }
    ensures { result ≡ number (padded 8 (drop place (A.Address.bits address.now))) }
{
    16 * address.group(place, 4) + address.group(place + 4, 4)
}

// Puts in a prefix, where it fits.
fn put_prefix<A: Address>(output: &mut [u8], place: usize, prefix: &SoundPrefix<A>)
    requires { place + (1 + byte_count prefix.now.prefix.length) ≤ length output.old }
    ensures { output.new ≡ put_at place (prefix_bytes (prefix_bits A.Address.bits prefix.now.prefix)) output.old }
{
    let Prefix { address, length } = prefix.prefix;
    output[place] = length as u8;
    for i in 0..(length as usize + 7) / 8 {
        output[place + 1 + i] = byte(&address, 8 * i as u32);
    }
}

/// How many bytes a route takes whose prefix has so many bits.
pub fn route_size(length: u32) -> usize
    ensures { result ≡ 3 + byte_count length }
{
    3 + (length as usize + 7) / 8
}

/// Puts a route into an output, from a place on, and answers the place behind it. Refused as *narrow* where it does not fit.
pub fn put_route<A: Address>(
    output: &mut [u8],
    place: usize,
    route: &Route<A>,
) -> Result<usize, Fault>
    ensures answer { outcome (beside output.new) result ≡ put_in place (route_bytes (meant A.Address.bits route.now)) output.old }
    ensures refused { IfErr result (λ _. output.new ≡ output.old) }
{
    let size = route_size(route.prefix.length);
    if !fits(output, place, size) {
        return Err(Fault::of_table(Refusal::Narrow));
    }
    let end = place + size;
    let prefix = SoundPrefix {
        prefix: route.prefix,
    };
    put_prefix(output, place, &prefix);
    output[end - 2..end].copy_from_slice(&route.hop.to_be_bytes());
    Ok(end)
}
