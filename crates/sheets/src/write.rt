ghost use Rattle.std.specs.Prelude.{◌≡◌, ◌+◌, ◌^◌, ◌<◌, ◌≤◌, length, map, nat_le, take, IfErr, IfOk};
ghost use Rattle.model.specs.Outcomes.{granted, outcome};
ghost use Rattle.model.specs.Sheets.{read_sheet};
ghost use Rattle.plan.specs.Strides.{strides_of};
ghost use Rattle.messages.specs.Puts.{beside, put_at, put_in};
ghost use Rattle.routes.specs.InOrder.{InOrder};
ghost use Rattle.routes.specs.Meant.{meant};
ghost use Rattle.sheets.specs.Written.{bytes_of, head_bytes, write_sheet};

use crate::LAST_NUMBER;
use address::Address;
use faults::{Fault, Refusal};
use messages::writing::{put_route, route_size};
use plan::Plan;
use routes::Route;

// Puts bytes in, where they fit.
fn put(output: &mut [u8], place: usize, bytes: &[u8])
    requires { place + length bytes.now ≤ length output.old }
    ensures { output.new ≡ put_at place bytes.now output.old }
{
    output[place..place + bytes.len()].copy_from_slice(bytes);
}

/// Puts the front of a sheet, which ends with the count of its routes, at the front of an output, and answers its length. Refused as *narrow* where it does
/// not fit.
pub fn put_head<A: Address>(
    output: &mut [u8],
    number: u64,
    plan: &Plan<A>,
    count: usize,
) -> Result<usize, Fault>
    ensures answer { outcome (beside output.new) result ≡ put_in 0 (head_bytes number (strides_of plan.now) count) output.old }
    ensures refused { IfErr result (λ _. output.new ≡ output.old) }
{
    let strides = plan.strides();
    let end = 9 + strides.len();
    if end + 4 > output.len() {
        return Err(Fault::of_table(Refusal::Narrow));
    }
    put(output, 0, &number.to_be_bytes());
    put(output, 8, &[strides.len() as u8]);
    put(output, 9, strides);
    // The low 4 bytes of the count.
    put(output, end, &(count as u64).to_be_bytes()[4..]);
    Ok(end + 4)
}

// Whether a sheet of these routes has room in so many bytes.
fn has_room<A: Address>(plan: &Plan<A>, routes: &[Route<A>], room: usize) -> bool
    ensures { result ≡ nat_le (13 + length (strides_of plan.now) + length (bytes_of A.Address.bits routes.now)) room }
{
    let head = 13 + plan.strides().len();
    if head > room {
        return false;
    }
    let mut left = room - head;
    for route in routes {
        let size = route_size(route.prefix.length);
        if size > left {
            return false;
        }
        left -= size;
    }
    true
}

// Puts in routes, which fit, one behind the other.
fn put_routes<A: Address>(
    output: &mut [u8],
    place: usize,
    routes: &[Route<A>],
) -> Result<usize, Fault>
    requires { place + length (bytes_of A.Address.bits routes.now) ≤ length output.old }
    ensures { outcome (beside output.new) result ≡ put_in place (bytes_of A.Address.bits routes.now) output.old }
{
    let mut place = place;
    for route in routes {
        place = put_route(output, place, route)?;
    }
    Ok(place)
}

/// Puts the sheet of a plan and routes, under a number, at the front of an output, and answers its length; the bytes behind it stay. Refused as *number*
/// where that is above 2^62, and as *narrow* where the sheet does not fit; then nothing is written. What is written of ascending routes reads back.
pub fn write<A: Address>(
    number: u64,
    plan: &Plan<A>,
    routes: &[Route<A>],
    output: &mut [u8],
) -> Result<usize, Fault>
    ensures answer { outcome (beside output.new) result ≡ write_sheet number (strides_of plan.now) (map (meant A.Address.bits) routes.now) output.old }
    ensures refused { IfErr result (λ _. output.new ≡ output.old) }
    ensures back { InOrder A.Address.WIDTH (map (meant A.Address.bits) routes.now) → length routes.now < 2 ^ 32 → IfOk result (λ size. read_sheet A.Address.WIDTH (strides_of plan.now) (take size output.new) ≡ granted (record { number = number; routes = map (meant A.Address.bits) routes.now })) }
{
    if number > LAST_NUMBER {
        return Err(Fault::of_table(Refusal::Number));
    }
    if !has_room(plan, routes, output.len()) {
        return Err(Fault::of_table(Refusal::Narrow));
    }
    let place = put_head(output, number, plan, routes.len())?;
    put_routes(output, place, routes)
}
