//! Writing an IPv6 address: groups between colons, the longest run of zero groups left out.
ghost use Rattle.std.specs.Prelude.{◌≡◌, ◌+◌, ◌-◌, ◌<◌, ◌≤◌, [], ◌∷◌, ◌++◌, length, IfOk, if◌then◌else◌, string_bytes, OnOk, nat_le};
ghost use Rattle.std.specs.Char.{digit_char};
ghost use Rattle.text.specs.Colons.{groups, hex, written, longest, first_run, colons};

use address::ipv6::Ipv6;
use std::alloc::{AllocError, Global};
use std::array;
use std::ops::Range;

// A run of fewer zero groups is written.
const FEWEST_LEFT_OUT: usize = 2;

// The eight groups of 16 bits, the most significant first.
fn groups_of(a: Ipv6) -> [u16; 8]
    ensures { result ≡ groups a.high a.low }
{
    let number = u128::from(a);
    array::from_fn(|i| ((number >> (16 * (7 - i))) % 65536) as u16)
}

// Of two runs of groups the longer one; of equal runs the one in front.
fn longer_run(front: Range<usize>, back: Range<usize>) -> Range<usize>
    ensures { result ≡ (if nat_le (back.end - back.start) (front.end - front.start) then front else back) }
{
    if front.len() >= back.len() {
        front
    } else {
        back
    }
}

// The places of the first of the longest runs of zero groups.
fn longest_run(all: &[u16]) -> Range<usize>
    ensures within { result.end ≤ length all.now }
    ensures start { result.start ≡ first_run (longest all.now) all.now }
    ensures end { result.end ≡ result.start + longest all.now }
{
    let mut end = all.len();
    let mut best = end..end;
    // By an index: the proof did not close over `enumerate().rev()`.
    for start in (0..all.len()).rev() {
        if all[start] != 0 {
            end = start;
        }
        best = longer_run(start..end, best);
    }
    best
}

// Appends a hexadecimal digit.
fn push_digit(out: &mut String, digit: u16) -> Result<(), AllocError>
    requires { digit < 16 }
    ensures { OnOk result (string_bytes out.new ≡ string_bytes out.old ++ (digit_char digit ∷ [])) }
{
    out.push(char::from_digit(u32::from(digit), 16).unwrap())
}

// Appends a group in hexadecimal. Not by `{:x}`, which also looks for a width and a fill: the text of an address takes half as long again.
fn push_hex(out: &mut String, group: u16) -> Result<(), AllocError>
    ensures { OnOk result (string_bytes out.new ≡ string_bytes out.old ++ hex group) }
{
    if group >= 16 {
        push_hex(out, group / 16)?;
    }
    push_digit(out, group % 16)
}

// Appends groups in hexadecimal, joined by colons.
fn push_groups(out: &mut String, all: &[u16]) -> Result<(), AllocError>
    ensures { OnOk result (string_bytes out.new ≡ string_bytes out.old ++ written all.now) }
{
    let [first, rest @ ..] = all else {
        return Ok(());
    };
    push_hex(out, *first)?;
    for group in rest {
        out.push(':')?;
        push_hex(out, *group)?;
    }
    Ok(())
}

// The canonical text of an address.
pub(super) fn write_address(a: &Ipv6, heap: Global) -> Result<String, AllocError>
    ensures { IfOk result (λ s. string_bytes s ≡ colons (groups a.now.high a.now.low)) }
{
    let all = groups_of(*a);
    let run = longest_run(&all);
    let mut out = String::new(heap);
    if run.len() >= FEWEST_LEFT_OUT {
        push_groups(&mut out, &all[..run.start])?;
        out.push_str("::")?;
        push_groups(&mut out, &all[run.end..])?;
    } else {
        push_groups(&mut out, &all)?;
    }
    Ok(out)
}
