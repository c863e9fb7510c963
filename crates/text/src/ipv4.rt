ghost use Rattle.std.specs.Prelude.{◌≡◌, suc, ◌*◌, ◌^◌, ◌<◌, ◌≤◌, length, IfErr, MatchResult, ◌≢◌};
ghost use Rattle.std.proofs.Math.Path.{sym, ap};
ghost use Rattle.std.proofs.Common.{◌∙◌, rules};
ghost use Rattle.text.specs.Dotted.{dotted, with_dots};
ghost use Rattle.text.specs.Stuck.{Stuck};
ghost use Rattle.bits.specs.Rows.{row};
ghost use Rattle.bits.proofs.Rows.{row_mod};
ghost use Rattle.text.specs.Dots.{one_number};

use crate::number::read_number;
use crate::{AddressText, Unreadable, behind};
use address::ipv4::Ipv4;
use std::alloc::{AllocError, Global};

// The number whose low bytes the text has in decimal, the highest first, with so many dots between them.
fn read_bytes(text: &[u8], dots: u32) -> Result<u32, Unreadable>
    requires { dots ≤ 3 }
    ensures { MatchResult result (λ v. (text.now ≡ with_dots dots v) × (v < 2 ^ (8 * suc dots))) (λ e. Stuck (with_dots dots) text.now e.place) }
{
    let Some((number, end)) = read_number(text, 255) else {
        return Err(Unreadable { place: 0 });
    };
    if dots == 0 {
        if end < text.len() {
            return Err(Unreadable { place: end });
        }
        return Ok(number);
    }
    if end == text.len() || text[end] != b'.' {
        return Err(Unreadable { place: end });
    }
    let start = end + 1;
    let rest = behind(start, read_bytes(&text[start..], dots - 1))?;
    Ok((number << (8 * dots)) + rest)
}

// The number of four bytes whose dotted text this is.
fn read_dotted(text: &[u8]) -> Result<u32, Unreadable>
    ensures { MatchResult result (λ v. text.now ≡ dotted v) (λ e. Stuck dotted text.now e.place) }
{
    read_bytes(text, 3)
}

impl AddressText for Ipv4 {
    ghost spelled = { λ a. dotted a.bits };

    ghost reads = { λ t a. t ≡ dotted a.bits };

    ghost back = { Prim.search rules };

    ghost one = { unfold with_dots in λ t a b p q. sym (row_mod 32 a.bits) ∙ ap (row 32) (one_number 3 a.bits b.bits (sym p ∙ q)) ∙ row_mod 32 b.bits };

    // the place of a refusal is the first byte that no address has there after what stands before it
    fn read(text: &[u8]) -> Result<Ipv4, Unreadable>
        ensures value { MatchResult result (λ a. text.now ≡ dotted a.bits) (λ e. (e.place ≤ length text.now) × ((a : Ipv4) → text.now ≢ dotted a.bits)) }
        ensures stop { IfErr result (λ e. Stuck dotted text.now e.place) }
    {
        Ok(Ipv4::from(read_dotted(text)?))
    }

    fn text(&self, heap: Global) -> Result<String, AllocError> {
        let [a, b, c, d] = self.bits.to_be_bytes();
        format!(in heap; "{a}.{b}.{c}.{d}")
    }
}
