ghost use Rattle.std.specs.Prelude.{◌≡◌, ℕ, ◌<◌, ◌≤◌, ◌∷◌, ◌++◌, length, IfOk, IfErr, string_bytes, decimal, MatchOption, MatchResult};
ghost use Rattle.text.specs.Slashed.{length_text, Unslashed, LastSlash, SlashReads, SlashStuck};
ghost use Rattle.text.specs.Stuck.{Stuck};

use crate::number::read_number;
use crate::{AddressText, Unreadable, behind};
use address::prefix::Prefix;
use std::alloc::{AllocError, Global};

// The place of the last slash.
fn last_slash(text: &[u8]) -> Option<usize>
    ensures { MatchOption result (Unslashed text.now) (λ i. LastSlash text.now i) }
{
    text.iter().rposition(|byte| *byte == b'/')
}

// A length from 0 to 999, in decimal without leading zeros.
fn read_length(text: &[u8]) -> Result<u32, Unreadable>
    ensures { MatchResult result (λ n. (text.now ≡ decimal n) × (n < 1000)) (λ e. Stuck length_text text.now e.place) }
{
    let Some((number, end)) = read_number(text, 999) else {
        return Err(Unreadable { place: 0 });
    };
    if end < text.len() {
        return Err(Unreadable { place: end });
    }
    Ok(number)
}

/// The prefix that a text stands for: an address, a slash and a length from 0 to 999 without leading zeros. A length above the width is read too.
/// What `prefix_text` writes of a prefix whose length is below 1000 reads back as the same bits and the same length (`back`): by the law `back`
/// such a text stands for the prefix, so reading it is not refused, and by the law `one` it stands for no other.
pub fn read_prefix<A: AddressText>(text: &[u8]) -> Result<Prefix<A>, Unreadable>
    ensures value { MatchResult result (λ p. SlashReads A.AddressText.reads text.now p.address p.length) (λ e. (e.place ≤ length text.now) × ((a : A) (l : ℕ) → SlashReads A.AddressText.reads text.now a l → ⊥)) }
    ensures back { (a : A) (l : ℕ) → l < 1000 → text.now ≡ A.AddressText.spelled a ++ (47 ∷ decimal l) → MatchResult result (λ p. (A.Address.bits p.address ≡ A.Address.bits a) × (p.length ≡ l)) (λ _. ⊥) }
    ensures stop { IfErr result (λ e. SlashStuck A.AddressText.reads text.now e.place) }
{
    let Some(slash) = last_slash(text) else {
        A::read(text)?;
        return Err(Unreadable { place: text.len() });
    };
    let address = A::read(&text[..slash])?;
    let start = slash + 1;
    let length = behind(start, read_length(&text[start..]))?;
    Ok(Prefix { address, length })
}

// No `Display`, as for an address: a prefix is of another crate, and a type around it would only call this.
/// The text of the prefix: its address, a slash and its length.
pub fn prefix_text<A: AddressText>(prefix: &Prefix<A>, heap: Global) -> Result<String, AllocError>
    ensures { IfOk result (λ s. string_bytes s ≡ A.AddressText.spelled prefix.now.address ++ (47 ∷ decimal prefix.now.length)) }
{
    let address = prefix.address.text(heap)?;
    let length = prefix.length;
    format!(in heap; "{address}/{length}")
}
