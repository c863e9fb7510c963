ghost use Rattle.std.specs.Prelude.{◌<◌, ◌≤◌, length, Decides, MatchOption, slice_index};
ghost use Rattle.text.specs.Numbers.{Digit, Extends, Longest};

// Whether a byte makes a number longer: leading zeros are not read, and no number above the limit is.
fn extends(number: u32, byte: u8, limit: u32) -> bool
    requires { (number ≤ limit) × (limit < 1000) }
    ensures { Decides result (Extends limit number byte) }
{
    number > 0 && byte >= b'0' && byte <= b'9' && number * 10 + u32::from(byte - b'0') <= limit
}

// The longest number from 0 to `limit`, without leading zeros, that begins the text, and how many bytes it takes.
pub(crate) fn read_number(text: &[u8], limit: u32) -> Option<(u32, usize)>
    requires { (9 ≤ limit) × (limit < 1000) }
    ensures { MatchOption result (0 < length text.now → Digit (slice_index text.now 0) → ⊥) (λ p. Longest limit text.now p.0 p.1) }
{
    let [first @ b'0'..=b'9', rest @ ..] = text else {
        return None;
    };
    let mut number = u32::from(*first - b'0');
    for (more, byte) in rest.iter().enumerate() {
        if !extends(number, *byte, limit) {
            return Some((number, 1 + more));
        }
        number = number * 10 + u32::from(*byte - b'0');
    }
    Some((number, text.len()))
}
