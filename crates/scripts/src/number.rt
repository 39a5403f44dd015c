//! Numbers in fields.
ghost use Rattle.std.specs.Prelude.{◌≡◌, ℕ, ◌^◌, ◌<◌, MatchOption, Decides};
ghost use Rattle.std.specs.Fmt.{decimal};
ghost use Rattle.scripts.specs.Numbers.{IsPadded, Writes};
ghost use Rattle.scripts.specs.Understood.{Told};

use std::num::NonZeroU32;

// Whether the first byte is one that no number has there: a plus, or a zero before other bytes.
fn is_padded(field: &[u8]) -> bool
    ensures { Decides result (IsPadded field.now) }
{
    field.first() == Some(&b'+') || (field.len() > 1 && field[0] == b'0')
}

// The number that a field writes in decimal digits without leading zeros.
fn decimal_number(field: &[u8]) -> Option<u32>
    ensures { MatchOption result ((n : ℕ) → n < 2 ^ 32 → field.now ≡ decimal n → ⊥) (λ n. field.now ≡ decimal n) }
{
    if is_padded(field) {
        return None;
    }
    let Ok(text) = std::str::from_utf8(field) else {
        return None;
    };
    text.parse().ok()
}

/// The number from 1 to 4,294,967,295 that a field writes, or none where it writes none.
pub(crate) fn positive(field: &[u8]) -> Option<NonZeroU32>
    ensures { Told (Writes field.now) result }
{
    NonZeroU32::new(decimal_number(field)?)
}
