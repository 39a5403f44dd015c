//! Runs of bytes of one kind.
ghost use Rattle.std.specs.Prelude.{◌≡◌, ℕ, ◌≤◌, Bool, length};
ghost use Rattle.lists.specs.Bytes.{group_byte, Tells, Run};
ghost use Rattle.lists.specs.Lexemes.{is_blank};

use names::word::is_word_byte;

/// Whether the byte is a blank.
pub(crate) fn is_blank(b: u8) -> bool
    ensures { result ≡ is_blank b }
{
    b == b' '
}

/// Whether group names may hold the byte: the bytes of words, `$`, `/` and `.`.
#[tactic(auto, unfolding(crate::specs::Bytes::group_byte))]
pub(crate) fn is_group_byte(b: u8) -> bool
    ensures { result ≡ group_byte b }
{
    is_word_byte(b) || matches!(b, b'$' | b'/' | b'.')
}

/// Where the run of bytes of a kind that begins at a place ends.
pub(crate) fn run_end<F: Fn(u8) -> bool>(text: &[u8], from: usize, is_in: F) -> usize
    requires inside { from ≤ length text.now }
    requires callable { F.IsAlwaysCallable is_in }
    ensures forward { from ≤ result }
    ensures within { result ≤ length text.now }
    ensures run { (p : ℕ → Bool) → Tells (F.post is_in) p → Run p text.now from result }
{
    let rest = &text[from..];
    from + rest.iter().position(|b| !is_in(*b)).unwrap_or(rest.len())
}
