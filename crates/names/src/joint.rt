//! Words joined by single bytes: the shape that names, partial names and paths share.
ghost use Rattle.std.specs.Prelude.{◌≡◌, ℕ, ◌≤◌, Bool, ◌&&◌, if◌then◌else◌, MatchOption, MatchResult};
ghost use Rattle.faults.specs.declared.kind.Kind.TheVariants.{ByteNotAllowed, WordMissing, WordTooLong};
ghost use Rattle.names.specs.Words.{word_byte, Joined, count_of};
ghost use Rattle.names.specs.Faults.{mark_byte};
ghost use Rattle.names.specs.Joints.{TellsJoints, Unjoined, JointAt};

use super::word::{MAX_WORD_BYTES, is_word_byte};
use faults::fault::Fault;
use faults::kind::Kind;

/// Whether the byte is a mark, which joins the words of a name.
pub(crate) fn is_mark(b: u8) -> bool
    ensures { result ≡ mark_byte b }
{
    matches!(b, b'.' | b'@' | b'+')
}

// The kind of fault at a byte that cannot go on, where a word is due or not.
fn kind_of(b: u8, due: bool) -> Kind
    ensures { result ≡ (if word_byte b then WordTooLong else (if mark_byte b && due then WordMissing else ByteNotAllowed)) }
{
    if is_word_byte(b) {
        Kind::WordTooLong
    } else if is_mark(b) && due {
        Kind::WordMissing
    } else {
        Kind::ByteNotAllowed
    }
}

/// Checks that the text is words, joined by the bytes that the test takes, and answers how many bytes join them.
pub(crate) fn check_joined<F: Fn(u8) -> bool>(text: &[u8], joins: F) -> Result<usize, Fault>
    requires { F.IsAlwaysCallable joins }
    ensures { (joint : ℕ → Bool) → TellsJoints F.Fn joins joint → MatchResult result (λ n. Joined joint text.now × (n ≡ count_of joint text.now)) (Unjoined joint text.now) }
{
    // A loop: in a `try_fold` the closure would carry both counts and end with the same fault, so it is no plainer.
    let mut count = 0;
    let mut letters = 0;
    for (i, b) in text.iter().enumerate() {
        if is_word_byte(*b) && letters < MAX_WORD_BYTES {
            letters += 1;
        } else if letters > 0 && joins(*b) {
            letters = 0;
            count += 1;
        } else {
            return Err(Fault::at(kind_of(*b, letters == 0), i));
        }
    }
    if letters == 0 {
        return Err(Fault::at(Kind::WordMissing, text.len()));
    }
    Ok(count)
}

/// The place of the mark that has `n` others before it, or none where the text has too few.
pub(crate) fn nth_mark(text: &[u8], n: usize) -> Option<usize>
    ensures { MatchOption result (count_of mark_byte text.now ≤ n) (JointAt mark_byte text.now n) }
{
    text.iter()
        .enumerate()
        .filter(|(_, b)| is_mark(**b))
        .nth(n)
        .map(|(place, _)| place)
}
