//! Texts that are held up to a limit.
ghost use Rattle.std.specs.Prelude.{◌≡◌, ◌<◌, ◌≤◌, length, MatchResult};
ghost use Rattle.texts.specs.Shown.{shown};
ghost use Rattle.names.specs.Faults.{fault};

use faults::fault::Fault;
use faults::kind::Kind;
use texts::Text;

/// A copy of the text, or a fault of the kind at the limit of `N` bytes.
pub fn copy_within<const N: usize>(text: &[u8], kind: Kind) -> Result<Text<N>, Fault>
    ensures { MatchResult result (λ t. (length text.now ≤ N) × (shown t ≡ text.now)) (λ f. (N < length text.now) × (f ≡ fault kind N)) }
{
    Text::copy_of(text).ok_or(Fault::at(kind, N))
}
