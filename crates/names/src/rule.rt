//! Rules by which a word of a list and a word of a name are the same.
ghost use Rattle.std.specs.Prelude.{ℕ, List, Decides};
ghost use Rattle.names.specs.Rules.{exact};

/// A rule by which a word of a list and a word of a name are the same. Nothing else is asked of it: it need not be the
/// same both ways round.
pub trait WordRule {
    ghost same: { Self → List ℕ → List ℕ → Type 0 };

    /// Whether a word of a list and a word of a name are the same.
    fn is_same(&self, word: &[u8], other: &[u8]) -> bool
        ensures { Decides result (same self.now word.now other.now) };
}

/// Words are the same if their bytes are.
#[derive(Clone, Copy, Debug, PartialEq, Eq)]
pub struct ExactBytes;

impl WordRule for ExactBytes {
    ghost same = { λ _. exact };

    fn is_same(&self, word: &[u8], other: &[u8]) -> bool
        ensures { Decides result (exact word.now other.now) }
    {
        word == other
    }
}
