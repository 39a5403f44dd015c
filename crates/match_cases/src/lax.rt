//! Rules by which more words are the same than those of equal bytes.
ghost use Rattle.std.specs.Prelude.{Decides};
ghost use Rattle.match_cases.specs.Laxity.{SameByLax};

use names::rule::WordRule;

/// A lax rule, which a program may choose while it runs.
#[derive(Clone, Copy)]
pub enum Lax {
    /// The case of letters does not matter.
    AnyCase,
    /// A word of a list stands for each word that it begins.
    Beginning,
}

impl WordRule for Lax {
    ghost same = { SameByLax };

    fn is_same(&self, word: &[u8], other: &[u8]) -> bool
        ensures { Decides result (SameByLax self.now word.now other.now) }
    {
        match self {
            Lax::AnyCase => word.eq_ignore_ascii_case(other),
            Lax::Beginning => other.starts_with(word),
        }
    }
}
