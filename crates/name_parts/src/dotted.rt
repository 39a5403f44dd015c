//! Runs of words joined by dots.
ghost use Rattle.std.specs.Prelude.{◌≡◌, ℕ, min, ◌↔◌};
ghost use Rattle.runs.specs.Runs.{Ends};
ghost use Rattle.name_parts.specs.Dotted.{DottedWords};

use positions::Positions;
use runs::Runs;

// The count is cut at 64 as `start` cuts it, of which this is made.
/// From each of the first places, the runs of words joined by dots.
pub(crate) fn dotted_words(count: usize, words: Positions, dots: Positions) -> Runs
    ensures counted { result.count ≡ min count 64 }
    ensures ends { (i j : ℕ) → Ends result i j ↔ DottedWords (min count 64) words.digits dots.digits i j }
{
    let mut dot_word = Runs::start(count);
    dot_word.advance(dots);
    dot_word.advance(words);
    let mut runs = Runs::start(count);
    runs.advance(words);
    runs.follow(&dot_word.closed());
    runs
}
