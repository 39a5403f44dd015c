//! The parts of a name, in order.
ghost use Rattle.std.specs.Prelude.{◌-◌, ◌≤◌, length};
ghost use Rattle.names.specs.Parts.{AtPart, WordEnd, Walks};
ghost use Rattle.std.specs.Iterator.{at_most};

use super::word::is_word_byte;

/// A word of a name, or a mark.
#[derive(Clone, Copy, PartialEq, Eq, Debug)]
pub enum Part<'a> {
    Word(&'a [u8]),
    Dot,
    At,
    Plus,
}

/// A walk over the parts of a name, each with the place that it begins at.
#[derive(Drop)]
pub struct Parts<'a> {
    pub(crate) text: &'a [u8],
    pub(crate) at: usize,
    ghost stands: { ∥ AtPart text.now at ∥₁ },
}

// Where the word bytes from a place on end.
// Not a `run_end` that lists shares: a public call has no precondition, and that one needs two.
fn word_end(text: &[u8], from: usize) -> usize
    requires { from ≤ length text.now }
    ensures { WordEnd text.now from result }
{
    from + text[from..]
        .iter()
        .take_while(|b| is_word_byte(**b))
        .count()
}

impl<'a> Iterator for Parts<'a> {
    type Item = (usize, Part<'a>);

    ghost next_gives = { λ s r t. Walks s.text.now s.at r t.text.now t.at };

    ghost remaining = { λ s. at_most (length s.text.now - s.at) };

    fn next(&mut self) -> Option<(usize, Part<'a>)> {
        let text = self.text;
        let place = self.at;
        let first = *text.get(place)?;
        let end = word_end(text, place);
        if end > place {
            self.at = end;
            return Some((place, Part::Word(&text[place..end])));
        }
        self.at = place + 1;
        let part = match first {
            b'.' => Part::Dot,
            b'@' => Part::At,
            _ => Part::Plus,
        };
        Some((place, part))
    }
}
