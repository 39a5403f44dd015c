//! A walk over the tokens of a lawful list.
ghost use Rattle.std.specs.Prelude.{ℕ, ◌-◌, ◌≤◌, List, length};
ghost use Rattle.lists.specs.Trees.{Sign};
ghost use Rattle.lists.specs.Placed.{Placed, Walks};
ghost use Rattle.std.specs.Iterator.{at_most};

use super::reader::Tokens;
use super::token::Lexeme;

/// A walk over the tokens of a lawful list, from left to right.
#[derive(Drop)]
pub struct ListTokens<'a> {
    // Not a reader in one field: clauses of the crates above name these two, and would be no plainer through it.
    pub(crate) text: &'a [u8],
    pub(crate) at: usize,
    ghost readable: { ∥ ((ps : List (ℕ × Sign)) × Placed text.now at ps) ∥₁ },
    ghost within: { at ≤ length text.now },
}

impl<'a> Iterator for ListTokens<'a> {
    type Item = Lexeme<'a>;

    ghost next_gives = { λ s r t. Walks s.text.now s.at r t.text.now t.at };

    ghost remaining = { λ s. at_most (length s.text.now - s.at) };

    fn next(&mut self) -> Option<Lexeme<'a>> {
        let mut tokens = Tokens {
            text: self.text,
            at: self.at,
        };
        // A lawful list has no fault.
        let next = tokens.next_token().ok()?;
        self.at = tokens.at;
        next
    }
}
