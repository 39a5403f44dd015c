//! Looking for a reference in a text.
ghost use Rattle.std.specs.Prelude.{◌≡◌, List, MatchOption};
ghost use Rattle.openings.specs.References.{Reference, Refers};
ghost use Rattle.openings.specs.MetReferences.{Named};
ghost use Rattle.openings.specs.Views.{text_in};
ghost use Rattle.openings.specs.BackReferences.{First};

use lists::list::AccessList;
use lists::token::Token;

/// The place of the first reference in the text to the group of this name.
pub(crate) fn first_reference(text: &AccessList, name: &[u8]) -> Option<usize>
    ensures { (rs : List Reference) → Refers (text_in text.now) rs → MatchOption result (Named rs name.now → ⊥) (λ place. First (λ h. h ≡ name.now) rs place) }
{
    for lexeme in text.tokens() {
        if let Token::Group(named) = lexeme.token {
            if named == name {
                return Some(lexeme.place);
            }
        }
    }
    None
}
