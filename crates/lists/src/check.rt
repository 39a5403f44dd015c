//! The check that a text is a list: brackets recurse, and everything else is read from left to right.
ghost use Rattle.std.specs.Prelude.{◌≡◌, true, MatchResult};
ghost use Rattle.lists.specs.Machine.{ListBegins, BracketOpens, ListRead, ItemRead, ItemStands, Closes};
ghost use Rattle.lists.specs.Texts.{ListText};
ghost use Rattle.lists.specs.Faults.{Slip};

use super::MAX_DEPTH;
use super::class::is_blank;
use super::reader::Tokens;
use super::token::Token;
use faults::fault::Fault;
use faults::kind::Kind;

/// Whether the text is a list, its length aside; else the fault that it has.
pub(crate) fn check_list(text: &[u8]) -> Result<(), Fault>
    ensures { MatchResult result (λ _. ListText text.now) (λ f. Slip text.now f) }
{
    if text.iter().all(|b| is_blank(*b)) {
        return Ok(());
    }
    read_list(&mut Tokens::new(text), 0)?;
    Ok(())
}

// Reads a list that stands within `depth` brackets. Answers whether a bracket closes it, or else the text's end.
// That the text stays is a clause, since it is what a call leaves of the reader that is lent to it.
#[cycle(read_bracket_read_list)]
fn read_list(tokens: &mut Tokens<'_>, depth: usize) -> Result<bool, Fault>
    requires { ListBegins tokens.old.text.now tokens.old.at depth }
    ensures kept { tokens.new.text.now ≡ tokens.old.text.now }
    ensures read { MatchResult result (λ closed. ListRead tokens.old.text.now tokens.old.at depth closed tokens.new.at) (λ f. Slip tokens.old.text.now f) }
{
    let mut due = true;
    // No `for`: a token can be refused, and a bracket lends the reader on to the call that reads it.
    while let Some(lexeme) = tokens.next_token()? {
        match lexeme.token {
            Token::Open => {
                read_bracket(tokens, lexeme.place, depth)?;
                due = false;
            }
            Token::Close => {
                close(lexeme.place, depth, due)?;
                return Ok(true);
            }
            Token::Star => after_item(lexeme.place, due)?,
            Token::Bar => {
                after_item(lexeme.place, due)?;
                due = true;
            }
            _ => due = false,
        }
    }
    after_item(tokens.text.len(), due)?;
    Ok(false)
}

// Reads the bracket at a place, which the reader has just passed.
#[cycle(read_bracket_read_list)]
fn read_bracket(tokens: &mut Tokens<'_>, place: usize, depth: usize) -> Result<(), Fault>
    requires { BracketOpens tokens.old.text.now place tokens.old.at depth }
    ensures kept { tokens.new.text.now ≡ tokens.old.text.now }
    ensures read { MatchResult result (λ _. ItemRead tokens.old.text.now place tokens.new.at depth) (λ f. Slip tokens.old.text.now f) }
{
    if depth == MAX_DEPTH {
        return Err(Fault::at(Kind::BracketsTooDeep, place));
    }
    if !read_list(tokens, depth + 1)? {
        return Err(Fault::at(Kind::BracketUnmatched, place));
    }
    Ok(())
}

// Leaves the bracket that a `)` closes.
fn close(place: usize, depth: usize, due: bool) -> Result<(), Fault>
    ensures { Closes place depth due result }
{
    if depth == 0 {
        return Err(Fault::at(Kind::BracketUnmatched, place));
    }
    after_item(place, due)
}

// Whether an item stands before a place, and none is due there.
fn after_item(place: usize, due: bool) -> Result<(), Fault>
    ensures { ItemStands place due result }
{
    if due {
        return Err(Fault::at(Kind::ItemMissing, place));
    }
    Ok(())
}
