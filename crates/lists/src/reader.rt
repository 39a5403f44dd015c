//! The reader: hands out the tokens of a list text one after another, each as a part of the text.
ghost use Rattle.std.specs.Prelude.{◌≡◌, ◌<◌, ◌≤◌, true, length, MatchOption, MatchResult, slice_index};
ghost use Rattle.std.specs.Option.{option_map};
ghost use Rattle.names.specs.Words.{word_byte};
ghost use Rattle.lists.specs.Bytes.{sign_of};
ghost use Rattle.lists.specs.Lexemes.{sign, SignBegins, FirstToken, Next, TokenFault, Passes, HandsOut};

use super::class::{is_blank, is_group_byte, run_end};
use super::token::{Lexeme, Token};
use faults::fault::Fault;
use faults::kind::Kind;
use names::word::{MAX_WORD_BYTES, is_word_byte};

/// The most bytes that a group name has.
pub const MAX_GROUP_NAME_BYTES: usize = 32;

// The token that a byte is by itself. Not `TryFrom<u8>`: its error would say no more than none does.
#[tactic(auto, unfolding(crate::specs::Bytes::sign_of))]
fn mark<'a>(b: u8) -> Option<Token<'a>>
    ensures { option_map sign result ≡ sign_of b }
{
    match b {
        b'.' => Some(Token::Dot),
        b'@' => Some(Token::At),
        b'+' => Some(Token::Plus),
        b'!' => Some(Token::Any),
        b'(' => Some(Token::Open),
        b')' => Some(Token::Close),
        b'*' => Some(Token::Star),
        b'|' => Some(Token::Bar),
        _ => None,
    }
}

/// Hands out the tokens of a text from left to right.
#[derive(Drop)]
pub struct Tokens<'a> {
    pub(crate) text: &'a [u8],
    pub(crate) at: usize,
    ghost within: { at ≤ length text.now },
}

impl<'a> Tokens<'a> {
    /// A reader at the front of the text.
    pub fn new(text: &'a [u8]) -> Tokens<'a>
        ensures place { (result.text.now ≡ text.now) × (result.at ≡ 0) }
        ensures hands { HandsOut text.now }
    {
        Tokens { text, at: 0 }
    }

    // Always inlined, as `peek` is: most tokens are of few bytes, and a call for each would cost about half of reading it.
    /// The next token, which the reader then passes; none where only blanks are left; or the fault that comes first.
    #[inline(always)]
    pub fn next_token(&mut self) -> Result<Option<Lexeme<'a>>, Fault>
        ensures { Passes self.old.text.now self.old.at self.new.at result × (self.new.text.now ≡ self.old.text.now) }
    {
        let next = self.peek()?;
        self.at = next.map_or(self.text.len(), |lexeme| lexeme.end);
        Ok(next)
    }

    // The next token, or none where only blanks are left.
    #[inline(always)]
    fn peek(&self) -> Result<Option<Lexeme<'a>>, Fault>
        ensures { MatchResult result (λ n. Next self.now.text.now self.now.at n) (λ f. TokenFault self.now.text.now self.now.at f) }
    {
        let place = run_end(self.text, self.at, is_blank);
        let Some(&b) = self.text.get(place) else {
            return Ok(None);
        };
        if is_word_byte(b) {
            return self.word_at(place).map(Some);
        }
        if b == b'{' {
            return self.group_at(place).map(Some);
        }
        let token = mark(b).ok_or(Fault::at(Kind::ByteNotAllowedInList, place))?;
        Ok(Some(Lexeme {
            token,
            place,
            end: place + 1,
        }))
    }

    // The word at a place.
    fn word_at(&self, place: usize) -> Result<Lexeme<'a>, Fault>
        requires begins { SignBegins self.now.text.now self.now.at place }
        requires word { word_byte (slice_index self.now.text.now place) ≡ true }
        ensures { FirstToken self.now.text.now self.now.at result }
    {
        let end = run_end(self.text, place, is_word_byte);
        if end - place > MAX_WORD_BYTES {
            return Err(Fault::at(Kind::WordTooLongInList, place + MAX_WORD_BYTES));
        }
        Ok(Lexeme {
            token: Token::Word(&self.text[place..end]),
            place,
            end,
        })
    }

    // The group reference at a place that holds `{`.
    fn group_at(&self, place: usize) -> Result<Lexeme<'a>, Fault>
        requires begins { SignBegins self.now.text.now self.now.at place }
        requires brace { slice_index self.now.text.now place ≡ 123 }
        ensures { FirstToken self.now.text.now self.now.at result }
    {
        let text = self.text;
        let start = run_end(text, place + 1, is_blank);
        let end = run_end(text, start, is_group_byte);
        if end == start {
            return Err(Fault::at(Kind::GroupNameUnlawful, start));
        }
        if end - start > MAX_GROUP_NAME_BYTES {
            return Err(Fault::at(Kind::GroupNameUnlawful, start + MAX_GROUP_NAME_BYTES));
        }
        let close = run_end(text, end, is_blank);
        if text.get(close) != Some(&b'}') {
            return Err(Fault::at(Kind::GroupNameUnlawful, close));
        }
        Ok(Lexeme {
            token: Token::Group(&text[start..end]),
            place,
            end: close + 1,
        })
    }
}
