//! The signs of a list text, as parts of it.

/// A word, a group name or a mark of a list text.
#[derive(Clone, Copy, PartialEq, Eq, Debug)]
pub enum Token<'a> {
    Word(&'a [u8]),
    Dot,
    At,
    Plus,
    Any,
    Open,
    Close,
    Star,
    Bar,
    Group(&'a [u8]),
}

/// A token with its place in the text, and the place after it.
#[derive(Clone, Copy, PartialEq, Eq, Debug)]
pub struct Lexeme<'a> {
    pub token: Token<'a>,
    pub place: usize,
    pub end: usize,
}
