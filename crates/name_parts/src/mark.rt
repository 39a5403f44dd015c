//! The marks between the words of a name.

/// How many marks there are.
pub(crate) const MARKS: usize = 3;

/// A mark of a name.
// A name's `Part` and a list's `Token` can be words too, and callers match on them, so neither holds a `Mark`.
#[derive(Clone, Copy, Debug, PartialEq, Eq)]
pub enum Mark {
    Dot,
    At,
    Plus,
}
