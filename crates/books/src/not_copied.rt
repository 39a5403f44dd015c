//! Why a book copied nothing.

/// The book lacks the name, or the buffer is too short for the name's text.
#[derive(Clone, Copy, Debug, PartialEq, Eq)]
pub enum NotCopied {
    NameLacking,
    BufferTooShort,
}
