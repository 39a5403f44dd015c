//! The bytes that words are made of.
ghost use Rattle.std.specs.Prelude.{◌≡◌};
ghost use Rattle.names.specs.Words.{word_byte};

/// The most bytes that a word has.
pub const MAX_WORD_BYTES: usize = 32;

/// Whether words may hold the byte: letters, digits, `-` and `_`.
#[tactic(auto, using(crate::proofs::Bytes::word_byte_is))]
pub fn is_word_byte(b: u8) -> bool
    ensures { result ≡ word_byte b }
{
    b.is_ascii_alphanumeric() || b == b'-' || b == b'_'
}
