//! What accepted calls are answered with.
use station::number::ProcessNumber;
use std::fmt;
use std::fmt::Display;

/// A name, told by the count of its parts.
#[derive(Clone, Copy)]
pub(crate) struct PartCount(pub(crate) usize);

impl Display for PartCount {
    fn fmt<W: fmt::Write>(&self, f: &mut fmt::Formatter<W>) -> fmt::Result {
        write!(f, "name {}", self.0)
    }
}

/// A process that was started by a call, told by the word of the call and its number.
#[derive(Clone, Copy)]
pub(crate) struct Started(pub(crate) &'static str, pub(crate) ProcessNumber);

impl Display for Started {
    fn fmt<W: fmt::Write>(&self, f: &mut fmt::Formatter<W>) -> fmt::Result {
        write!(f, "{} {}", self.0, self.1.0)
    }
}
