//! Why a line is refused.
ghost use Rattle.std.specs.Prelude.{Some, codes};
ghost use Rattle.std.specs.Fmt.{DisplaysOnOk};

use std::error::Error;
use std::fmt;

/// A line is neither a call nor a line to pass over.
#[derive(Clone, Copy, Debug, PartialEq, Eq)]
pub struct NotUnderstood;

impl fmt::Display for NotUnderstood {
    ghost output = { λ _. Some (codes "not understood") };

    fn fmt<W: fmt::Write>(&self, f: &mut fmt::Formatter<W>) -> fmt::Result
        ensures { DisplaysOnOk W.write_str_gives f.old result (Some (codes "not understood")) f.new }
    {
        write!(f, "not understood")
    }
}

impl Error for NotUnderstood {}
