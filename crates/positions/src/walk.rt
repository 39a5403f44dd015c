//! A walk over the places of a set, from the least on.
ghost use Rattle.std.specs.Prelude.{◌≡◌};
ghost use Rattle.std.specs.Iterator.{at_most, MakesProgress};
ghost use Rattle.positions.specs.Places.{Step};

use crate::Positions;

/// The places of a set that a walk has yet to give.
#[derive(Drop)]
pub struct Places {
    pub(crate) left: Positions,
}

impl Iterator for Places {
    type Item = usize;

    ghost next_gives = { λ s r t. Step s.left.digits r t.left.digits };

    ghost remaining = { λ s. at_most s.left.digits };

    fn next(&mut self) -> Option<usize>
        ensures steps { Step self.old.left.digits result self.new.left.digits }
        ensures goes { MakesProgress (λ _. Unit {0}) (λ s. at_most s.left.digits) self.old result self.new }
    {
        let (first, others) = self.left.split_first()?;
        self.left = others;
        Some(first)
    }
}

impl IntoIterator for Positions {
    type Item = usize;

    type IntoIter = Places;

    ghost into_iter_gives = { λ s r. r.left ≡ s };

    fn into_iter(self) -> Places
        ensures { result.left ≡ self }
    {
        Places { left: self }
    }
}
