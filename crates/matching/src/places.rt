//! The first places of a name.
ghost use Rattle.std.specs.Prelude.{◌≡◌, ℕ, ◌<◌, ◌≤◌, ◌↔◌};
ghost use Rattle.positions.specs.Places.{Has};
ghost use Rattle.runs.specs.Relations.{Identity};
ghost use Rattle.runs.specs.Runs.{Ends};

use positions::Positions;
use runs::Runs;

/// How many of the first places of a name: no more than there are.
#[derive(Clone, Copy)]
pub(crate) struct FirstPlaces {
    pub(crate) count: usize,
    ghost few: { count ≤ 64 },
}

impl FirstPlaces {
    /// The first place alone.
    pub(crate) fn one() -> FirstPlaces
        ensures { result.count ≡ 1 }
    {
        FirstPlaces { count: 1 }
    }

    /// The places as a set.
    pub(crate) fn set(self) -> Positions
        ensures { (i : ℕ) → Has result.digits i ↔ (i < self.count) }
    {
        Positions::first(self.count)
    }

    /// From each of the places, the run that ends where it starts.
    pub(crate) fn runs(self) -> Runs
        ensures counted { result.count ≡ self.count }
        ensures ends { (i j : ℕ) → Ends result i j ↔ Identity self.count i j }
    {
        Runs::start(self.count)
    }
}
