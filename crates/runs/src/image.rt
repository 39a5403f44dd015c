//! The image of a set of starts: where the runs from them can end.
ghost use Rattle.std.specs.Prelude.{ℕ, ◌↔◌};
ghost use Rattle.positions.specs.Places.{Has};
ghost use Rattle.runs.specs.Relations.{Image};
ghost use Rattle.runs.specs.Runs.{Ends};

use super::closure::ClosedRuns;
use super::relation::{Relation, Runs};
use positions::Positions;

impl Relation for Runs {
    ghost ends = { Ends };

    ghost onward = { λ r. r.onward };

    fn image(&self, starts: Positions) -> Positions
        ensures { (j : ℕ) → Has result.digits j ↔ Image (Ends self.now) starts.digits j }
    {
        let mut ends = Positions::empty();
        for m in starts {
            ends = ends.union(self.row(m));
        }
        ends
    }
}

impl Relation for ClosedRuns {
    ghost ends = { λ r. Ends r.runs };

    ghost onward = { λ r. r.runs.onward };

    fn image(&self, starts: Positions) -> Positions
        ensures { (j : ℕ) → Has result.digits j ↔ Image (Ends self.now.runs) starts.digits j }
    {
        self.runs.closed_image(starts)
    }
}

impl Runs {
    /// The image of starts from which a run after a run is a run.
    /// A start that is an end of another one then adds nothing.
    // It stands beside `image` of `ClosedRuns`, since `closed` works with it while the relation is not closed yet.
    pub(crate) fn closed_image(&self, starts: Positions) -> Positions
        requires { (m k j : ℕ) → Has starts.digits m → Ends self.now m k → Ends self.now k j → Ends self.now m j }
        ensures { (j : ℕ) → Has result.digits j ↔ Image (Ends self.now) starts.digits j }
    {
        let mut ends = Positions::empty();
        let mut left = starts;
        // No `for`: each start takes others away from those that are left.
        while let Some((m, others)) = left.split_first() {
            let row = self.row(m);
            ends = ends.union(row);
            left = others.without(row);
        }
        ends
    }
}
