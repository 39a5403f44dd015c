//! Any number of runs, each from where the one before ended.
ghost use Rattle.std.specs.Prelude.{◌≡◌};
ghost use Rattle.runs.specs.Relations.{Closure};
ghost use Rattle.runs.specs.Runs.{Ends, Reflexive, Closed, Becomes};

use super::relation::Runs;
use positions::Positions;

/// A relation in which a run after a run is a run, and from each of the first places a run ends where it starts.
#[derive(Clone, Copy)]
pub struct ClosedRuns {
    pub(crate) runs: Runs,
    ghost reflexive: { ∥ Reflexive runs ∥₁ },
    ghost closed: { ∥ Closed runs ∥₁ },
}

impl Runs {
    /// Any number of these runs, each from where the one before ended.
    /// A row needs those after it, so the last one comes first.
    pub fn closed(self) -> ClosedRuns
        ensures { Becomes self result.runs (Closure self.count (Ends self)) }
    {
        let mut runs = self;
        // The places from which a run goes on. From the others none leads anywhere else, so they add no end.
        let mut going = Positions::empty();
        // By number: a row is worked out from rows after it, which it names by their numbers.
        for i in (0..self.count).rev() {
            let row = runs.row(i);
            let others = row.remove(i);
            let further = runs.closed_image(others.common(going));
            runs.set_row(i, row.insert(i).union(further));
            if !others.is_empty() {
                going = going.insert(i);
            }
        }
        ClosedRuns { runs }
    }
}

/// The relation itself.
impl From<ClosedRuns> for Runs {
    ghost from_gives = { λ closed runs. runs ≡ closed.runs };

    fn from(closed: ClosedRuns) -> Runs
        ensures { result ≡ closed.runs }
    {
        closed.runs
    }
}
