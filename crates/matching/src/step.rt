//! Steps: what one item of a list derives, from every place of a name.
ghost use Rattle.std.specs.Prelude.{◌≡◌, ℕ, ◌↔◌};
ghost use Rattle.runs.specs.Relations.{Composed};
ghost use Rattle.runs.specs.Runs.{Ends};
ghost use Rattle.matching.specs.Steps.{StepEnds, StepCounted, StepRuns, Repeats};

use super::places::FirstPlaces;
use positions::Positions;
use runs::{ClosedRuns, Runs};

/// What an item derives: one part at some places, runs of parts, or any number of runs.
// An enum and no `dyn`: a reading holds its last step by value, since there is no heap.
#[derive(Clone, Copy)]
pub(crate) enum Step {
    Part(Positions),
    Runs(Runs),
    Closed(ClosedRuns),
}

impl Step {
    /// Each run goes on by this step.
    pub(crate) fn follow(&self, runs: &mut Runs)
        ensures kept { runs.new.count ≡ runs.old.count }
        ensures ends { (i j : ℕ) → Ends runs.new i j ↔ Composed (Ends runs.old) (StepEnds self.now) i j }
    {
        // Not `Relation` for `Step`: its `image` would hold the same three arms, once for each row.
        match self {
            Step::Part(places) => runs.advance(*places),
            Step::Runs(each) => runs.follow(each),
            Step::Closed(each) => runs.follow(each),
        }
    }

    // The step as a relation from the first places. Not a `From`, which could not take the places.
    fn into_runs(self, places: FirstPlaces) -> Runs
        ensures { StepCounted self places.count → StepRuns self places.count result }
    {
        match self {
            Step::Part(part) => {
                let mut runs = places.runs();
                runs.advance(part);
                runs
            }
            Step::Runs(each) => each,
            Step::Closed(each) => each.into(),
        }
    }

    /// The step any number of times.
    pub(crate) fn starred(self, places: FirstPlaces) -> Step
        ensures { StepCounted self places.count → Repeats self result places.count }
    {
        match self {
            // Any number of times, any number of times, is any number of times.
            Step::Closed(_) => self,
            _ => Step::Closed(self.into_runs(places).closed()),
        }
    }
}
