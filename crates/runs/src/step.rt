//! Runs that start, and runs that go on.
ghost use Rattle.std.specs.Prelude.{◌≡◌, ℕ, min, ◌↔◌};
ghost use Rattle.runs.specs.Relations.{Nowhere, Identity, United, Advanced, Composed};
ghost use Rattle.runs.specs.Runs.{Ends, Becomes};

use super::relation::{Relation, Runs};
use positions::Positions;

impl Runs {
    /// From each of the first places, of which there are at most 64, the run that ends where it starts.
    pub fn start(count: usize) -> Runs
        ensures counted { result.count ≡ min count 64 }
        ensures ends { (i j : ℕ) → Ends result i j ↔ Identity (min count 64) i j }
    {
        let mut runs = Runs::none(count);
        runs.map_rows(|i, _| Positions::empty().insert(i));
        runs
    }

    /// Leaves no run.
    pub fn clear(&mut self)
        ensures { Becomes self.old self.new Nowhere }
    {
        *self = Runs::none(self.count);
    }

    /// The runs that end at one of these places go one further, and the others are left out.
    pub fn advance(&mut self, places: Positions)
        ensures { Becomes self.old self.new (Advanced (Ends self.old) places.digits) }
    {
        self.map_rows(|_, row| row.common(places).advanced());
    }

    /// Adds the runs of the other relation that start at one of the first places here.
    pub fn unite(&mut self, other: &Runs)
        ensures { Becomes self.old self.new (United (Ends self.old) self.old.count (Ends other.now)) }
    {
        self.map_rows(|i, row| row.union(other.row(i)));
    }

    /// Each run goes on by a run of the other relation.
    pub fn follow<R: Relation>(&mut self, each: &R)
        ensures { Becomes self.old self.new (Composed (Ends self.old) (R.ends each.now)) }
    {
        self.map_rows(|_, row| each.image(row));
    }
}
