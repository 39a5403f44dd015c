//! Relations between places: what each of them has, and the one that holds a row for each start.
ghost use Rattle.std.specs.Prelude.{ℕ, ◌≤◌, ◌↔◌};
ghost use Rattle.positions.specs.Places.{Has};
ghost use Rattle.runs.specs.Relations.{Image};
ghost use Rattle.runs.specs.Rows.{Onward};

use positions::{PLACES, Positions};

/// A relation between places that only goes forward.
pub trait Relation {
    // Where the runs from each place can end.
    ghost ends: { Self → ℕ → ℕ → Type 0 };

    /// The ends of the runs from a set of starts.
    fn image(&self, starts: Positions) -> Positions
        ensures { (j : ℕ) → Has result.digits j ↔ Image (ends self.now) starts.digits j };

    ghost onward: { (r : Self) (i j : ℕ) → ends r i j → i ≤ j };
}

/// Where the runs that start at each of the first `count` places can end.
// An array and a count: the library has no heap, and a relation is copied, which no `ArrayVec` is.
#[derive(Clone, Copy)]
pub struct Runs {
    pub(crate) rows: [Positions; PLACES],
    pub(crate) count: usize,
    ghost counted: { count ≤ 64 },
    ghost onward: { Onward rows count },
}
