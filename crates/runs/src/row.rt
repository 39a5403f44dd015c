//! The rows of a relation: each holds the ends of the runs from one start.
ghost use Rattle.std.specs.Prelude.{◌≡◌, ℕ, min, ◌<◌, ◌≤◌, true, ◌↔◌, length};
ghost use Rattle.positions.specs.Places.{Has};
ghost use Rattle.runs.specs.Relations.{Replaced};
ghost use Rattle.positions.specs.Rows.{row_at};
ghost use Rattle.runs.specs.Runs.{Ends, Becomes};

use super::relation::Runs;
use positions::{PLACES, Positions};

impl Runs {
    // The count is cut at 64 here: `start` is public and takes any, since no public call has a precondition.
    /// The relation that has no run, with at most 64 starts.
    pub(crate) fn none(count: usize) -> Runs
        ensures counted { result.count ≡ min count 64 }
        ensures ends { (i j : ℕ) → Ends result i j → ⊥ }
    {
        Runs {
            rows: [Positions::empty(); PLACES],
            count: count.min(PLACES),
        }
    }

    /// The ends of the runs from a start.
    pub(crate) fn row(&self, i: usize) -> Positions
        ensures { (j : ℕ) → Has result.digits j ↔ Ends self.now i j }
    {
        self.rows[..self.count]
            .get(i)
            .copied()
            .unwrap_or(Positions::empty())
    }

    /// Puts the ends of the runs from a start in place of those that it had.
    pub(crate) fn set_row(&mut self, i: usize, ends: Positions)
        requires inside { i < self.old.count }
        requires onward { (j : ℕ) → Has ends.digits j → i ≤ j }
        ensures { Becomes self.old self.new (Replaced (Ends self.old) i ends.digits) }
    {
        self.rows[i] = ends;
    }

    /// Puts in each row what a function makes of its start and of the ends that it had.
    pub(crate) fn map_rows<F: Fn(usize, Positions) -> Positions>(&mut self, change: F)
        requires callable { F.IsAlwaysCallable change }
        requires onward { (i : ℕ) (ends : Positions) → i < self.old.count → F.post change i (row_at self.old.rows i) ends → (j : ℕ) → Has ends.digits j → i ≤ j }
        ensures kept { self.new.count ≡ self.old.count }
        ensures rows { (i : ℕ) → i < self.old.count → F.post change i (row_at self.old.rows i) (row_at self.new.rows i) }
    {
        change_first(&mut self.rows, self.count, change);
    }

    /// Whether a run from one place can end at another.
    pub fn has(&self, i: usize, j: usize) -> bool
        ensures { (result ≡ true) ↔ Ends self.now i j }
    {
        self.row(i).contains(j)
    }
}

// Puts in each of the first rows what a function makes of its number and of what it holds.
fn change_first<F: Fn(usize, Positions) -> Positions>(
    rows: &mut [Positions],
    count: usize,
    change: F,
)
    requires callable { F.IsAlwaysCallable change }
    requires room { count ≤ length rows.old }
    ensures whole { length rows.new ≡ length rows.old }
    ensures changed { (i : ℕ) → i < count → F.post change i (row_at rows.old i) (row_at rows.new i) }
{
    for (i, row) in rows[..count].iter_mut().enumerate() {
        *row = change(i, *row);
    }
}
