//! What a group names: how it is put into the table, and read.
ghost use Rattle.std.specs.Prelude.{◌≡◌, ℕ, true, ◌↔◌, MatchResult};
ghost use Rattle.positions.specs.Places.{Has};
ghost use Rattle.links.specs.Links.{Linked, Added};

use super::links::{Links, MAX_GROUPS};
use positions::Positions;

// An error of its own: a register's has the same shape, but this crate needs no registers.
/// The table has no row left for a further group.
#[derive(Clone, Copy, PartialEq, Eq, Debug)]
pub struct Full;

impl Links {
    /// Adds a group that names these groups. It has the next number.
    pub fn push(&mut self, named: Positions) -> Result<(), Full>
        ensures { MatchResult result (λ _. Added self.old named.digits self.new) (λ _. (self.old.len ≡ 32) × (self.new ≡ self.old)) }
    {
        if self.len == MAX_GROUPS {
            return Err(Full);
        }
        self.rows[self.len] = named;
        self.len += 1;
        Ok(())
    }

    /// Whether one group names another.
    pub fn has(&self, from: usize, to: usize) -> bool
        ensures { (result ≡ true) ↔ Linked self.now from to }
    {
        self.row(from).contains(to)
    }

    /// The groups that a group names; one that is not in the table names none.
    pub fn row(&self, from: usize) -> Positions
        ensures { (to : ℕ) → Has result.digits to ↔ Linked self.now from to }
    {
        self.rows[..self.len]
            .get(from)
            .copied()
            .unwrap_or(Positions::empty())
    }
}
