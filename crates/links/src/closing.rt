//! What leads where: the closing of a table under its own links.
ghost use Rattle.std.specs.Prelude.{◌≡◌, ℕ, ◌<◌, ◌≤◌, ◌⊎◌, ◌↔◌, length};
ghost use Rattle.positions.specs.Rows.{At};
ghost use Rattle.links.specs.Links.{Linked, Chain};

use super::links::Links;
use positions::Positions;

impl Links {
    /// The table in which each group names all that its links lead to, in one step or more.
    pub fn closed(self) -> Links
        ensures count { result.len ≡ self.len }
        ensures links { (i j : ℕ) → Linked result i j ↔ Chain (Linked self) i j }
    {
        let mut rows = self.rows;
        // By number: rows hold the groups that are named as their numbers.
        for middle in 0..self.len {
            link_through(&mut rows, self.len, middle);
        }
        Links {
            rows,
            len: self.len,
        }
    }
}

// Links each of the first groups that names the middle one to all that the middle one names.
// Not by a function that takes the change: it would be public, for two crates, and have a precondition.
fn link_through(rows: &mut [Positions], len: usize, middle: usize)
    requires room { len ≤ length rows.old }
    requires inside { middle < len }
    ensures whole { length rows.new ≡ length rows.old }
    ensures links { (i j : ℕ) → i < len → At rows.new i j ↔ (At rows.old i j ⊎ (At rows.old i middle × At rows.old middle j)) }
{
    let named = rows[middle];
    for row in &mut rows[..len] {
        if row.contains(middle) {
            *row = row.union(named);
        }
    }
}
