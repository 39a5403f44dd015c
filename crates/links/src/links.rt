//! The table of links, with a row for each group.
ghost use Rattle.std.specs.Prelude.{◌≡◌, ◌≤◌};

use positions::Positions;

/// The most groups that a table has.
pub const MAX_GROUPS: usize = 32;

/// Which group names which. Row i holds the numbers of the groups that group i names.
// An array and a count: the library has no heap, and a table is copied, which no `ArrayVec` is.
// Not one type with `Runs`: those only go forward, which is a fact of their type, and links do not.
#[derive(Clone, Copy)]
pub struct Links {
    pub(crate) rows: [Positions; MAX_GROUPS],
    pub(crate) len: usize,
    ghost few: { len ≤ 32 },
}

impl Links {
    /// A table with no group.
    pub fn new() -> Links
        ensures { result.len ≡ 0 }
    {
        Links {
            rows: [Positions::empty(); MAX_GROUPS],
            len: 0,
        }
    }

    /// How many groups the table has.
    pub fn len(&self) -> usize
        ensures { result ≡ self.now.len }
    {
        self.len
    }
}
