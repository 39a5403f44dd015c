//! Process numbers.
ghost use Rattle.std.specs.Prelude.{◌≡◌, [], ◌∷◌, nat_lt};
ghost use Rattle.std.proofs.Common.{rules};

use registers::key::Key;

/// The number of a process. Processes have the numbers 1, 2, 3 and so on, and 0 is that of none.
#[derive(Clone, Copy, Debug, PartialEq, Eq)]
pub struct ProcessNumber(pub u32);

/// The number is a row of one.
impl Key for ProcessNumber {
    ghost view = { λ n. n.0 ∷ [] };

    ghost told_apart = { Prim.search rules };

    fn is_before(&self, other: &ProcessNumber) -> bool
        ensures { result ≡ nat_lt self.now.0 other.now.0 }
    {
        self.0 < other.0
    }
}
