//! Sets of places below 64, each held as one number.
#![tactic(auto)]

ghost use Rattle.std.specs.Prelude.{◌≡◌, ℕ, ◌+◌, ◌<◌, ◌≤◌, true, ◌≢◌, ◌⊎◌, ◌↔◌, MatchOption};
ghost use Rattle.positions.specs.Places.{Has, Split};

mod walk;

pub use walk::Places;

/// How many places there are.
pub const PLACES: usize = 64;

// No `impl Model`: a clause would say the same, `Has s i` for `Has s.digits i`.
/// A set of places: those whose binary digit is set.
#[derive(Clone, Copy, PartialEq, Eq, Debug)]
pub struct Positions {
    digits: u64,
}

impl Positions {
    /// The set with no place.
    pub fn empty() -> Positions
        ensures { (i : ℕ) → Has result.digits i → ⊥ }
    {
        Positions { digits: 0 }
    }

    /// The first places, at most all of them.
    pub fn first(count: usize) -> Positions
        ensures { (i : ℕ) → Has result.digits i ↔ ((i < count) × (i < 64)) }
    {
        if count >= PLACES {
            return Positions { digits: u64::MAX };
        }
        Positions {
            digits: (1u64 << count) - 1,
        }
    }

    /// Whether the set has no place.
    pub fn is_empty(self) -> bool
        ensures { (result ≡ true) ↔ ((i : ℕ) → Has self.digits i → ⊥) }
    {
        self.digits == 0
    }

    /// Whether a place is in the set; none from 64 on is.
    pub fn contains(self, i: usize) -> bool
        ensures { (result ≡ true) ↔ Has self.digits i }
    {
        i < PLACES && (self.digits >> i) & 1 == 1
    }

    /// The set with one more place; one from 64 on changes nothing.
    pub fn insert(self, i: usize) -> Positions
        ensures { (j : ℕ) → Has result.digits j ↔ (Has self.digits j ⊎ ((j ≡ i) × (i < 64))) }
    {
        if i >= PLACES {
            return self;
        }
        Positions {
            digits: self.digits | 1u64 << i,
        }
    }

    /// The set without one place.
    pub fn remove(self, i: usize) -> Positions
        ensures { (j : ℕ) → Has result.digits j ↔ (Has self.digits j × (j ≢ i)) }
    {
        self.without(Positions::empty().insert(i))
    }

    /// The places of either set.
    pub fn union(self, other: Positions) -> Positions
        ensures { (i : ℕ) → Has result.digits i ↔ (Has self.digits i ⊎ Has other.digits i) }
    {
        Positions {
            digits: self.digits | other.digits,
        }
    }

    /// The places of both sets.
    pub fn common(self, other: Positions) -> Positions
        ensures { (i : ℕ) → Has result.digits i ↔ (Has self.digits i × Has other.digits i) }
    {
        Positions {
            digits: self.digits & other.digits,
        }
    }

    /// The places that the other set lacks.
    pub fn without(self, other: Positions) -> Positions
        ensures places { (i : ℕ) → Has result.digits i ↔ (Has self.digits i × (Has other.digits i → ⊥)) }
        ensures less { result.digits ≤ self.digits }
    {
        Positions {
            digits: self.digits & !other.digits,
        }
    }

    /// Each place one further; the last falls off.
    pub fn advanced(self) -> Positions
        ensures { (j : ℕ) → Has result.digits j ↔ ((i : ℕ) × (j ≡ i + 1) × (j < 64) × Has self.digits i) }
    {
        Positions {
            digits: self.digits << 1,
        }
    }

    /// The least place, and the set without it; none where there is no place.
    pub fn split_first(self) -> Option<(usize, Positions)>
        ensures { MatchOption result ((i : ℕ) → Has self.digits i → ⊥) (λ o. Split self.digits o.0 o.1.digits) }
    {
        if self.is_empty() {
            return None;
        }
        let first = self.digits.trailing_zeros() as usize;
        let others = Positions {
            digits: self.digits & (self.digits - 1),
        };
        Some((first, others))
    }
}
