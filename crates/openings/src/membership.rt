//! Who is asked which groups there are.
ghost use Rattle.std.specs.Prelude.{◌≡◌, ℕ, Bool, List};

/// Answers which groups there are, and needs none of their texts for it.
pub trait Membership {
    ghost has: { Self → List ℕ → Bool };

    /// Whether there is a group of this name.
    fn has(&self, name: &[u8]) -> bool
        ensures { result ≡ has self.now name.now };
}
