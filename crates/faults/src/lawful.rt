//! Texts of one form, as names or lists are.
ghost use Rattle.std.specs.Prelude.{◌≡◌, ℕ, List};
ghost use Rattle.faults.specs.declared.fault.Fault.{Fault};
ghost use Rattle.faults.specs.Lawful.{Checked};

use super::fault::Fault;

// Not `TryFrom<&[u8]>` and `AsRef<[u8]>`: the first could not say what the second lends, and the second says nothing.
/// A text that has been checked to be lawful, of one form.
pub trait LawfulText: Sized {
    // The bytes of a value.
    ghost shows: { Self → List ℕ };

    // Which texts have the form.
    ghost lawful: { List ℕ → Type 0 };

    // Which fault any other text has.
    ghost faulty: { List ℕ → Fault → Type 0 };

    /// The value that the text is, or the fault that it has.
    fn new(text: &[u8]) -> Result<Self, Fault>
        ensures { Checked shows lawful faulty text.now result };

    /// The bytes of the text.
    fn as_bytes(&self) -> &[u8]
        ensures { result.now ≡ shows self.now };
}
