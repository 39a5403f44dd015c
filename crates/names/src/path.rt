//! Paths: where a list is posted, and what a decision is asked for.
ghost use Rattle.std.specs.Prelude.{◌≡◌, ℕ, ◌+◌, ◌^◌, ◌<◌, List, length, MatchOption, slice_index, ◌≢◌};
ghost use Rattle.faults.specs.declared.kind.Kind.TheVariants.{PathUnlawful};
ghost use Rattle.faults.specs.Lawful.{Checked};
ghost use Rattle.texts.specs.Shown.{shown};
ghost use Rattle.names.specs.Paths.{LawfulPath, LiesAbove, IsParent, LastSlash};
ghost use Rattle.names.specs.Faults.{PathFault};

use super::joint::check_joined;
use super::limit::copy_within;
use faults::fault::Fault;
use faults::kind::Kind;
use faults::lawful::LawfulText;
use texts::Text;

/// The most bytes that a path has.
pub const MAX_PATH_BYTES: usize = 64;

/// A lawful path.
#[derive(Clone, Copy, Debug, PartialEq, Eq)]
pub struct Path {
    text: Text<MAX_PATH_BYTES>,
    ghost lawful: { ∥ LawfulPath (shown text) ∥₁ },
}

// The fault of a path, where the words behind its first slash have a fault.
fn behind_slash(fault: Fault) -> Fault
    requires { fault.place + 1 < 2 ^ 64 }
    ensures { result ≡ record { kind = PathUnlawful; text = 0; place = fault.place + 1 } }
{
    Fault::at(Kind::PathUnlawful, fault.place + 1)
}

// The place of the last slash of the text.
fn last_slash(text: &[u8]) -> Option<usize>
    ensures { MatchOption result ((i : ℕ) → i < length text.now → slice_index text.now i ≢ 47) (LastSlash text.now) }
{
    text.iter().rposition(|b| *b == b'/')
}

impl LawfulText for Path {
    ghost shows = { λ p. shown p.text };

    ghost lawful = { LawfulPath };

    ghost faulty = { PathFault };

    fn new(text: &[u8]) -> Result<Path, Fault>
        ensures { Checked (λ p. shown p.text) LawfulPath PathFault text.now result }
    {
        let held = copy_within::<MAX_PATH_BYTES>(text, Kind::PathUnlawful)?;
        let words = text
            .strip_prefix(b"/")
            .ok_or(Fault::at(Kind::PathUnlawful, 0))?;
        check_joined(words, |b| b == b'/').map_err(behind_slash)?;
        Ok(Path { text: held })
    }

    fn as_bytes(&self) -> &[u8]
        ensures { result.now ≡ shown self.now.text }
    {
        self.text.as_bytes()
    }
}

impl Path {
    // Not `AsRef`: that name would not say which view of the path it is.
    /// The path as a text.
    pub fn as_text(&self) -> &Text<MAX_PATH_BYTES>
        ensures { result.now ≡ self.now.text }
    {
        &self.text
    }

    /// The path of all words but the last, or none where there is one word alone.
    pub fn parent(&self) -> Option<Path>
        ensures { MatchOption result ((up : List ℕ) → LiesAbove up (shown self.now.text) → ⊥) (λ up. IsParent (shown up.text) (shown self.now.text)) }
    {
        let text = self.as_bytes();
        let end = last_slash(text)?;
        if end == 0 {
            return None;
        }
        let text = Text::copy_of(&text[..end])?;
        Some(Path { text })
    }
}
