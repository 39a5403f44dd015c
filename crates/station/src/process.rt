//! Processes.
ghost use Rattle.std.specs.Prelude.{◌≡◌, [], ◌∷◌, codes};
ghost use Rattle.texts.specs.Shown.{shown};

use super::number::ProcessNumber;
use faults::lawful::LawfulText;
use names::name::Name;
use registers::record::Record;

/// A process: its number, and the name that says who started it and for whom.
#[derive(Clone, Copy, Debug, PartialEq, Eq)]
pub struct Process {
    pub number: ProcessNumber,
    pub name: Name,
}

impl Process {
    /// A row to lend to a station: its content does not matter.
    pub fn spare() -> Process
        ensures { (result.number.0 ≡ 0) × (shown result.name.text ≡ codes "-") }
    {
        Process {
            number: ProcessNumber(0),
            name: Name::new(b"-").unwrap(),
        }
    }
}

/// Processes lie in a register by their numbers.
impl Record for Process {
    type Key = ProcessNumber;

    ghost keyed = { λ p. p.number.0 ∷ [] };

    fn key(&self) -> ProcessNumber
        ensures { result ≡ self.now.number }
    {
        self.number
    }
}
